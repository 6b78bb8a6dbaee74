//! The steps of a script: what each of its lines asks of a project, with all files read.

ghost use Rattle.std.specs.Prelude.{◌≡◌};
ghost use Rattle.wu_arguments.specs.Statuses.{refusal_status};
ghost use Rattle.wu_arguments.specs.Steps.{asked_by, GivesScript, GivesStep, Takes};

use crate::action::{Action, read_and_prepare};
use crate::files::ReadFile;
use crate::order::Export;
use crate::refusal::Refusal;
use crate::script::{Mode, line_of_all, mode_of};
use std::alloc::Global;
use wu_core::Fault;
use wu_feed::{Rows, ScriptLine};

/// What a line of a script asks of a project.
pub struct Step {
    /// Its place among the lines of the script, from 1.
    pub number: u64,
    /// How its action is done. One that is repeated is a pass.
    pub mode: Mode,
    pub action: Action,
}

// It is written out, so that a caller does not prove again how each part is dropped.
impl Drop for Step {
    fn drop(self) {
        let Step {
            number: _number,
            mode: _mode,
            action: _action,
        } = self;
    }
}

impl Step {
    /// Returns its action alone.
    pub fn into_action(self) -> Action
        // The result is the step's action.
        ensures { result ≡ self.action }
    {
        let Step {
            number: _number,
            mode: _mode,
            action,
        } = self;
        action
    }
}

/// What a script asks for, with all files read.
#[derive(Drop)]
pub struct Script {
    /// What its lines ask of its project.
    pub steps: Rows<Step>,
    /// What its last lines ask to be made of a copy of the project, after the steps.
    pub exports: Rows<Export>,
}

/// The first line of a script that cannot be run, and why.
pub struct BadLine {
    /// Its place among the lines of the script, from 1.
    pub number: u64,
    pub why: Refusal,
}

// It is written out, so that a caller does not prove again how each part is dropped.
impl Drop for BadLine {
    fn drop(self) {
        let BadLine {
            number: _number,
            why: _why,
        } = self;
    }
}

impl BadLine {
    /// Returns why it can't be run.
    pub fn into_why(self) -> Refusal
        // The result is the cause of the bad line.
        ensures { result ≡ self.why }
    {
        let BadLine {
            number: _number,
            why,
        } = self;
        why
    }

    /// Returns the status that the program ends with for this line.
    pub fn status(&self) -> u8
        // The status is that of why the line cannot be run.
        ensures { result ≡ refusal_status self.now.why }
    {
        self.why.status()
    }
}

/// The line of a script whose fault ended it.
#[derive(Clone, Copy, PartialEq, Eq)]
pub struct LineFault {
    /// Its place among the lines of the script, from 1.
    pub number: u64,
    pub fault: Fault,
}

/// Returns what a line asks for that is done in this way. A fault of a tried line waits until the line is done, but for
/// out of memory.
fn asked_by(mode: Mode, asked: Result<Action, Fault>) -> Result<Action, Fault>
    ensures { result ≡ asked_by mode asked }
{
    match (mode, asked) {
        (_, Ok(action)) => Ok(action),
        (_, Err(Fault::Memory)) => Err(Fault::Memory),
        (Mode::Tried, Err(fault)) => Ok(Action::Refused(fault)),
        (_, Err(fault)) => Err(fault),
    }
}

/// Returns what a line of a script asks of a project, with what its files hold, or why it cannot be run.
fn step_of<F: ReadFile>(
    alloc: Global,
    db: &str,
    line: ScriptLine,
    files: &F,
) -> Result<Step, Refusal>
    ensures { GivesStep (F.ReadFile.gives files.now) db.now line result }
{
    let ScriptLine { number, words } = line;
    let words = words?;
    let mode = mode_of(words.as_slice());
    let asked = line_of_all(alloc, db, words, mode)?;
    let action = asked_by(mode, read_and_prepare(alloc, &asked, files))?;
    Ok(Step {
        number,
        mode,
        action,
    })
}

/// Adds what a line asks for to what the lines before it ask for: a step, or an export. After an export a step is
/// refused.
fn take(
    steps: &mut Vec<Step>,
    exports: &mut Vec<Export>,
    asked: Result<Step, Refusal>,
) -> Result<(), Refusal>
    ensures { Takes steps.old.items exports.old.items asked
        steps.new.items exports.new.items result }
{
    match asked {
        Ok(step) if exports.is_empty() => steps.push(step)?,
        Ok(_step) => return Err(Refusal::AfterExport),
        Err(why) => exports.push(why.into_export()?)?,
    }
    Ok(())
}

/// Returns what the lines of a script ask for: the steps over the project in a database, and then the exports with which
/// the script ends; or the first line that cannot be run.
///
/// The files of a line are read only if the lines before it can be run. A line is the command line of its words,
/// followed by `--db` and this database. Where the first word is `repeat` or `try` it is the line of the others. What
/// stands after `repeat` has to be a pass. The last lines may ask for exports; any other line after an export is
/// refused.
pub fn script_of_lines<F: ReadFile>(
    alloc: Global,
    db: &str,
    lines: Rows<ScriptLine>,
    files: &F,
) -> Result<Script, BadLine>
    // There is a step or an export for each line, in order, and no step after an export; else the
    // first line that cannot be run is reported. Out of memory may be reported of any line whose
    // lines before can be run.
    ensures { GivesScript (F.ReadFile.gives files.now) db.now lines result }
{
    let mut steps = Vec::new(alloc);
    let mut exports = Vec::new(alloc);
    for line in lines.into_vec() {
        let number = line.number;
        let asked = step_of(alloc, db, line, files);
        match take(&mut steps, &mut exports, asked) {
            Ok(()) => {}
            Err(why) => return Err(BadLine { number, why }),
        }
    }
    Ok(Script {
        steps: Rows::from_vec(steps),
        exports: Rows::from_vec(exports),
    })
}
