//! The steps of a script, with the contents of the files that its lines name; and its lines as those of a session.

use anyhow::{Result, bail};
use sqlite::{Alter, Connection};
use std::fs;
use std::io::{self, Write};
use wu_arguments::{
    Action, BadLine, Export, Mode, Outsider, ReadFile, Refusal, Script, Step, script_of_lines,
};
use wu_cli::{Counts, Exported, KeptCounts, MakeExport, Trouble, serve_over, write_refusal};
use wu_core::Fault;
use wu_feed::{Rows, ScriptLine, read_script};

/// The database that the lines of a script are for. Nothing is opened by this name.
const DATABASE: &str = "project.db";

/// The files of the folder that the scenarios run in.
#[derive(Drop)]
struct PlayFiles<'a> {
    rt: &'a HostRuntime,
}

impl ReadFile for PlayFiles<'_> {
    ghost use Rattle.std.specs.Prelude.{⊤};

    ghost gives = { λ _ _ _ _. ⊤ };

    fn read(&self, path: &str, _most: usize) -> std::result::Result<Option<Vec<u8>>, Fault> {
        Ok(fs::read(self.rt, path).ok())
    }
}

// An export of a database that lies in memory: nothing is copied, and its line is that of an empty project.
impl MakeExport for PlayFiles<'_> {
    ghost use Rattle.std.specs.Prelude.{⊤};

    ghost exports = { λ _ _ _ _. ⊤ };

    fn export(&self, _path: &str, export: &Export) -> std::result::Result<Exported, Trouble> {
        match export {
            Export::Backup(_) => Ok(Exported::Backup(Counts {
                version: 3,
                workunits: 0,
                results: 0,
            })),
            Export::Outputs(_) => Ok(Exported::Outputs(KeptCounts { made: 0, there: 0 })),
        }
    }
}

/// Returns the one step of a line, or why the line can't be run. An export is refused here.
fn step_of(rt: &HostRuntime, line: ScriptLine) -> std::result::Result<Option<Step>, BadLine> {
    let number = line.number;
    let why = Refusal::Fault(Fault::Memory);
    let Ok(lines) = Vec::from_array(rt.alloc(), [line]) else {
        return Err(BadLine { number, why });
    };
    let Script { steps, exports } = script_of_lines(
        rt.alloc(),
        DATABASE,
        Rows::from_vec(lines),
        &PlayFiles { rt },
    )?;
    match exports.into_vec().pop() {
        Some(export) => Err(BadLine {
            number,
            why: Refusal::Outsider(Outsider::Export(export)),
        }),
        None => Ok(steps.into_vec().pop()),
    }
}

/// Returns the action of a line of a script, or why it can't be run. A line that is repeated or tried is refused here.
pub fn action(rt: &HostRuntime, line: ScriptLine) -> std::result::Result<Action, BadLine> {
    let number = line.number;
    match step_of(rt, line)? {
        Some(step) if step.mode == Mode::Once => Ok(step.into_action()),
        _ => Err(BadLine {
            number,
            why: Refusal::Repeat,
        }),
    }
}

/// Returns the steps of a script. Fails if a line can't be run. Exports are left out.
pub fn steps(rt: &HostRuntime, text: &str) -> Result<Rows<Step>> {
    let lines = read_script(rt.alloc(), text.as_bytes())?;
    match script_of_lines(rt.alloc(), DATABASE, lines, &PlayFiles { rt }) {
        Ok(
            Script {
                steps,
                exports: _exports,
            },
        ) => Ok(steps),
        Err(bad) => bail!("line {} can't be run", bad.number),
    }
}

/// Answers the lines of a script as those of one session over the project in a database. Returns the database, and the
/// status of the session, or the trouble that prevented one.
pub fn serve<S: Alter, W: Write>(
    rt: &HostRuntime,
    conn: Connection<S>,
    text: &str,
    out: &mut W,
) -> (Connection<S>, Result<u8, Trouble>) {
    let mut lines = text.as_bytes();
    serve_over(
        rt.alloc(),
        conn,
        DATABASE,
        &mut lines,
        &PlayFiles { rt },
        out,
        &mut Vec::new(rt.alloc()),
    )
}

/// Writes why a line can't be run, and returns its status. Refused words and faults are written as for a command line,
/// any other refusal as for a line of a script.
pub fn write_bad_line(bad: BadLine, transcript: &mut Vec<u8>) -> u8 {
    let status = bad.status();
    let is_alone = match &bad.why {
        Refusal::Words(_) | Refusal::Fault(_) => true,
        _ => false,
    };
    if is_alone {
        write_refusal(&bad.why, transcript);
    } else {
        Trouble::BadLine(bad).write(transcript);
    }
    status
}

/// Writes the status that a line ends with, unless it is 0.
pub fn write_status(status: u8, transcript: &mut Vec<u8>) -> io::Result<()> {
    if status == 0 {
        return Ok(());
    }
    writeln!(transcript, "status {status}")
}

/// Writes a line if it is a comment.
pub fn write_comment(line: &str, transcript: &mut Vec<u8>) -> io::Result<()> {
    if line.starts_with('#') {
        writeln!(transcript, "{line}")?;
    }
    Ok(())
}
