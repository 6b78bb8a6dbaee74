//! What the words of the command line ask of a project, with all files read, and how it is done over an open database.

ghost use Rattle.std.specs.Prelude.{◌≡◌};
ghost use Rattle.wu_cli.specs.Printing.{PrintsOver};
ghost use Rattle.wu_cli.specs.Working.{AsksOfLine, AsksOfScript, DoesOver, DrivesOver, exports_of_work, line_outcome, PerformsWork, ReadsScript, script_outcome};

use crate::performing::{perform, perform_script};
use crate::trouble::Trouble;
use sqlite::{Alter, Connection};
use std::alloc::Global;
use std::io::Write;
use wu_arguments::{
    Action, Export, Line, LineFault, ReadFile, Script, ScriptFile, read_and_prepare,
    script_of_lines, text_of_script,
};
use wu_core::Fault;
use wu_drive::Project;
use wu_feed::{LONGEST_FILE, Rows, ScriptLine, read_script};

/// What is asked of a project. It holds the contents of all files that the words name, so they are read before it is
/// done.
#[derive(Drop)]
pub enum Work {
    Line(Action),
    Script(Script),
}

/// Returns how a line ended.
fn line_outcome(end: Option<Fault>) -> Result<(), Trouble>
    ensures { result ≡ line_outcome end }
{
    match end {
        None => Ok(()),
        Some(fault) => Err(Trouble::Fault(fault)),
    }
}

/// Returns how a script ended.
fn script_outcome(end: Option<LineFault>) -> Result<(), Trouble>
    ensures { result ≡ script_outcome end }
{
    match end {
        None => Ok(()),
        Some(end) => Err(Trouble::LineFault(end)),
    }
}

/// Returns the lines of a script in its file, or why there are none.
fn lines_of_script<F: ReadFile>(
    alloc: Global,
    script: &ScriptFile,
    files: &F,
) -> Result<Rows<ScriptLine>, Fault>
    ensures { ReadsScript (F.ReadFile.gives files.now) script.now result }
{
    let text = text_of_script(files.read(script.file.as_str(), LONGEST_FILE)?)?;
    read_script(alloc, text.as_slice())
}

impl Work {
    /// Returns what a line asks for, with what its files hold, as `read_and_prepare`.
    pub fn of_line<F: ReadFile>(alloc: Global, line: &Line, files: &F) -> Result<Work, Trouble>
        // What a line asks for is what its definition gives with the contents of its files; else
        // its first fault is reported.
        ensures { AsksOfLine (F.ReadFile.gives files.now) line.now result }
    {
        Ok(Work::Line(read_and_prepare(alloc, line, files)?))
    }

    /// Returns what a script asks for, with what the files of its lines hold, as `script_of_lines`.
    pub fn of_script<F: ReadFile>(
        alloc: Global,
        script: &ScriptFile,
        files: &F,
    ) -> Result<Work, Trouble>
        // What a script asks for is what its definition gives with the contents of all files; else
        // its first bad line, or its fault.
        ensures { AsksOfScript (F.ReadFile.gives files.now) script.now result }
    {
        let lines = lines_of_script(alloc, script, files)?;
        let asked = script_of_lines(alloc, script.db.as_str(), lines, files)?;
        Ok(Work::Script(asked))
    }

    /// Returns what is to be made of a copy of the project once all else is done: of a script what its last lines ask
    /// for, and of a line nothing.
    pub fn exports(&self) -> &[Export]
        // A script has the exports that it ends with, and a line has none.
        ensures { result.now ≡ exports_of_work self.now }
    {
        match self {
            Work::Line(_) => &[],
            Work::Script(script) => script.exports.as_slice(),
        }
    }

    /// Does what is asked over the project, up to the first fault. Exports are left out.
    fn perform<S: Alter, W: Write>(
        &self,
        alloc: Global,
        project: &mut Project<S>,
        out: &mut W,
    ) -> Result<(), Trouble>
        ensures { PerformsWork W.contents project.old project.new out.old out.new
            self.now result }
    {
        match self {
            Work::Line(action) => line_outcome(perform(alloc, project, action, out).1),
            Work::Script(script) => {
                script_outcome(perform_script(alloc, project, script.steps.as_slice(), out).1)
            }
        }
    }

    /// Adopts the project in an open database, does what is asked over it, up to the first fault, and gives the
    /// database back.
    ///
    /// Where nothing is adopted, no command is done and nothing is written. The exports are left out.
    pub fn perform_over<S: Alter, W: Write>(
        &self,
        alloc: Global,
        conn: Connection<S>,
        out: &mut W,
    ) -> (Connection<S>, Result<(), Trouble>)
        // The project is adopted, the work is done over it, and the database is given back. Or
        // nothing is adopted: that fault is reported, and nothing is done or written.
        ensures does { DoesOver S.Store W.contents conn result.0 out.old out.new
            self.now result.1 }
        // Over each world, or the empty one where no project is, a prefix of the commands is done,
        // each with the machine's reply; without a fault all. Or nothing is adopted, and the world
        // stays.
        ensures drives { DrivesOver S.Store conn result.0 self.now result.1 }
        // Over such a world exactly the machine's answers and views go out, and with a fault a
        // prefix of them.
        ensures prints { PrintsOver S.Store W.contents conn result.0 out.old out.new
            self.now result.1 }
    {
        match Project::adopt(conn) {
            Ok(mut project) => {
                let done = self.perform(alloc, &mut project, out);
                (project.release(), done)
            }
            Err((conn, fault)) => (conn, Err(Trouble::Fault(fault))),
        }
    }
}
