//! A session: lines that come one after another. Each is done and answered before the next one is read.

ghost use Rattle.std.specs.Prelude.{◌≡◌, ℕ, List, Option};
ghost use Rattle.wu_report.specs.Writing.{WritesTo};
ghost use Rattle.wu_cli.specs.Hearing.{heard_text, IsUnread};
ghost use Rattle.wu_cli.specs.Answering.{end_text, is_cut, status_front, status_of_done, undone_line};
ghost use Rattle.wu_cli.specs.Sessions.{AnswersHeard, asks, DoesHeard, DoesScript, DoesText, done_of_exports, ends_with, EndsSession, RunsSession, ScriptOfText};

use crate::export::{MakeExport, export_each};
use crate::hearing::{Heard, hear, unreadable};
use crate::line_trouble::LineTrouble;
use crate::performing::perform_script;
use crate::texts::write_line;
use crate::trouble::Trouble;
use sqlite::Alter;
use std::alloc::Global;
use std::io::{BufRead, Write};
use wu_arguments::{ReadFile, Refusal, Script, Usage, fault_status, script_of_lines};
use wu_core::Fault;
use wu_drive::Project;
use wu_feed::read_script;
use wu_report::{Piece, write_pieces};

/// Writes the front of a line that reports why a line was not done, with its status.
fn write_status<W: Write>(out: &mut W, status: u8) -> Result<(), Fault>
    ensures { WritesTo W.contents out.old out.new (status_front status) result }
{
    write_pieces(
        out,
        &[
            Piece::Text("= "),
            Piece::Number(u64::from(status)),
            Piece::Text(" "),
        ],
    )
}

/// Writes with which status a line was not done, and why, on one line.
fn write_undone<W: Write>(out: &mut W, why: &LineTrouble) -> Result<(), Fault>
    ensures { WritesTo W.contents out.old out.new (undone_line why.now) result }
{
    write_status(out, why.status())?;
    why.write(out)
}

/// Returns whether the text of a line was cut.
fn is_cut(done: &Result<bool, LineTrouble>) -> bool
    ensures { result ≡ is_cut done.now }
{
    match done {
        Ok(_) => false,
        Err(why) => why.cuts(),
    }
}

/// Writes the line that ends the answer to a line, and flushes; nothing after a line without a command, or after a text
/// that was cut.
fn write_end<W: Write>(out: &mut W, done: &Result<bool, LineTrouble>) -> Result<(), Fault>
    ensures { WritesTo W.contents out.old out.new (end_text done.now) result }
{
    if is_cut(done) {
        return Ok(());
    }
    match done {
        Ok(false) => Ok(()),
        Ok(true) => write_line(out, "= 0"),
        Err(why) => write_undone(out, why),
    }
}

/// Returns what the text of a line asks for: what the script does that it is by itself.
fn script_of_text<F: ReadFile>(
    alloc: Global,
    db: &str,
    text: &[u8],
    files: &F,
) -> Result<Script, Refusal>
    ensures { ScriptOfText (F.ReadFile.gives files.now) db.now text.now result }
{
    let lines = read_script(alloc, text)?;
    match script_of_lines(alloc, db, lines, files) {
        Ok(script) => Ok(script),
        Err(bad) => Err(bad.into_why()),
    }
}

/// Returns whether a script asks for anything: its line is neither empty nor a comment.
fn asks(script: &Script) -> bool
    ensures { result ≡ asks script.now }
{
    script.steps.as_slice().first().is_some() || script.exports.as_slice().first().is_some()
}

/// Returns how a line ended whose exports ended so: whether it has a command, or why one is not made or not reported.
fn done_of_exports(script: &Script, told: Result<(), Trouble>) -> Result<bool, LineTrouble>
    ensures { result ≡ done_of_exports script.now told }
{
    match told {
        Ok(()) => Ok(asks(script)),
        Err(Trouble::Fault(fault)) => Err(LineTrouble::Refused(Refusal::Fault(fault))),
        Err(trouble) => Err(LineTrouble::Export(trouble)),
    }
}

/// Does the steps of a line up to the first fault, and then makes its exports. Returns whether it has a command.
fn do_script<S: Alter, F: MakeExport, W: Write>(
    alloc: Global,
    project: &mut Project<S>,
    db: &str,
    script: &Script,
    files: &F,
    out: &mut W,
) -> Result<bool, LineTrouble>
    ensures { DoesScript W.contents (F.MakeExport.exports files.now) db.now
        project.old project.new out.old out.new script.now result }
{
    match perform_script(alloc, project, script.steps.as_slice(), out).1 {
        None => {
            let told = export_each(files, db, script.exports.as_slice(), out);
            done_of_exports(script, told)
        }
        Some(end) => Err(LineTrouble::Refused(Refusal::Fault(end.fault))),
    }
}

/// Does what the text of a line asks for, up to the first fault, or makes the export that it asks for. Returns whether
/// it has a command.
pub fn do_text<S: Alter, F: ReadFile + MakeExport, W: Write>(
    alloc: Global,
    project: &mut Project<S>,
    db: &str,
    text: &[u8],
    files: &F,
    out: &mut W,
) -> Result<bool, LineTrouble>
    // The steps of the text are done, with what they print, up to the first fault; or its export is
    // made and reported; or it cannot be run, and nothing is done or goes out.
    ensures { DoesText W.contents (F.ReadFile.gives files.now)
        (F.MakeExport.exports files.now) db.now
        project.old project.new out.old out.new text.now result }
{
    match script_of_text(alloc, db, text, files) {
        Ok(script) => do_script(alloc, project, db, &script, files, out),
        Err(why) => Err(LineTrouble::Refused(why)),
    }
}

/// Does what was heard: the text of a line, or nothing where none could be had. Returns whether it has a command.
fn do_heard<S: Alter, F: ReadFile + MakeExport, W: Write>(
    alloc: Global,
    project: &mut Project<S>,
    db: &str,
    heard: Heard,
    files: &F,
    out: &mut W,
) -> Result<bool, LineTrouble>
    ensures { DoesHeard W.contents (F.ReadFile.gives files.now)
        (F.MakeExport.exports files.now) db.now
        project.old project.new out.old out.new (heard_text heard) result }
{
    match heard {
        Ok(text) => do_text(alloc, project, db, text.as_slice(), files, out),
        Err(why) => Err(LineTrouble::Refused(why)),
    }
}

/// Returns the status of a line.
fn status_of_done(done: &Result<bool, LineTrouble>) -> u8
    ensures { result ≡ status_of_done done.now }
{
    match done {
        Ok(_) => 0,
        Err(why) => why.status(),
    }
}

/// Returns the status with which a session ends after a line, or `None` if it goes on.
fn ends_with(
    told: Result<(), Fault>,
    has_ended: bool,
    done: &Result<bool, LineTrouble>,
) -> Option<u8>
    ensures { result ≡ ends_with told has_ended done.now }
{
    match told {
        Err(_) => Some(fault_status(Fault::Output)),
        Ok(()) if is_cut(done) => Some(fault_status(Fault::Output)),
        Ok(()) if has_ended => Some(status_of_done(done)),
        Ok(()) => None,
    }
}

/// Writes what clap prints of the words of a line on standard error, where it refuses them.
fn write_usage<E: Write>(err: &mut E, done: &Result<bool, LineTrouble>) {
    if let Err(LineTrouble::Refused(Refusal::Words(Usage::Refused(text)))) = done {
        let _ = err.write_all(text.as_str().as_bytes());
        let _ = err.flush();
    }
}

/// Does what was heard, and answers it. Returns the status with which the session ends, or `None` if it goes on.
pub fn answer<S: Alter, F: ReadFile + MakeExport, W: Write, E: Write>(
    alloc: Global,
    project: &mut Project<S>,
    db: &str,
    heard: Heard,
    files: &F,
    out: &mut W,
    err: &mut E,
) -> Option<u8>
    // What was heard is done or refused, and then the line that ends its answer goes out.
    ensures { AnswersHeard W.contents (F.ReadFile.gives files.now)
        (F.MakeExport.exports files.now) db.now
        project.old project.new out.old out.new (heard_text heard) result }
{
    let done = do_heard(alloc, project, db, heard, files, out);
    let told = write_end(out, &done);
    write_usage(err, &done);
    ends_with(told, project.ended(), &done)
}

/// Answers that the input cannot be read further. Returns the status to end with.
fn end_unread<S: Alter, F: ReadFile + MakeExport, W: Write, E: Write>(
    alloc: Global,
    project: &mut Project<S>,
    db: &str,
    why: Refusal,
    files: &F,
    out: &mut W,
    err: &mut E,
) -> u8
    requires { IsUnread why }
    ensures { (in_old in_new : Option (List ℕ))
        → EndsSession W.contents (F.ReadFile.gives files.now)
        (F.MakeExport.exports files.now) db.now
        project.old project.new out.old out.new in_old in_new result }
{
    let status = why.status();
    answer(alloc, project, db, Err(why), files, out, err).unwrap_or(status)
}

/// Reads lines one after another, does each and answers it before the next one is read. It ends at the end of the input,
/// with status 0; where the input cannot be read; where an output fails, with status 5; and where the project's session
/// ended, with the status of that line. Returns the status to end with.
pub fn serve<S: Alter, R: BufRead, F: ReadFile + MakeExport, W: Write, E: Write>(
    alloc: Global,
    project: &mut Project<S>,
    db: &str,
    input: &mut R,
    files: &F,
    out: &mut W,
    err: &mut E,
) -> u8
    // Of an input whose bytes are known the lines are done and answered in order, each over what the
    // one before it left. That goes up to its end, or to a line that ends the session. None of these
    // is left out, and none is done twice.
    ensures { RunsSession W.contents (F.ReadFile.gives files.now)
        (F.MakeExport.exports files.now) db.now
        project.old project.new out.old out.new
        (R.remaining input.old) (R.remaining input.new) result }
{
    for _ in 0..u64::MAX {
        match hear(alloc, input) {
            Ok(Some(heard)) => {
                if let Some(status) = answer(alloc, project, db, heard, files, out, err) {
                    return status;
                }
            }
            Ok(None) => return 0,
            Err(why) => return end_unread(alloc, project, db, why, files, out, err),
        }
    }
    end_unread(alloc, project, db, unreadable(), files, out, err)
}
