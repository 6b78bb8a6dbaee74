//! A session over an open database: its project is adopted, and the lines of an input are answered over it.

ghost use Rattle.std.specs.Prelude.{◌≡◌, IfErr};
ghost use Rattle.wu_report.specs.Writing.{WritesTo};
ghost use Rattle.wu_passes.specs.Projects.{older_version};
ghost use Rattle.wu_cli.specs.Sessions.{ready_line, ServesOver, ServesProject};

use crate::export::MakeExport;
use crate::session::serve;
use crate::texts::write_flushed;
use crate::trouble::Trouble;
use sqlite::{Alter, Connection};
use std::alloc::Global;
use std::io::{BufRead, Write};
use wu_arguments::{ReadFile, fault_status};
use wu_core::{Fault, PRESENT_VERSION};
use wu_drive::Project;
use wu_report::Piece;

/// Writes the line with which a session begins, and flushes.
fn write_ready<W: Write>(out: &mut W, older: Option<u64>, is_new: bool) -> Result<(), Fault>
    ensures { WritesTo W.contents out.old out.new (ready_line older is_new) result }
{
    let version = match older {
        Some(version) => version,
        None => PRESENT_VERSION,
    };
    let end = if is_new { " new" } else { "" };
    write_flushed(
        out,
        &[
            Piece::Text("= ready version="),
            Piece::Number(version),
            Piece::Text(end),
            Piece::Text("\n"),
        ],
    )
}

/// Reports that the project is ready, and answers the lines of the input over it. Returns the status to end with.
fn serve_project<S: Alter, R: BufRead, F: ReadFile + MakeExport, W: Write, E: Write>(
    alloc: Global,
    project: &mut Project<S>,
    db: &str,
    input: &mut R,
    files: &F,
    out: &mut W,
    err: &mut E,
) -> u8
    ensures { ServesProject W.contents (F.ReadFile.gives files.now)
        (F.MakeExport.exports files.now) db.now
        project.old project.new out.old out.new
        (R.remaining input.old) (R.remaining input.new) result }
{
    match write_ready(out, project.older_version(), project.is_new()) {
        Ok(()) => serve(alloc, project, db, input, files, out, err),
        Err(_) => fault_status(Fault::Output),
    }
}

/// Adopts the project in an open database, answers the lines of the input over it, and gives the database back, with the
/// status to end with. Where nothing is adopted, no line is read and nothing is written, and the trouble is why.
pub fn serve_over<S: Alter, R: BufRead, F: ReadFile + MakeExport, W: Write, E: Write>(
    alloc: Global,
    conn: Connection<S>,
    db: &str,
    input: &mut R,
    files: &F,
    out: &mut W,
    err: &mut E,
) -> (Connection<S>, Result<u8, Trouble>)
    // The project is adopted, and the lines are answered over it; or none is adopted, no line is
    // read, and nothing goes out.
    ensures serves { ServesOver S.Store W.contents (F.ReadFile.gives files.now)
        (F.MakeExport.exports files.now) db.now
        conn result.0 out.old out.new
        (R.remaining input.old) (R.remaining input.new) result.1 }
    // Where none is adopted, nothing is written on standard error.
    ensures silent { IfErr result.1 (λ _. err.new ≡ err.old) }
{
    match Project::adopt(conn) {
        Ok(mut project) => {
            let status = serve_project(alloc, &mut project, db, input, files, out, err);
            (project.release(), Ok(status))
        }
        Err((conn, fault)) => (conn, Err(Trouble::Fault(fault))),
    }
}
