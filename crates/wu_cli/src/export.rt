//! What is made of a copy of a project: a backup, or the outputs of its archive.

ghost use Rattle.wu_report.specs.Writing.{PrintsAndFlushes};
ghost use Rattle.wu_cli.specs.Exports.{exported_line, Exports, ExportsEach, TellsMade};
ghost use Rattle.wu_cli.specs.Outputs.{outputs_line};

use crate::backup::write_backed_up;
use crate::outputs::KeptCounts;
use crate::texts::write_flushed;
use crate::trouble::Trouble;
use std::io::Write;
use wu_arguments::Export;
use wu_check::Counts;
use wu_core::Fault;
use wu_report::Piece;

/// What was made of a copy of a project.
#[derive(Clone, Copy)]
pub enum Exported {
    /// A backup of a project with these numbers.
    Backup(Counts),
    /// So many outputs have their files.
    Outputs(KeptCounts),
}

/// What makes something of a copy of a database that this process has open, between two of its commands.
pub trait MakeExport {
    ghost use Rattle.std.specs.Prelude.{ℕ, List, Result};
    ghost use Rattle.wu_arguments.specs.declared.order.Export.{Export};
    ghost use Rattle.wu_cli.specs.declared.export.Exported.{Exported};
    ghost use Rattle.wu_cli.specs.declared.trouble.Trouble.{Trouble};

    /// This export of the database at this path may end so.
    ghost exports: { Self → List ℕ → Export → Result Exported Trouble → Type 0 };

    /// Makes what is asked of a copy of the sound project in the database at `path`. Else the trouble is why not.
    fn export(&self, path: &str, export: &Export) -> Result<Exported, Trouble>
        // What is made of the database at this path is as the implementation's `exports` says.
        ensures { exports self.now path.now export.now result };
}

/// Writes how many outputs have their files, and flushes.
fn write_kept<W: Write>(out: &mut W, folder: &str, counts: KeptCounts) -> Result<(), Fault>
    ensures { PrintsAndFlushes W.contents out.old out.new (outputs_line folder.now counts) result }
{
    write_flushed(
        out,
        &[
            Piece::Text("outputs "),
            Piece::Text(folder),
            Piece::Text(": made="),
            Piece::Number(counts.made),
            Piece::Text(" there="),
            Piece::Number(counts.there),
            Piece::Text("\n"),
        ],
    )
}

/// Writes what was made of a copy of a project, and at which path, and flushes.
pub fn write_exported<W: Write>(out: &mut W, place: &str, exported: Exported) -> Result<(), Fault>
    // With Ok exactly the line with the path and the numbers is written, and else a prefix of it.
    ensures { PrintsAndFlushes W.contents out.old out.new
        (exported_line place.now exported) result }
{
    match exported {
        Exported::Backup(counts) => write_backed_up(out, place, counts),
        Exported::Outputs(counts) => write_kept(out, place, counts),
    }
}

/// Reports what was made. Of what was not, returns why.
pub fn report_made<W: Write>(
    out: &mut W,
    place: &str,
    made: Result<Exported, Trouble>,
) -> Result<(), Trouble>
    // The line of what was made goes out, or a prefix of it with `Output`. Of what was not the
    // trouble is returned, and nothing goes out.
    ensures { TellsMade W.contents place.now made out.old out.new result }
{
    match made {
        Ok(exported) => {
            write_exported(out, place, exported)?;
            Ok(())
        }
        Err(trouble) => Err(trouble),
    }
}

/// Makes an export of the database at a path, and reports it. Of one that is not made, returns why.
fn export_one<F: MakeExport, W: Write>(
    files: &F,
    path: &str,
    export: &Export,
    out: &mut W,
) -> Result<(), Trouble>
    ensures { Exports W.contents (F.MakeExport.exports files.now) path.now export.now
        out.old out.new result }
{
    let made = files.export(path, export);
    report_made(out, export.place(), made)
}

/// Makes exports of the database at a path, one after another, and reports each. Returns the trouble of the first that
/// is not made or not reported; no further one is made then.
pub fn export_each<F: MakeExport, W: Write>(
    files: &F,
    path: &str,
    exports: &[Export],
    out: &mut W,
) -> Result<(), Trouble>
    // The exports are made and reported in order, each once, up to the first trouble.
    ensures { ExportsEach W.contents (F.MakeExport.exports files.now) path.now exports.now
        out.old out.new result }
{
    for export in exports {
        export_one(files, path, export, out)?;
    }
    Ok(())
}
