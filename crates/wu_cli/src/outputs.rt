//! The outputs of archived workunits as files: each canonical output in a file of a folder, named for its workunit.

ghost use Rattle.std.specs.Prelude.{◌≡◌, IfOk, IfSome, string_bytes, suc};
ghost use Rattle.wu_report.specs.Writing.{WritesTo};
ghost use Rattle.wu_cli.specs.Outputs.{reserved_ending, HasFile, IsLost, is_wanted, KeepsOutputs, KeepsIfSound, lost_line, output_path, total, trouble_of_walk};

use crate::backup::{Unmade, count_sound};
use crate::log_names::is_reserved;
use crate::texts::{line_of_fault, write_flushed};
use crate::trouble::Trouble;
use sqlite::{Alter, Connection};
use std::alloc::{AllocError, Global};
use std::io::Write;
use wu_arguments::{OutputFiles, Word};
use wu_core::{Archived, Fault, Name};
use wu_report::Piece;
use wu_views::{ArchiveListing, Takes, walk};

/// How an output has its file.
#[derive(Clone, Copy, PartialEq, Eq)]
pub enum Kept {
    /// The file was made.
    Made,
    /// The file was there, with the same bytes.
    There,
}

/// What keeps outputs as files.
pub trait KeepFile {
    ghost use Rattle.std.specs.Prelude.{ℕ, IfOk, List};

    /// A file at this path may have these bytes.
    ghost keeps: { Self → List ℕ → List ℕ → Type 0 };

    /// Makes a file with these bytes at a path where nothing lies, all of it or none. One that is there with the same
    /// bytes is left, and anything else refused.
    fn keep(&self, path: &str, bytes: &[u8]) -> Result<Kept, Unmade>
        // The file at this path has exactly these bytes.
        ensures { IfOk result (λ _. keeps self.now path.now bytes.now) };
}

/// How many outputs have their files.
#[derive(Clone, Copy)]
pub struct KeptCounts {
    /// Those whose files were made.
    pub made: u64,
    /// Those whose files were there.
    pub there: u64,
}

/// An archived workunit whose output has no file.
#[derive(Drop)]
pub struct LostOutput {
    /// The number of the workunit.
    pub number: u64,
    /// Its name; empty where memory ran out.
    pub name: Word,
    pub why: Unmade,
}

/// Keeps the outputs of archived workunits, one after another.
#[derive(Drop)]
struct OutputKeeper<'a, F: KeepFile> {
    alloc: Global,
    files: &'a F,
    asked: &'a OutputFiles,
    kept: KeptCounts,
    lost: Option<LostOutput>,
}

/// Returns whether the output of an archived workunit is kept: it is canonical, and the workunit is the one that is
/// asked for, if one is.
fn is_wanted(asked: &OutputFiles, row: &Archived) -> bool
    ensures { result ≡ is_wanted asked.now.name row.now }
{
    match &asked.name {
        Some(name) => row.canonical.is_some() && name.as_str() == row.name.as_str(),
        None => row.canonical.is_some(),
    }
}

/// Returns an archived workunit whose output has no file for this reason, or for want of memory.
fn lost_of(alloc: Global, row: &Archived, why: Unmade) -> LostOutput
    ensures { IsLost row.now result }
{
    let number = row.number;
    match Word::from_text(alloc, row.name.as_str()) {
        Ok(name) => LostOutput { number, name, why },
        Err(_) => LostOutput {
            number,
            name: Word::from_string(String::new(alloc)),
            why: Unmade::Memory,
        },
    }
}

/// Returns what stands after a workunit's name in that of its output's file: `+`, which no workunit has in its name,
/// where no file of an output has the workunit's name, and else nothing.
fn reserved_ending(name: &str) -> &'static str
    ensures { result.now ≡ reserved_ending name.now }
{
    if is_reserved(name) { "+" } else { "" }
}

/// Returns the path of the file of a workunit's output.
fn output_path(alloc: Global, folder: &str, name: &Name) -> Result<String, AllocError>
    ensures { IfOk result (λ path. string_bytes path ≡ output_path folder.now name.now) }
{
    let mut path = String::from_str(alloc, folder)?;
    path.push_str("/")?;
    path.push_str(name.as_str())?;
    path.push_str(reserved_ending(name.as_str()))?;
    Ok(path)
}

/// Returns the counts with one file more; `None` where they cannot be counted in 64 bits.
fn with_kept(counts: KeptCounts, kept: Kept) -> Option<KeptCounts>
    ensures { IfSome result (λ more. total more ≡ suc (total counts)) }
{
    match kept {
        Kept::Made => Some(KeptCounts {
            made: counts.made.checked_add(1)?,
            ..counts
        }),
        Kept::There => Some(KeptCounts {
            there: counts.there.checked_add(1)?,
            ..counts
        }),
    }
}

impl<F: KeepFile> OutputKeeper<'_, F> {
    /// Sees to the file of an output. Returns the counts with it.
    fn keep(&self, row: &Archived) -> Result<KeptCounts, Unmade>
        ensures { IfOk result (HasFile F.KeepFile.keeps self.now row.now) }
    {
        let Ok(path) = output_path(self.alloc, self.asked.folder.as_str(), &row.name) else {
            return Err(Unmade::Memory);
        };
        let kept = self.files.keep(path.as_str(), row.output.as_slice())?;
        match with_kept(self.kept, kept) {
            Some(counts) => Ok(counts),
            None => Err(Unmade::Memory),
        }
    }
}

impl<F: KeepFile> Takes<Archived> for OutputKeeper<'_, F> {
    ghost use Rattle.wu_cli.specs.Outputs.{KeepsRow, LosesRow};

    // The output of a row that it takes has its file, if it is wanted.
    ghost takes = { λ old new row. KeepsRow F.KeepFile.keeps old new row };

    // The output of a row that it refuses is wanted, and has none.
    ghost refuses = { λ old new row. LosesRow old new row };

    fn take(&mut self, row: &Archived) -> Result<(), Fault> {
        if !is_wanted(self.asked, row) {
            return Ok(());
        }
        match self.keep(row) {
            Ok(kept) => {
                self.kept = kept;
                Ok(())
            }
            Err(why) => {
                self.lost = Some(lost_of(self.alloc, row, why));
                Err(Fault::Output)
            }
        }
    }
}

/// Returns the trouble of a walk that ended with a fault: the output that has no file, or else the fault.
fn trouble_of_walk(lost: Option<LostOutput>, fault: Fault) -> Trouble
    ensures { result ≡ trouble_of_walk lost fault }
{
    match lost {
        Some(lost) => Trouble::Lost(lost),
        None => Trouble::Fault(fault),
    }
}

/// Keeps the canonical outputs of the archive in an open database as files. Returns how many have theirs. The first one
/// that has none ends it; those before it keep theirs.
fn keep_outputs<S: Alter, F: KeepFile>(
    alloc: Global,
    conn: &mut Connection<S>,
    files: &F,
    asked: &OutputFiles,
) -> Result<KeptCounts, Trouble>
    // Of each world with classes that the tables represent, each wanted output has its file, with
    // exactly its bytes, and they are counted; or the first ones have, up to one that has none, or
    // to a fault of the store.
    ensures { KeepsOutputs S.Store (F.KeepFile.keeps files.now) asked.now conn.old conn.new result }
{
    let mut keeper = OutputKeeper {
        alloc,
        files,
        asked,
        kept: KeptCounts { made: 0, there: 0 },
        lost: None,
    };
    match walk::<S, ArchiveListing, OutputKeeper<'_, F>>(conn, alloc, &mut keeper) {
        Ok(()) => Ok(keeper.kept),
        Err(fault) => Err(trouble_of_walk(keeper.lost, fault)),
    }
}

/// Checks an open database, and keeps the canonical outputs of its archive as files, as far as it is a sound project.
/// Returns how many have theirs. Nothing of the database is changed.
pub fn keep_sound<S: Alter, F: KeepFile>(
    alloc: Global,
    conn: &mut Connection<S>,
    files: &F,
    asked: &OutputFiles,
) -> Result<KeptCounts, Trouble>
    // The database is checked, and what keeps it from being a sound project is reported. Of a sound
    // one each wanted output has its file, with exactly its bytes, and they are counted; or the
    // first ones have, up to one that has none, or to a fault of the store.
    ensures { KeepsIfSound S.Store (F.KeepFile.keeps files.now) asked.now conn.old conn.new result }
{
    let _counts = count_sound(alloc, conn)?;
    keep_outputs(alloc, conn, files, asked)
}

/// Writes the line that reports an output without a file, and flushes.
pub(crate) fn line_of_lost<W: Write>(out: &mut W, lost: &LostOutput) -> Result<(), Fault>
    // With Ok exactly the line with the workunit and the reason is written, and else a prefix of it.
    ensures { WritesTo W.contents out.old out.new (lost_line lost.now) result }
{
    match lost.why {
        Unmade::Memory => line_of_fault(out, Fault::Memory),
        why => write_flushed(
            out,
            &[
                Piece::Text("cannot write the output of workunit "),
                Piece::Number(lost.number),
                Piece::Text(", "),
                Piece::Text(lost.name.as_str()),
                Piece::Text(": "),
                Piece::Text(why.words()),
                Piece::Text("\n"),
            ],
        ),
    }
}
