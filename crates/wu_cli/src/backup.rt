//! What a backup asks of its copy, and what it reports; why a file is not made.

ghost use Rattle.std.specs.Prelude.{◌≡◌};
ghost use Rattle.std.specs.IoError.{error_kind};
ghost use Rattle.wu_report.specs.Writing.{PrintsAndFlushes, WritesTo};
ghost use Rattle.wu_cli.specs.Backups.{backup_line, CountsSound, unmade_line, unmade_of, unmade_status, unmade_words};

use crate::texts::{line_of_fault, worded, write_flushed};
use crate::trouble::Trouble;
use sqlite::{Alter, Connection};
use std::alloc::Global;
use std::io::{self, ErrorKind, Write};
use wu_check::{Counts, Verdict, check};
use wu_core::Fault;
use wu_report::Piece;

/// Checks whether an open database holds a sound project, as `wu_check::check` does, and returns its numbers. Else the
/// trouble is what keeps it from that. Nothing of the database is changed.
pub fn count_sound<S: Alter>(alloc: Global, conn: &mut Connection<S>) -> Result<Counts, Trouble>
    // The verdict is that of `wu_check::check`, with all that it means. The numbers are those of a
    // sound project; a finding or a fault is returned as the trouble.
    ensures { CountsSound S.Store conn.old conn.new result }
{
    match check(conn, alloc) {
        Ok(Verdict::Sound(counts)) => Ok(counts),
        Ok(Verdict::Unsound(finding)) => Err(Trouble::Unsound(finding)),
        Err(fault) => Err(Trouble::Fault(fault)),
    }
}

/// Why the file of a backup, or of an output, is not made.
#[derive(Clone, Copy, PartialEq, Eq)]
pub enum Unmade {
    /// Something lies at its path.
    Taken,
    /// A file with other bytes, or no file, lies at the path of an output.
    OtherBytes,
    /// Its path is that of a log or a journal.
    LogName,
    /// A log or a journal lies beside its path.
    LogBeside,
    /// A part of an earlier backup lies beside its path.
    PartBeside,
    /// The folder of its path is not there.
    NoFolder,
    FullDisk,
    /// The file cannot be made, for example without permission.
    Refused,
    /// A growth of memory was refused.
    Memory,
}

impl Unmade {
    /// Returns the reason why the system does not make a file.
    pub fn of(error: &io::Error) -> Unmade
        // An error on making a file is `NoFolder`, `FullDisk`, `Memory` or else `Refused`.
        ensures { result ≡ unmade_of (error_kind error.now) }
    {
        match error.kind() {
            ErrorKind::NotFound => Unmade::NoFolder,
            ErrorKind::StorageFull => Unmade::FullDisk,
            ErrorKind::OutOfMemory => Unmade::Memory,
            _ => Unmade::Refused,
        }
    }

    /// Returns the status to end with: 4 for out of memory, 3 where the disk does not take the file, else 1.
    pub fn status(self) -> u8
        // The status is 4 for out of memory, 3 where the disk does not take the file, else 1.
        ensures { result ≡ unmade_status self }
    {
        match self {
            Unmade::Memory => 4,
            Unmade::FullDisk | Unmade::Refused => 3,
            _ => 1,
        }
    }

    /// Returns the words for the reason, which end the line that reports it.
    pub fn words(self) -> &'static str
        // The words are the reason's one text.
        ensures { result.now ≡ unmade_words self }
    {
        match self {
            Unmade::Taken => "something is there already",
            Unmade::OtherBytes => "something else is there already",
            Unmade::LogName => "its name is that of a log",
            Unmade::LogBeside => "a log or a journal lies beside it",
            Unmade::PartBeside => "a part of an earlier one lies beside it",
            Unmade::NoFolder => "its folder is not there",
            Unmade::FullDisk => "the disk is full",
            Unmade::Refused => "the file cannot be made",
            Unmade::Memory => "out of memory",
        }
    }
}

/// Writes the line that reports why the file of a backup is not made, and flushes.
pub(crate) fn line_of_unmade<W: Write>(out: &mut W, why: Unmade) -> Result<(), Fault>
    // With Ok exactly the line of the reason is written, and else a prefix of it.
    ensures { WritesTo W.contents out.old out.new (unmade_line why) result }
{
    match why {
        Unmade::Memory => line_of_fault(out, Fault::Memory),
        _ => worded(out, "cannot make the backup: ", why.words()),
    }
}

/// Writes that a backup was made, with what its project has, and flushes.
pub(crate) fn write_backed_up<W: Write>(out: &mut W, to: &str, counts: Counts) -> Result<(), Fault>
    // With Ok exactly the line with the path and the three numbers is written, and else a prefix of
    // it. The only fault is `Output`.
    ensures { PrintsAndFlushes W.contents out.old out.new (backup_line to.now counts) result }
{
    write_flushed(
        out,
        &[
            Piece::Text("backup "),
            Piece::Text(to),
            Piece::Text(": version="),
            Piece::Number(counts.version),
            Piece::Text(" workunits="),
            Piece::Number(counts.workunits),
            Piece::Text(" results="),
            Piece::Number(counts.results),
            Piece::Text("\n"),
        ],
    )
}
