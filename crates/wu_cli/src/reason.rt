//! Why a database that is to be checked cannot be opened.

ghost use Rattle.std.specs.Prelude.{◌≡◌};
ghost use Rattle.std.specs.IoError.{error_kind};
ghost use Rattle.wu_cli.specs.Checks.{reason_line, reason_of, reason_of_copy, reason_of_file, reason_of_reading, reason_status, reason_words};
ghost use Rattle.wu_report.specs.Writing.{WritesTo};

use crate::texts::{line_of_fault, worded};
use sqlite::{Error, ErrorCode};
use std::alloc::AllocError;
use std::io::{self, ErrorKind, Write};
use wu_core::Fault;

/// Why a database cannot be opened.
#[derive(Clone, Copy, PartialEq, Eq)]
pub enum Reason {
    /// No file lies at the path.
    NoFile,
    /// The path is that of a log or a journal.
    LogName,
    /// No file lies at the path, or an empty one, but a log or a journal lies beside it.
    LogAlone,
    /// In the place of its log is a link, which an opening does not follow.
    LinkedLog,
    /// In the place of its log or its journal is something else.
    ForeignLog,
    /// Another program has it open.
    InUse,
    /// It is no database, or one that the store does not read.
    NoDatabase,
    /// It is a database of SQLite with auto-vacuum, or with texts in UTF-16.
    OtherKind,
    /// Its file has more names than one, and its log may lie beside another one.
    TwoNames,
    /// A rollback journal lies beside it, which only SQLite rolls back.
    Journal,
    /// It is damaged, or the log beside it is that of another database.
    Damaged,
    FailingDisk,
    FullDisk,
    /// The file cannot be opened, for example without permission.
    Refused,
    /// A growth of memory was refused.
    Memory,
}

impl From<AllocError> for Reason {
    ghost use Rattle.wu_cli.specs.declared.reason.Reason.TheVariants.{Memory};

    // A failed allocation becomes `Memory`.
    ghost from_gives = { λ _ reason. reason ≡ Memory };

    fn from(_error: AllocError) -> Reason {
        Reason::Memory
    }
}

impl Reason {
    /// Returns the reason for an error of the store.
    pub fn of(error: &Error) -> Reason
        // Each error of the store has its one reason; any that is not listed is `Refused`.
        ensures { result ≡ reason_of error.now }
    {
        match error {
            Error::SqliteFailure(ErrorCode::OutOfMemory) => Reason::Memory,
            Error::SqliteFailure(ErrorCode::DatabaseBusy) => Reason::InUse,
            Error::SqliteFailure(ErrorCode::NotADatabase) => Reason::NoDatabase,
            Error::SqliteFailure(ErrorCode::DatabaseCorrupt) => Reason::Damaged,
            Error::SqliteFailure(ErrorCode::SystemIoFailure) => Reason::FailingDisk,
            Error::SqliteFailure(ErrorCode::DiskFull) => Reason::FullDisk,
            _ => Reason::Refused,
        }
    }

    /// Returns the reason for an error of the store over a copy in memory. Its files fail only if memory runs out.
    pub fn of_copy(error: &Error) -> Reason
        // Each error has the reason that `of` gives, but a failing or full disk is out of memory.
        ensures { result ≡ reason_of_copy error.now }
    {
        match Reason::of(error) {
            Reason::FailingDisk | Reason::FullDisk => Reason::Memory,
            other => other,
        }
    }

    /// Returns the reason why the system does not open a file.
    pub fn of_file(error: &io::Error) -> Reason
        // An error on opening a file is `NoFile`, `InUse`, `Memory` or else `Refused`.
        ensures { result ≡ reason_of_file (error_kind error.now) }
    {
        match error.kind() {
            ErrorKind::NotFound => Reason::NoFile,
            ErrorKind::WouldBlock => Reason::InUse,
            ErrorKind::OutOfMemory => Reason::Memory,
            _ => Reason::Refused,
        }
    }

    /// Returns the reason why the system does not read a file.
    pub fn of_reading(error: &io::Error) -> Reason
        // An error on reading a file is `Memory`, `Refused` without permission, or else `FailingDisk`.
        ensures { result ≡ reason_of_reading (error_kind error.now) }
    {
        match error.kind() {
            ErrorKind::OutOfMemory => Reason::Memory,
            ErrorKind::PermissionDenied => Reason::Refused,
            _ => Reason::FailingDisk,
        }
    }

    /// Returns the status to end with: 4 for out of memory, else 3.
    pub fn status(self) -> u8
        // The status is 4 for out of memory, and else 3.
        ensures { result ≡ reason_status self }
    {
        match self {
            Reason::Memory => 4,
            _ => 3,
        }
    }

    /// Returns the words for the reason, which end the line that reports it.
    pub fn words(self) -> &'static str
        // The words are the reason's one text.
        ensures { result.now ≡ reason_words self }
    {
        match self {
            Reason::NoFile => "there is no such file",
            Reason::LogName => "its name is that of a log",
            Reason::LogAlone => "its log or its journal is there, and its file is gone or empty",
            Reason::LinkedLog => "its log is a link",
            Reason::ForeignLog => "something else lies in the place of its log or its journal",
            Reason::InUse => "it is in use",
            Reason::NoDatabase => "it is no database that this program reads",
            Reason::OtherKind => "it has auto-vacuum or texts in UTF-16",
            Reason::TwoNames => "its file has a second name, and its log may lie beside that",
            Reason::Journal => "it has a rollback journal, which only sqlite3 rolls back",
            Reason::Damaged => "it is damaged, or the log beside it is of another database",
            Reason::FailingDisk => "the disk failed",
            Reason::FullDisk => "the disk is full",
            Reason::Refused => "the file cannot be opened",
            Reason::Memory => "out of memory",
        }
    }
}

/// Writes the line that reports why a database cannot be opened, and flushes.
pub(crate) fn line_of_reason<W: Write>(out: &mut W, reason: Reason) -> Result<(), Fault>
    // With Ok exactly the line of the reason is written, and else a prefix of it.
    ensures { WritesTo W.contents out.old out.new (reason_line reason) result }
{
    match reason {
        Reason::Memory => line_of_fault(out, Fault::Memory),
        _ => worded(out, "cannot open the database: ", reason.words()),
    }
}
