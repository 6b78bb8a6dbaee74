//! Why a call was refused.

ghost use Rattle.std.specs.Prelude.{◌≡◌, Some};
ghost use Rattle.wu_core.specs.Words.{template_key_word, file_cause_word};
ghost use Rattle.wu_core.specs.declared.fault.Fault.TheVariants.{Memory};

use std::alloc::{AllocError, AllocFailed};
use std::fmt;
use thiserror::Error;

/// A key of a template, or what is wrong with the whole document.
#[derive(Clone, Copy, Debug, PartialEq, Eq)]
pub enum TemplateKey {
    /// The text is too long or no TOML document.
    Document,
    /// A key that no template has.
    Unknown,
    MinQuorum,
    TargetNresults,
    MaxErrorResults,
    MaxTotalResults,
    MaxSuccessResults,
    DelayBound,
    Credit,
}

impl TemplateKey {
    /// Returns the word that a fault's line prints.
    pub fn word(self) -> &'static str
        // The result is the written word of the key, or of what is wrong with the whole document.
        ensures { result.now ≡ template_key_word self }
    {
        match self {
            TemplateKey::Document => "document",
            TemplateKey::Unknown => "unknown",
            TemplateKey::MinQuorum => "min_quorum",
            TemplateKey::TargetNresults => "target_nresults",
            TemplateKey::MaxErrorResults => "max_error_results",
            TemplateKey::MaxTotalResults => "max_total_results",
            TemplateKey::MaxSuccessResults => "max_success_results",
            TemplateKey::DelayBound => "delay_bound",
            TemplateKey::Credit => "credit",
        }
    }
}

impl fmt::Display for TemplateKey {
    // A key prints its written word.
    ghost output = { λ key. Some (template_key_word key) };

    fn fmt<W: fmt::Write>(&self, f: &mut fmt::Formatter<W>) -> fmt::Result {
        f.write_str(TemplateKey::word(*self))
    }
}

/// What is wrong with a file, at its first faulty row.
#[derive(Clone, Copy, Debug, PartialEq, Eq)]
pub enum FileCause {
    /// The program could not read the file.
    Unreadable,
    TooLong,
    Header,
    TooManyRows,
    Fields,
    Name,
    Input,
    Result,
    Host,
    Moment,
    Status,
    Output,
    Class,
}

impl FileCause {
    /// Returns the word that a fault's line prints.
    pub fn word(self) -> &'static str
        // The result is the written word of the cause.
        ensures { result.now ≡ file_cause_word self }
    {
        match self {
            FileCause::Unreadable => "unreadable",
            FileCause::TooLong => "too_long",
            FileCause::Header => "header",
            FileCause::TooManyRows => "too_many_rows",
            FileCause::Fields => "fields",
            FileCause::Name => "name",
            FileCause::Input => "input",
            FileCause::Result => "result",
            FileCause::Host => "host",
            FileCause::Moment => "moment",
            FileCause::Status => "status",
            FileCause::Output => "output",
            FileCause::Class => "class",
        }
    }
}

impl fmt::Display for FileCause {
    // A cause prints its written word.
    ghost output = { λ cause. Some (file_cause_word cause) };

    fn fmt<W: fmt::Write>(&self, f: &mut fmt::Formatter<W>) -> fmt::Result {
        f.write_str(FileCause::word(*self))
    }
}

/// Why a call was refused. Its `Display` is the line that the program prints.
#[derive(Clone, Copy, Debug, PartialEq, Eq, Error)]
pub enum Fault {
    /// A text that should be a name is invalid.
    #[error("F1 BadName")]
    BadName,
    /// A template was refused, with the first key at fault.
    #[error("F2 BadTemplate {0}")]
    BadTemplate(TemplateKey),
    /// A file was refused, with its first faulty row (from 1, the header; 0 for the whole file) and the cause.
    #[error("F3 BadFile {row} {cause}")]
    BadFile { row: u32, cause: FileCause },
    /// This kind and name were imported with other content.
    #[error("F4 NameUsed")]
    NameUsed,
    /// The first row of a readable batch whose workunit name is taken.
    #[error("F5 WorkunitUsed {0}")]
    WorkunitUsed(u32),
    /// With the batch the project would have had more than 1,000,000,000 workunits.
    #[error("F6 TooMany")]
    TooMany,
    /// A text that should be a moment is invalid.
    #[error("F7 BadMoment")]
    BadMoment,
    /// A limit or a least age is out of range.
    #[error("F8 BadLimit")]
    BadLimit,
    /// The workunit to cancel is not present.
    #[error("F9 UnknownWorkunit")]
    UnknownWorkunit,
    /// The workunit to cancel is not undecided.
    #[error("F10 NotOpenToCancel")]
    NotOpenToCancel,
    /// The project has this older schema version, and has to be upgraded first.
    #[error("F11 OldSchema {0}")]
    OldSchema(u64),
    /// The project has this later schema version.
    #[error("F12 NewSchema {0}")]
    NewSchema(u64),
    /// The database is no project, a stored row has an invalid value, or a statement was refused.
    #[error("F13 NotAProject")]
    NotAProject,
    /// Out of memory: a growth of memory was refused.
    #[error("F14 Memory")]
    Memory,
    /// The disk failed, a size is too big, or a commit or a rollback failed.
    #[error("F15 Broken")]
    Broken,
    /// The session has ended.
    #[error("F16 Ended")]
    Ended,
    /// The writer of the output took no more bytes.
    #[error("F17 Output")]
    Output,
}

impl From<AllocError> for Fault {
    // A failed allocation becomes `Memory`.
    ghost from_gives = { λ _ fault. fault ≡ Memory };

    fn from(_error: AllocError) -> Fault {
        Fault::Memory
    }
}

impl<T: Drop> From<AllocFailed<T>> for Fault {
    // A failed allocation becomes `Memory`.
    ghost from_gives = { λ _ fault. fault ≡ Memory };

    fn from(_error: AllocFailed<T>) -> Fault {
        Fault::Memory
    }
}
