//! What ends a run of the program before all of it is done, with its text and its status.

ghost use Rattle.std.specs.Prelude.{◌≡◌};
ghost use Rattle.wu_core.specs.declared.fault.Fault.TheVariants as fault;
ghost use Rattle.wu_cli.specs.declared.trouble.Trouble.TheVariants as trouble;
ghost use Rattle.wu_cli.specs.Endings.{WritesAll};
ghost use Rattle.wu_cli.specs.Troubles.{trouble_of_opening, trouble_status, trouble_text, unheard};
ghost use Rattle.wu_report.specs.Writing.{WritesTo};
ghost use Rattle.std.specs.IoError.{error_kind};
ghost use Rattle.wu_schema.specs.Faults.{fault_of};

use crate::backup::{Unmade, line_of_unmade};
use crate::findings::line_of_finding;
use crate::linting::{Unread, text_of_unread};
use crate::outputs::{LostOutput, line_of_lost};
use crate::reason::{Reason, line_of_reason};
use crate::texts::{
    line_of_bad_line, line_of_fault, line_of_line_fault, text_of_usage, write_line,
};
use sqlite::Error;
use std::alloc::{AllocError, AllocFailed};
use std::io::{self, ErrorKind, Write};
use wu_arguments::{BadLine, LineFault, UNOPENED, Usage, fault_status};
use wu_check::Finding;
use wu_core::Fault;
use wu_schema::fault_of;

/// The status of a check that finds no sound project.
const UNSOUND: u8 = 1;

/// The status of outputs whose folder is not there.
const NO_FOLDER: u8 = 1;

/// What ends a run of the program before all of it is done.
#[derive(Drop)]
pub enum Trouble {
    /// The words are no command line.
    Usage(Usage),
    /// A line of a script cannot be run.
    BadLine(BadLine),
    /// The database cannot be opened.
    Unopened,
    /// A line, or the file of a script, failed with a fault.
    Fault(Fault),
    /// A line of a script failed with a fault.
    LineFault(LineFault),
    /// The database that was to be checked cannot be opened.
    Unchecked(Reason),
    /// The database that was checked holds no sound project.
    Unsound(Finding),
    /// The file of a backup is not made.
    Unmade(Unmade),
    /// The folder of outputs is not there.
    NoFolder,
    /// The output of an archived workunit has no file.
    Lost(LostOutput),
    /// A file does not read as its import would read it.
    Unread(Unread),
}

impl From<Usage> for Trouble {
    ghost from_gives = { λ usage told. told ≡ trouble.Usage usage };

    fn from(usage: Usage) -> Trouble {
        Trouble::Usage(usage)
    }
}

impl From<BadLine> for Trouble {
    ghost from_gives = { λ bad told. told ≡ trouble.BadLine bad };

    fn from(bad: BadLine) -> Trouble {
        Trouble::BadLine(bad)
    }
}

impl From<Fault> for Trouble {
    ghost from_gives = { λ it told. told ≡ trouble.Fault it };

    fn from(fault: Fault) -> Trouble {
        Trouble::Fault(fault)
    }
}

impl From<LineFault> for Trouble {
    ghost from_gives = { λ end told. told ≡ trouble.LineFault end };

    fn from(end: LineFault) -> Trouble {
        Trouble::LineFault(end)
    }
}

impl From<AllocError> for Trouble {
    ghost from_gives = { λ _ told. told ≡ trouble.Fault fault.Memory };

    fn from(_error: AllocError) -> Trouble {
        Trouble::Fault(Fault::Memory)
    }
}

impl<T: Drop> From<AllocFailed<T>> for Trouble {
    ghost from_gives = { λ _ told. told ≡ trouble.Fault fault.Memory };

    fn from(_error: AllocFailed<T>) -> Trouble {
        Trouble::Fault(Fault::Memory)
    }
}

impl Trouble {
    /// Returns the status that the program ends with: 3 for a database that cannot be opened, 1 for an unsound one.
    /// Refused words and faults have their own.
    pub fn status(&self) -> u8
        // Each trouble has its one status.
        ensures { result ≡ trouble_status self.now }
    {
        match self {
            Trouble::Usage(usage) => usage.status(),
            Trouble::BadLine(bad) => bad.status(),
            Trouble::Unopened => UNOPENED,
            Trouble::Fault(fault) => fault_status(*fault),
            Trouble::LineFault(end) => fault_status(end.fault),
            Trouble::Unchecked(reason) => reason.status(),
            Trouble::Unsound(_) => UNSOUND,
            Trouble::Unmade(why) => why.status(),
            Trouble::NoFolder => NO_FOLDER,
            Trouble::Lost(lost) => lost.why.status(),
            Trouble::Unread(unread) => fault_status(unread.fault),
        }
    }

    /// Writes its text and flushes, without taking memory. Returns whether all of it went out.
    pub fn write<E: Write>(&self, err: &mut E) -> bool
        // With true exactly the text of the trouble went out, and else a prefix of it.
        ensures { WritesAll (E.contents err.old) (E.contents err.new)
            (trouble_text self.now) result }
    {
        match write_trouble(self, err) {
            Ok(()) => true,
            Err(_) => false,
        }
    }
}

/// Writes the text of a trouble, and flushes.
pub(crate) fn write_trouble<E: Write>(trouble: &Trouble, err: &mut E) -> Result<(), Fault>
    // With Ok exactly the text of the trouble is written, and else a prefix of it.
    ensures { WritesTo E.contents err.old err.new (trouble_text trouble.now) result }
{
    match trouble {
        Trouble::Usage(usage) => text_of_usage(err, usage),
        Trouble::BadLine(bad) => line_of_bad_line(err, bad),
        Trouble::Unopened => write_line(err, "cannot open the database"),
        Trouble::Fault(fault) => line_of_fault(err, *fault),
        Trouble::LineFault(end) => line_of_line_fault(err, *end),
        Trouble::Unchecked(reason) => line_of_reason(err, *reason),
        Trouble::Unsound(finding) => line_of_finding(err, finding),
        Trouble::Unmade(why) => line_of_unmade(err, *why),
        Trouble::NoFolder => write_line(err, "cannot write the outputs: there is no such folder"),
        Trouble::Lost(lost) => line_of_lost(err, lost),
        Trouble::Unread(unread) => text_of_unread(err, unread),
    }
}

/// Returns why the words of a process could not be had: out of memory, or they are no UTF-8 text, which ends with status
/// 2. It takes no memory.
pub fn unheard(error: &io::Error) -> Trouble
    // Out of memory is reported as that, and any other error as words that are no text.
    ensures { result ≡ unheard (error_kind error.now) }
{
    match error.kind() {
        ErrorKind::OutOfMemory => Trouble::Fault(Fault::Memory),
        _ => Trouble::Usage(Usage::NotText),
    }
}

/// Returns the trouble of a database that cannot be opened: out of memory, or another cause, which is not named.
pub fn unopened(error: &Error) -> Trouble
    // An error of out of memory is reported as that, and any other as a database that cannot be
    // opened.
    ensures { result ≡ trouble_of_opening (fault_of error.now) }
{
    match fault_of(error) {
        Fault::Memory => Trouble::Fault(Fault::Memory),
        _ => Trouble::Unopened,
    }
}
