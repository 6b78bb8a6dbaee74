//! Why a line of a script cannot be run.

ghost use Rattle.std.specs.Prelude.{◌≡◌};
ghost use Rattle.wu_core.specs.declared.fault.Fault.TheVariants as fault;
ghost use Rattle.wu_arguments.specs.declared.refusal.Refusal.TheVariants as why;
ghost use Rattle.wu_arguments.specs.Scripts.{export_asked, repeated_refusal, tried_refusal};
ghost use Rattle.wu_arguments.specs.Statuses.{refusal_status};

use crate::order::Export;
use crate::status::fault_status;
use crate::usage::Usage;
use std::alloc::{AllocError, AllocFailed};
use wu_core::Fault;
use wu_feed::LineCause;

/// What stands in no script.
#[derive(Drop)]
pub enum Outsider {
    Script,
    Session,
    Check,
    /// What is made of a copy of the project. A session makes it, and so does the end of a script.
    Export(Export),
    Lint,
    Explanation,
    Help,
    /// A database of the line's own.
    Database,
}

/// Why a line of a script cannot be run.
pub enum Refusal {
    /// It is not taken apart into words.
    Text(LineCause),
    /// Its words are no line of the command line.
    Words(Usage),
    /// It asks for what stands in no script.
    Outsider(Outsider),
    /// What it repeats is no pass.
    Repeat,
    /// What it tries is no line.
    Try,
    /// It asks for no export, and a line before it does.
    AfterExport,
    /// A value or a file of it is refused.
    Fault(Fault),
}

// It is written out, so that a caller does not prove again how each part is dropped.
impl Drop for Refusal {
    fn drop(self) {
        match self {
            Refusal::Text(_cause) => {}
            Refusal::Words(_usage) => {}
            Refusal::Outsider(_outsider) => {}
            Refusal::Repeat => {}
            Refusal::Try => {}
            Refusal::AfterExport => {}
            Refusal::Fault(_fault) => {}
        }
    }
}

impl From<LineCause> for Refusal {
    ghost from_gives = { λ cause refusal. refusal ≡ why.Text cause };

    fn from(cause: LineCause) -> Refusal {
        Refusal::Text(cause)
    }
}

impl From<Usage> for Refusal {
    ghost from_gives = { λ usage refusal. refusal ≡ why.Words usage };

    fn from(usage: Usage) -> Refusal {
        Refusal::Words(usage)
    }
}

impl From<Fault> for Refusal {
    ghost from_gives = { λ its refusal. refusal ≡ why.Fault its };

    fn from(fault: Fault) -> Refusal {
        Refusal::Fault(fault)
    }
}

impl From<AllocError> for Refusal {
    ghost from_gives = { λ _ refusal. refusal ≡ why.Fault fault.Memory };

    fn from(_error: AllocError) -> Refusal {
        Refusal::Fault(Fault::Memory)
    }
}

impl<T: Drop> From<AllocFailed<T>> for Refusal {
    ghost from_gives = { λ _ refusal. refusal ≡ why.Fault fault.Memory };

    fn from(_error: AllocFailed<T>) -> Refusal {
        Refusal::Fault(Fault::Memory)
    }
}

impl Refusal {
    /// Returns what is to be made of a copy, if the refusal is that a line asks for that; else the refusal.
    pub fn into_export(self) -> Result<Export, Refusal>
        // Only a line that asks for an export has one.
        ensures { result ≡ export_asked self }
    {
        match self {
            Refusal::Outsider(Outsider::Export(export)) => Ok(export),
            why => Err(why),
        }
    }

    /// Returns the refusal of what was to be repeated: an export is no pass.
    pub fn of_repeated(self) -> Refusal
        // An export is refused as what is no pass, and all else as it was.
        ensures { result ≡ repeated_refusal self }
    {
        match self {
            Refusal::Outsider(Outsider::Export(_)) => Refusal::Repeat,
            why => why,
        }
    }

    /// Returns the refusal of what was to be tried: an export is neither a command nor a view.
    pub fn of_tried(self) -> Refusal
        // An export is refused as what cannot be tried, and all else as it was.
        ensures { result ≡ tried_refusal self }
    {
        match self {
            Refusal::Outsider(Outsider::Export(_)) => Refusal::Try,
            why => why,
        }
    }

    /// Returns the status that the program ends with for this refusal.
    pub fn status(&self) -> u8
        // The status is 2, except for out of memory and for a fault, which have their own.
        ensures { result ≡ refusal_status self.now }
    {
        match self {
            Refusal::Text(_) | Refusal::Outsider(_) => 2,
            Refusal::Repeat | Refusal::Try | Refusal::AfterExport => 2,
            Refusal::Words(usage) => usage.status(),
            Refusal::Fault(fault) => fault_status(*fault),
        }
    }
}
