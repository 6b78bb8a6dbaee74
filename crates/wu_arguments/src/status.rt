//! The status of the program.

ghost use Rattle.std.specs.Prelude.{◌≡◌};
ghost use Rattle.wu_arguments.specs.Statuses.{fault_status, exit_status, usage_status};

use crate::usage::Usage;
use wu_core::Fault;

/// The status of a database that could not be opened.
pub const UNOPENED: u8 = 3;

/// Returns the status that the program ends with after a fault.
pub fn fault_status(fault: Fault) -> u8
    // The status is 4 for out of memory, 3 for a failed database or an ended session, 5 for the
    // output, and else 1.
    ensures { result ≡ fault_status fault }
{
    match fault {
        Fault::Memory => 4,
        Fault::Broken | Fault::Ended => 3,
        Fault::Output => 5,
        _ => 1,
    }
}

/// Returns the status that the program ends with: 0 without a fault.
pub fn exit_status(end: Option<Fault>) -> u8
    // The status is 0 without a fault, and else that of the fault.
    ensures { result ≡ exit_status end }
{
    match end {
        None => 0,
        Some(fault) => fault_status(fault),
    }
}

impl Usage {
    /// Returns the status that the program ends with where the words are no command line.
    pub fn status(&self) -> u8
        // The status is 2, except 4 for out of memory.
        ensures { result ≡ usage_status self.now }
    {
        match self {
            Usage::Memory => fault_status(Fault::Memory),
            _ => 2,
        }
    }
}
