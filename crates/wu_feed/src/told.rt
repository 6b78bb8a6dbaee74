//! Which fault of a row is reported if it has several: the first from left to right, and out of memory last.

ghost use Rattle.std.specs.Prelude.{◌≡◌};
ghost use Rattle.wu_feed.specs.Told.{at_field, both};

use crate::records::fault_at;
use wu_core::{Fault, FileCause};

/// Returns what was read of a field, or the fault of its row with this cause. Out of memory stays `Memory`.
pub fn at_field<T: Drop>(number: u32, cause: FileCause, read: Result<T, Fault>) -> Result<T, Fault>
    // A value and `Memory` stay; any other fault becomes `BadFile` with this row and cause.
    ensures { result ≡ at_field number cause read }
{
    match read {
        Ok(value) => Ok(value),
        Err(Fault::Memory) => Err(Fault::Memory),
        Err(_) => Err(fault_at(number, cause)),
    }
}

/// Returns both values, or the first fault. Out of memory is reported only if nothing else is wrong.
pub fn both<A: Drop, B: Drop>(
    first: Result<A, Fault>,
    second: Result<B, Fault>,
) -> Result<(A, B), Fault>
    // The result is both values, or the first fault; `Memory` comes after any other fault.
    ensures { result ≡ both first second }
{
    match (first, second) {
        (Ok(first), Ok(second)) => Ok((first, second)),
        (Err(Fault::Memory), Err(fault)) => Err(fault),
        (Err(fault), _) => Err(fault),
        (Ok(_), Err(fault)) => Err(fault),
    }
}
