//! How much a world has.

ghost use Rattle.std.specs.Prelude.{◌≡◌, ◌<◌, ◌^◌, length, sum_by};

use wu_core::Workunit;

/// Returns the number of all instances of these workunits.
pub fn instances_in(workunits: &[Workunit]) -> u64
    // They have less than 2^64 instances.
    requires { sum_by (λ (w : Workunit). length w.instances) workunits.now < 2 ^ 64 }
    // It is the number of all instances of the workunits.
    ensures { result ≡ sum_by (λ (w : Workunit). length w.instances) workunits.now }
{
    workunits
        .iter()
        .map(|workunit| workunit.instances.as_slice().len() as u64)
        .sum()
}
