//! Cancelling a workunit.

ghost use Rattle.std.specs.Prelude.{◌≡◌, true, false, IfErr, OnOk, OnErr};
ghost use Rattle.wu_core.specs.declared.fault.Fault.TheVariants.{NotOpenToCancel};
ghost use Rattle.wu_rules.specs.Cancelling.{cancelled};
ghost use Rattle.wu_rules.specs.Counts.{is_undecided};

use crate::change::close_all;
use crate::count::is_undecided;
use wu_core::{Fault, Workunit};

/// Gives up an undecided workunit, and closes its unsent instances. Any other workunit is refused as `NotOpenToCancel`,
/// and stays as it was.
#[tactic(auto, unfolding(crate::specs::Cancelling::cancelled))]
pub fn cancel(workunit: &mut Workunit) -> Result<(), Fault>
    // A cancel succeeds only for an undecided workunit.
    ensures undecided { OnOk result (is_undecided workunit.old ≡ true) }
    // On success the mask has the bit of a cancel, unsent instances are closed, and nothing else
    // changes.
    ensures image { OnOk result (workunit.new ≡ cancelled workunit.old) }
    // The only fault is `NotOpenToCancel`.
    ensures fault { IfErr result (λ fault. fault ≡ NotOpenToCancel) }
    // A workunit that is refused was decided or given up.
    ensures refused { OnErr result (is_undecided workunit.old ≡ false) }
    // On a fault the workunit stays as it was.
    ensures unchanged { OnErr result (workunit.new ≡ workunit.old) }
{
    if !is_undecided(workunit) {
        return Err(Fault::NotOpenToCancel);
    }
    workunit.error_mask.cancelled = true;
    close_all(&mut workunit.instances);
    Ok(())
}
