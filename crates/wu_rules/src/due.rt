//! For which workunits a pass is due.

ghost use Rattle.std.specs.Prelude.{◌≡◌, ◌≤◌};
ghost use Rattle.wu_core.specs.Limits.{longest_age};
ghost use Rattle.wu_rules.specs.Due.{changes};

use crate::count::wants_validation;
use crate::deleter::wants_deletion;
use crate::purge::purgeable;
use crate::waking::wake_of;
use wu_core::{Assimilate, Moment, Workunit};

/// A pass over the workunits of a project, in BOINC's words.
#[derive(Clone, Copy, PartialEq, Eq)]
pub enum Pass {
    Transition,
    Validate,
    Assimilate,
    Delete,
    Purge,
}

/// Returns whether a transition is due for the workunit at this moment.
fn is_awake(workunit: &Workunit, now: Moment) -> bool
    ensures { result ≡ changes Pass.Transition now 0 workunit.now }
{
    match wake_of(workunit) {
        Some(moment) => moment <= now.seconds(),
        None => false,
    }
}

/// Returns whether the pass is due for the workunit: whether it would change it now. The least age in seconds, at most
/// 365 days, is used by the purge only.
pub fn changes(pass: Pass, now: Moment, min_age: u64, workunit: &Workunit) -> bool
    // The least age is at most 31,536,000 seconds, 365 days.
    requires { min_age ≤ longest_age }
    // The result is true exactly if the pass, at this moment and with this least age, is due for
    // the workunit.
    ensures { result ≡ changes pass now min_age workunit.now }
{
    match pass {
        Pass::Transition => is_awake(workunit, now),
        Pass::Validate => wants_validation(workunit),
        Pass::Assimilate => workunit.assimilate == Assimilate::Ready,
        Pass::Delete => wants_deletion(workunit),
        Pass::Purge => purgeable(workunit, now, min_age),
    }
}
