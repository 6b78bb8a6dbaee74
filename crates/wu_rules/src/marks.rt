//! The marks by which each pass selects a workunit, at any moment.

ghost use Rattle.std.specs.Prelude.{◌≡◌};
ghost use Rattle.wu_rules.specs.Marks.{is_through, marks, purge_from};

use crate::count::wants_validation;
use crate::deleter::wants_deletion;
use crate::purge::is_all_spent;
use crate::waking::wake_of;
use wu_core::{Assimilate, FileDelete, Marks, Moment, Workunit};

/// Returns whether the workunit is DONE, all its instances are over, and its input and outputs are deleted.
fn is_through(workunit: &Workunit) -> bool
    ensures { result ≡ is_through workunit.now }
{
    workunit.assimilate == Assimilate::Done
        && workunit.file_delete == FileDelete::Done
        && is_all_spent(&workunit.instances)
}

/// Returns when a workunit that waits only for its purge was assimilated; otherwise `None`.
fn purge_from(workunit: &Workunit) -> Option<Moment>
    ensures { result ≡ purge_from workunit.now }
{
    if is_through(workunit) {
        workunit.done_at
    } else {
        None
    }
}

/// Returns the marks by which each pass selects the workunit.
#[tactic(auto, unfolding(crate::specs::Marks::marks))]
pub fn marks_of(workunit: &Workunit) -> Marks
    // The marks are when a transition is due, whether each other pass is, and when a workunit that
    // waits only for its purge was assimilated.
    ensures { result ≡ marks workunit.now }
{
    Marks {
        wake: wake_of(workunit),
        to_validate: wants_validation(workunit),
        to_assimilate: workunit.assimilate == Assimilate::Ready,
        to_delete: wants_deletion(workunit),
        purge_from: purge_from(workunit),
    }
}
