//! When a transition is due.

ghost use Rattle.std.specs.Prelude.{◌≡◌, ◌≤◌, min};
ghost use Rattle.std.specs.List.{filter_map, reduce, list_any};
ghost use Rattle.wu_rules.specs.Instances.{is_unsent, is_viable};
ghost use Rattle.wu_rules.specs.Waking.{is_unsettled, has_files_to_ready, is_to_unbind, is_due, overdue_from, wake, is_output_to_ready, has_output_to_ready};

use crate::count::{has_active, is_clear};
use crate::instance::{is_in_progress, is_unsent, is_viable};
use crate::transitioner::{is_all_finished, is_all_over, may_output_go, plan_at_once};
use wu_core::{Assimilate, FileDelete, Instance, Instances, Workunit};

/// Returns whether an instance is unsent.
pub fn has_unsent(instances: &Instances) -> bool
    // It is true exactly where an instance is `UNSENT`.
    ensures { result ≡ list_any is_unsent instances.now }
{
    instances.iter().any(is_unsent)
}

/// Returns whether an instance is a viable success.
fn has_viable(instances: &Instances) -> bool
    ensures { result ≡ list_any is_viable instances.now }
{
    instances.iter().any(is_viable)
}

/// Returns whether a workunit that is given up is not closed yet.
fn is_unsettled(workunit: &Workunit) -> bool
    ensures { result ≡ is_unsettled workunit.now }
{
    !is_clear(workunit.error_mask)
        && (workunit.assimilate == Assimilate::Init
            || has_unsent(&workunit.instances)
            || has_viable(&workunit.instances))
}

/// Returns whether the output of this instance may go and is INIT.
fn is_output_to_ready(
    canonical: Option<u32>,
    is_all_finished: bool,
    n: usize,
    instance: &Instance,
) -> bool
    ensures { result ≡ is_output_to_ready canonical is_all_finished n instance.now }
{
    may_output_go(canonical, is_all_finished, n, instance)
        && instance.file_delete == FileDelete::Init
}

/// Returns whether an output may go that is INIT.
fn has_output_to_ready(instances: &Instances, canonical: Option<u32>) -> bool
    ensures { result ≡ has_output_to_ready canonical instances.now }
{
    let is_all_finished = is_all_finished(instances);
    'each: for (n, instance) in instances.as_slice().iter().enumerate() {
        let is_to_ready = is_output_to_ready(canonical, is_all_finished, n, instance);
        if is_to_ready {
            return true;
        }
    }
    false
}

/// Returns whether, in a workunit that is DONE, a file may go that is INIT.
fn has_files_to_ready(workunit: &Workunit) -> bool
    ensures { result ≡ has_files_to_ready workunit.now }
{
    workunit.assimilate == Assimilate::Done
        && ((is_all_over(&workunit.instances) && workunit.file_delete == FileDelete::Init)
            || has_output_to_ready(&workunit.instances, workunit.canonical))
}

/// Returns whether the workunit has a class though it has no active instance.
fn is_to_unbind(workunit: &Workunit) -> bool
    ensures { result ≡ is_to_unbind workunit.now }
{
    !has_active(workunit) && workunit.class > 0
}

/// Returns whether a transition is due for the workunit before any timeout.
fn is_due(workunit: &Workunit) -> bool
    ensures { result ≡ is_due workunit.now }
{
    let plan = plan_at_once(workunit);
    plan.has_too_many_errors
        || plan.added > 0
        || plan.has_too_many_total
        || is_unsettled(workunit)
        || has_files_to_ready(workunit)
        || is_to_unbind(workunit)
}

/// Returns the first second after the deadline of an instance in progress; `None` for any other instance.
fn overdue_from(instance: &Instance) -> Option<u64>
    ensures { result ≡ overdue_from instance.now }
{
    match instance.deadline {
        Some(deadline) if is_in_progress(instance) => Some(deadline.seconds() + 1),
        _ => None,
    }
}

/// Returns the first second after the first deadline of an instance in progress; `None` if none is in progress.
fn first_overdue(instances: &[Instance]) -> Option<u64>
    ensures { result ≡ reduce min (filter_map overdue_from instances.now) }
{
    instances
        .iter()
        .filter_map(|instance| overdue_from(instance))
        .min()
}

/// Returns the first moment at which a transition is due for the workunit, in seconds. It is 0 if one is due at once,
/// and otherwise a second after the first deadline of an instance in progress. Returns `None` if the workunit waits for
/// nothing.
#[tactic(auto, unfolding(crate::specs::Waking::wake))]
pub fn wake_of(workunit: &Workunit) -> Option<u64>
    // The result is 0 if a transition is due at once, else a second after the first deadline of an
    // instance in progress, or `None`.
    ensures { result ≡ wake workunit.now }
{
    if is_due(workunit) {
        Some(0)
    } else {
        first_overdue(workunit.instances.as_slice())
    }
}
