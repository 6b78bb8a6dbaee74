//! Counts over all instances of a workunit, and tests of a workunit by them.

ghost use Rattle.std.specs.Prelude.{◌≡◌, ◌≤◌, filter, length};
ghost use Rattle.wu_core.specs.Limits.{most_instances};
ghost use Rattle.wu_rules.specs.Instances.{is_error, is_in_progress, timed_out};
ghost use Rattle.wu_rules.specs.Counts.{unsent, in_progress, errors, kept, viable, has_active, has_new_success, is_clear, is_undecided};
ghost use Rattle.wu_rules.specs.Transition.{timed};
ghost use Rattle.wu_rules.specs.Validation.{is_to_validate};

use crate::instance::{
    is_active, is_error, is_in_progress, is_kept, is_new, is_overdue, is_unsent, is_viable,
};
use wu_core::{ErrorMask, Instance, Moment, Workunit};

/// Returns whether no bit of the mask is set.
pub fn is_clear(mask: ErrorMask) -> bool
    // The result is true exactly if no bit of the mask is set.
    ensures { result ≡ is_clear mask }
{
    mask.code() == 0
}

/// Returns whether the workunit has no canonical result and no bit of its error mask is set.
pub fn is_undecided(workunit: &Workunit) -> bool
    // The result is true exactly if the workunit has no canonical result and its mask is 0.
    ensures { result ≡ is_undecided workunit.now }
{
    workunit.canonical.is_none() && is_clear(workunit.error_mask)
}

/// Returns the number of unsent instances: at most 100.
pub fn unsent_count(workunit: &Workunit) -> usize
    // The result is the number of unsent instances.
    ensures value { result ≡ unsent workunit.now }
    // There are at most 100.
    ensures within { result ≤ most_instances }
{
    workunit
        .instances
        .iter()
        .filter(|instance| is_unsent(instance))
        .count()
}

/// Returns the number of successes that are not INVALID: at most 100.
pub fn kept_count(workunit: &Workunit) -> usize
    // The result is the number of successes that are not INVALID.
    ensures value { result ≡ kept workunit.now }
    // There are at most 100.
    ensures within { result ≤ most_instances }
{
    workunit
        .instances
        .iter()
        .filter(|instance| is_kept(instance))
        .count()
}

/// Returns the number of successes without a final verdict: at most 100.
pub fn viable_count(workunit: &Workunit) -> usize
    // The result is the number of viable successes: those without a final verdict.
    ensures value { result ≡ length (viable workunit.now) }
    // There are at most 100.
    ensures within { result ≤ most_instances }
{
    workunit
        .instances
        .iter()
        .filter(|instance| is_viable(instance))
        .count()
}

/// Returns whether the instance counts as an error after timeouts. A timeout is no error here, so an overdue instance
/// never counts. A rule that made timeouts errors would change this test as well as `is_error`.
fn is_error_at(instance: &Instance, now: Moment) -> bool
    // The result is true exactly if the instance, after the timeouts of this moment, is an error.
    ensures { result ≡ is_error (timed_out now instance.now) }
{
    !is_overdue(instance, now) && is_error(instance)
}

/// Returns the number of instances that count as errors after timeouts.
fn count_errors(instances: &[Instance], now: Moment) -> usize
    ensures { result ≡ length (filter (λ i. is_error (timed_out now i)) instances.now) }
{
    instances
        .iter()
        .filter(|instance| is_error_at(instance, now))
        .count()
}

/// Returns the number of errors after timeouts.
pub fn error_count(workunit: &Workunit, now: Moment) -> usize
    // The result is the number of errors after the timeouts of this moment.
    ensures { result ≡ errors (timed workunit.now now) }
{
    count_errors(workunit.instances.as_slice(), now)
}

/// Returns whether the instance is in progress after timeouts.
fn is_in_progress_at(instance: &Instance, now: Moment) -> bool
    // The result is true exactly if the instance, after the timeouts of this moment, is in
    // progress.
    ensures { result ≡ is_in_progress (timed_out now instance.now) }
{
    !is_overdue(instance, now) && is_in_progress(instance)
}

/// Returns the number of instances in progress after timeouts.
fn count_in_progress(instances: &[Instance], now: Moment) -> usize
    ensures value { result ≡ length (filter (λ i. is_in_progress (timed_out now i)) instances.now) }
    ensures within { result ≤ length instances.now }
{
    instances
        .iter()
        .filter(|instance| is_in_progress_at(instance, now))
        .count()
}

/// Returns the number of instances in progress after timeouts: at most 100.
pub fn in_progress_count(workunit: &Workunit, now: Moment) -> usize
    // The result is the number of instances in progress after the timeouts of this moment.
    ensures value { result ≡ in_progress (timed workunit.now now) }
    // There are at most 100.
    ensures within { result ≤ most_instances }
{
    count_in_progress(workunit.instances.as_slice(), now)
}

/// Returns whether a success has no verdict yet.
pub fn has_new_success(workunit: &Workunit) -> bool
    // The result is true exactly if a success is new: without any verdict.
    ensures { result ≡ has_new_success workunit.now }
{
    workunit.instances.iter().any(is_new)
}

/// Returns whether an instance is in progress, or a viable success.
pub fn has_active(workunit: &Workunit) -> bool
    // The result is true exactly if an instance is in progress, or a viable success.
    ensures { result ≡ has_active workunit.now }
{
    workunit.instances.iter().any(is_active)
}

/// Returns whether the workunit needs validation. Its error mask is 0, it has a new success, and it has a canonical
/// result already or at least as many viable successes as its quorum.
pub fn wants_validation(workunit: &Workunit) -> bool
    // The result is true exactly if the mask is 0, a success is new, and a canonical result or a
    // quorum of viable successes exists.
    ensures { result ≡ is_to_validate workunit.now }
{
    is_clear(workunit.error_mask)
        && has_new_success(workunit)
        && (workunit.canonical.is_some()
            || viable_count(workunit) >= workunit.params.min_quorum() as usize)
}
