//! The transitioner.

ghost use Rattle.std.specs.Prelude.{◌≡◌, ◌+◌, ◌≤◌, ◌||◌, length, OnOk, OnErr};
ghost use Rattle.std.specs.List.{list_all};
ghost use Rattle.wu_core.specs.Limits.{most_instances};
ghost use Rattle.wu_core.specs.Reads.{FailsForMemory};
ghost use Rattle.wu_rules.specs.Instances.{is_over, readied_file, output_readied};
ghost use Rattle.wu_rules.specs.Transition.{timed, has_too_many_errors, is_open, needed, allowed, added, is_idle, has_too_many_total, extended, settled, is_finished, may_output_go, outputs_readied, readied, unbound, transitioned};

use crate::change::{give_up_all, ready_assimilate, time_out_all};
use crate::count::{
    error_count, has_active, in_progress_count, is_clear, is_undecided, kept_count, unsent_count,
    wants_validation,
};
use crate::instance::{is_over, is_viable};
use std::alloc::Global;
use wu_core::{Assimilate, ErrorMask, Fault, FileDelete, Instance, Instances, Moment, Workunit};

/// What a transition does with the bits of a workunit's mask and with new instances, after timeouts.
#[derive(Clone, Copy, PartialEq, Eq)]
pub struct TransitionPlan {
    pub has_too_many_errors: bool,
    pub has_too_many_total: bool,
    pub added: usize,
}

/// Returns how many results are still needed after timeouts.
fn needed_count(workunit: &Workunit, now: Moment) -> usize
    ensures { result ≡ needed (timed workunit.now now) }
{
    let awaited = unsent_count(workunit) + in_progress_count(workunit, now) + kept_count(workunit);
    (workunit.params.target_nresults() as usize).saturating_sub(awaited)
}

/// Returns how many instances may still be made.
fn allowed_count(workunit: &Workunit) -> usize
    ensures value { result ≡ allowed workunit.now }
    ensures room { length workunit.now.instances + result ≤ most_instances }
{
    (workunit.params.max_total_results() as usize).saturating_sub(workunit.instances.len())
}

#[tactic(auto, using(crate::proofs::Timing::timings))]
/// Returns whether, after timeouts, no instance is unsent or in progress and the workunit needs no validation.
fn is_idle(workunit: &Workunit, now: Moment) -> bool
    ensures { result ≡ is_idle (timed workunit.now now) }
{
    unsent_count(workunit) == 0
        && in_progress_count(workunit, now) == 0
        && !wants_validation(workunit)
}

/// Returns what a transition at this moment does with the bits of the mask and with new instances.
pub fn plan_of(workunit: &Workunit, now: Moment) -> TransitionPlan
    // `has_too_many_errors` is true exactly if, after timeouts, an undecided workunit has more
    // errors than `max_error_results`.
    ensures errors { result.has_too_many_errors ≡ has_too_many_errors (timed workunit.now now) }
    // `has_too_many_total` is true exactly if, after timeouts, an undecided workunit with allowed
    // errors needs instances, may have none, and waits for nothing.
    ensures total { result.has_too_many_total ≡ has_too_many_total (timed workunit.now now) }
    // `added` is the lesser of the needed and the allowed instances after timeouts, of an undecided
    // workunit with allowed errors, and else 0.
    ensures added { result.added ≡ added (timed workunit.now now) }
    // There are at most 100 instances with the new ones.
    ensures room { length workunit.now.instances + result.added ≤ most_instances }
{
    let is_undecided = is_undecided(workunit);
    let has_too_many_errors = error_count(workunit, now)
        > workunit.params.max_error_results() as usize;
    let is_open = is_undecided && !has_too_many_errors;
    let needed = needed_count(workunit, now);
    let allowed = allowed_count(workunit);
    TransitionPlan {
        has_too_many_errors: is_undecided && has_too_many_errors,
        has_too_many_total: is_open && needed > 0 && allowed == 0 && is_idle(workunit, now),
        added: if is_open { needed.min(allowed) } else { 0 },
    }
}

/// Returns what a transition does with the bits of the mask and with new instances before any timeout.
pub fn plan_at_once(workunit: &Workunit) -> TransitionPlan
    // `has_too_many_errors` is true exactly if an undecided workunit has more errors than
    // `max_error_results`.
    ensures errors { result.has_too_many_errors ≡ has_too_many_errors workunit.now }
    // `has_too_many_total` is true exactly if an undecided workunit with allowed errors needs
    // instances, may have none, and waits for nothing.
    ensures total { result.has_too_many_total ≡ has_too_many_total workunit.now }
    // `added` is the lesser of the needed and the allowed instances, of an undecided workunit with
    // allowed errors, and else 0.
    ensures added { result.added ≡ added workunit.now }
{
    plan_of(workunit, Moment::first())
}

/// Sets the new bits of the mask.
fn mark(mask: &mut ErrorMask, plan: TransitionPlan)
    // A bit is set exactly if it was, or the plan sets it; the other bits stay.
    ensures { mask.new ≡ record mask.old {
      too_many_error_results = mask.old.too_many_error_results || plan.has_too_many_errors;
      too_many_total_results = mask.old.too_many_total_results || plan.has_too_many_total;
    } }
{
    if plan.has_too_many_errors {
        mask.too_many_error_results = true;
    }
    if plan.has_too_many_total {
        mask.too_many_total_results = true;
    }
}

/// Ends overdue instances, makes the new instances and sets the new bits. If out of memory, nothing changes.
fn extend(alloc: Global, workunit: &mut Workunit, now: Moment) -> Result<(), Fault>
    ensures ok { OnOk result (workunit.new ≡ extended (timed workunit.old now)) }
    ensures fault { FailsForMemory result }
    ensures unchanged { OnErr result (workunit.new ≡ workunit.old) }
{
    let plan = plan_of(workunit, now);
    workunit.instances.add_unsent(alloc, plan.added)?;
    time_out_all(&mut workunit.instances, now);
    mark(&mut workunit.error_mask, plan);
    Ok(())
}

/// Ends what a workunit that is given up still waits for, and makes it READY for assimilation.
fn settle(workunit: &mut Workunit)
    ensures { workunit.new ≡ settled workunit.old }
{
    if !is_clear(workunit.error_mask) {
        ready_assimilate(&mut workunit.assimilate);
        give_up_all(&mut workunit.instances);
    }
}

/// Returns whether the instance is over and has nothing left to validate.
pub fn is_finished(instance: &Instance) -> bool
    // The result is true exactly if the instance is over and not a viable success.
    ensures { result ≡ is_finished instance.now }
{
    is_over(instance) && !is_viable(instance)
}

/// Returns whether the output of an instance may be deleted.
pub fn may_output_go(
    canonical: Option<u32>,
    is_all_finished: bool,
    n: usize,
    instance: &Instance,
) -> bool
    // The canonical output may be deleted if all instances are finished, and any other if its own
    // instance is.
    ensures { result ≡ may_output_go canonical is_all_finished n instance.now }
{
    match canonical {
        Some(canonical) if canonical as usize == n => is_all_finished,
        _ => is_finished(instance),
    }
}

/// Marks a file as READY for deletion, if it may go and is INIT.
fn ready_file(file_delete: &mut FileDelete, may_go: bool)
    ensures { file_delete.new ≡ readied_file may_go file_delete.old }
{
    if may_go && *file_delete == FileDelete::Init {
        *file_delete = FileDelete::Ready;
    }
}

/// Marks the output of an instance as READY for deletion, if it may go and is INIT.
fn ready_output(instance: &mut Instance, may_go: bool)
    ensures { instance.new ≡ output_readied may_go instance.old }
{
    ready_file(&mut instance.file_delete, may_go);
}

/// Returns whether all instances are finished: over, with nothing left to validate.
pub fn is_all_finished(instances: &Instances) -> bool
    // The result is true exactly if each instance is over and not a viable success.
    ensures { result ≡ list_all is_finished instances.now }
{
    instances.iter().all(is_finished)
}

/// Returns whether all instances are over.
pub fn is_all_over(instances: &Instances) -> bool
    // The result is true exactly if each instance is over.
    ensures { result ≡ list_all is_over instances.now }
{
    instances.iter().all(is_over)
}

/// Marks the outputs that may go as READY for deletion.
fn ready_outputs(instances: &mut Instances, canonical: Option<u32>)
    ensures { instances.new ≡ outputs_readied canonical instances.old }
{
    let is_all_finished = is_all_finished(instances);
    'each: for (n, instance) in instances.as_mut_slice().iter_mut().enumerate() {
        let may_go = may_output_go(canonical, is_all_finished, n, instance);
        ready_output(instance, may_go);
    }
}

/// Marks the input and the outputs that may go as READY for deletion, if the workunit is DONE.
fn ready(workunit: &mut Workunit)
    ensures { workunit.new ≡ readied workunit.old }
{
    if workunit.assimilate == Assimilate::Done {
        let is_all_over = is_all_over(&workunit.instances);
        ready_file(&mut workunit.file_delete, is_all_over);
        ready_outputs(&mut workunit.instances, workunit.canonical);
    }
}

/// Sets the class of a workunit without an active instance to 0.
fn unbind(workunit: &mut Workunit)
    ensures { workunit.new ≡ unbound workunit.old }
{
    if !has_active(workunit) {
        workunit.class = 0;
    }
}

/// Ends overdue instances, gives up a workunit at its limits, and makes the instances that are needed. Closes a
/// workunit that is given up, marks files for deletion, and sets the class of an inactive workunit to 0. If out of
/// memory, nothing changes.
#[tactic(auto, unfolding(crate::specs::Transition::transitioned))]
pub fn transition(alloc: Global, workunit: &mut Workunit, now: Moment) -> Result<(), Fault>
    // On success the workunit is the rule's image: timeouts, limits, new instances, closing, files
    // to delete, and class.
    ensures ok { OnOk result (workunit.new ≡ transitioned workunit.old now) }
    // The only fault is `Memory`.
    ensures fault { FailsForMemory result }
    // On a fault the workunit stays as it was.
    ensures unchanged { OnErr result (workunit.new ≡ workunit.old) }
{
    extend(alloc, workunit, now)?;
    settle(workunit);
    ready(workunit);
    unbind(workunit);
    Ok(())
}
