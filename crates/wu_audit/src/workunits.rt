//! Whether a workunit is well formed, can be stored, and is consistent.

ghost use Rattle.std.specs.Prelude.{◌≡◌, ◌≢◌, ◌↔◌, ◌<◌, ◌≤◌, ◌&&◌, ℕ, true, false, IsTrue, IfSome, IfNone, Some, All, length, slice_get, is_some, is_none};
ghost use Rattle.std.specs.List.{list_any};
ghost use Rattle.wu_core.specs.Formed.{IsInstance, IsWorkunit};
ghost use Rattle.wu_core.specs.Parameters.{IsParameters};
ghost use Rattle.wu_core.specs.Storable.{HasItsInstances, IsStorable, IsStoredInstance, IsStoredWorkunit, IsMoment, IsPlace, AreStoredInstances, bare};
ghost use Rattle.wu_core.specs.declared.states.Assimilate.TheVariants as assimilate;
ghost use Rattle.wu_rules.specs.Consistent.{IsConsistent, IsPossible};
ghost use Rattle.wu_rules.specs.Counts.{is_clear};
ghost use Rattle.wu_rules.specs.Instances.{is_unsent};
ghost use Rattle.wu_audit.specs.Parts.{IsCanonicalPlace, IsCanonicalValid, IsClasslessUnsent, IsDoneWithMoment, IsInOneState, IsSettable, IsValidSuccess};

use crate::instances::{is_formed_instance, is_possible_instance, is_stored_instance};
use wu_core::{
    Assimilate, FileDelete, HIGHEST_CLASS, Instance, Instances, LONGEST_INPUT, Moment, Params,
    ValidateState, Workunit,
};
use wu_rules::{has_unsent, is_clear, is_success, is_undecided};

/// Makes known that the parameters of a workunit are in their ranges.
fn know_parameters(params: Params)
    ensures { IsParameters params }
{
    params.min_quorum();
    params.target_nresults();
    params.max_error_results();
    params.max_total_results();
    params.max_success_results();
    params.delay_bound();
    params.credit();
}

/// Returns whether each instance is well formed.
fn is_all_formed(instances: &Instances) -> bool
    ensures { IsTrue result ↔ All IsInstance instances.now }
{
    instances
        .iter()
        .all(|instance| is_formed_instance(instance))
}

/// Makes known that the moment of a workunit is in its range.
fn know_moment(done_at: Option<Moment>)
    ensures { IsMoment done_at }
{
    if let Some(done_at) = done_at {
        done_at.seconds();
    }
}

/// Returns whether the workunit has a moment exactly where it is assimilated.
fn is_stamped(workunit: &Workunit) -> bool
    ensures { IsTrue result ↔ IsDoneWithMoment workunit.now }
{
    (workunit.assimilate == Assimilate::Done) == workunit.done_at.is_some()
}

/// Returns whether the workunit is well formed.
pub fn is_formed_workunit(workunit: &Workunit) -> bool
    // It is true exactly for a well-formed workunit: parameters in range, well-formed instances
    // within their number, canonical one there, moment exactly if assimilated.
    ensures { IsTrue result ↔ IsWorkunit workunit.now }
{
    know_parameters(workunit.params);
    is_all_formed(&workunit.instances) && workunit.has_its_instances() && is_stamped(workunit)
}

/// Returns whether a row of an instance may represent each instance.
fn is_all_stored(instances: &Instances) -> bool
    ensures { IsTrue result ↔ AreStoredInstances instances.now }
{
    instances
        .iter()
        .all(|instance| is_stored_instance(instance))
}

/// Makes known that a number of an instance fits into 32 bits.
pub(crate) fn know_place(place: Option<u32>)
    // The number, if there is one, is below 2^32.
    ensures { IsPlace place }
{
    if let Some(n) = place {
        let _n = n;
    }
}

/// Returns whether the values of the workunit, except its instances and its class, are in their ranges.
fn is_stored_workunit(workunit: &Workunit) -> bool
    ensures { IsTrue result ↔ IsStoredWorkunit (bare workunit.now) }
{
    workunit.name.as_bytes();
    know_parameters(workunit.params);
    know_place(workunit.canonical);
    know_moment(workunit.done_at);
    workunit.input.len() <= LONGEST_INPUT && is_stamped(workunit)
}

/// Returns whether the values of the workunit and of its instances are in their ranges, and it has its instances.
pub fn is_storable_workunit(workunit: &Workunit) -> bool
    // It is true exactly where number, values, class and instances are in their ranges and the
    // workunit has its instances.
    ensures { IsTrue result ↔ IsStorable workunit.now }
{
    workunit.number <= i64::MAX as u64
        && is_stored_workunit(workunit)
        && workunit.class <= HIGHEST_CLASS
        && is_all_stored(&workunit.instances)
        && workunit.has_its_instances()
}

/// Returns whether each instance is in a state that this project sets.
fn is_all_possible(instances: &Instances) -> bool
    ensures { IsTrue result ↔ All IsPossible instances.now }
{
    instances
        .iter()
        .all(|instance| is_possible_instance(instance))
}

/// Returns whether the instance is a success that was found valid.
fn is_valid_success(instance: &Instance) -> bool
    ensures { IsTrue result ↔ IsValidSuccess instance.now }
{
    is_success(instance) && instance.validate_state == ValidateState::Valid
}

/// Returns whether the canonical instance, if there is one, is a success that was found valid.
fn is_canonical_valid(workunit: &Workunit) -> bool
    ensures { IsTrue result ↔ IsCanonicalValid workunit.now }
{
    let Some(n) = workunit.canonical else {
        return true;
    };
    match workunit.instances.as_slice().get(n as usize) {
        Some(instance) => is_valid_success(instance),
        None => true,
    }
}

/// Returns whether an instance has a host.
fn has_hosted(instances: &Instances) -> bool
    ensures { result ≡ list_any (λ i. is_some i.host) instances.now }
{
    instances.iter().any(|instance| instance.host.is_some())
}

/// Returns whether the workunit has no class where no instance of it has a host.
fn is_classless_unsent(workunit: &Workunit) -> bool
    ensures { IsTrue result ↔ IsClasslessUnsent workunit.now }
{
    workunit.class == 0 || has_hosted(&workunit.instances)
}

/// Returns whether the workunit has only states that this project sets.
fn is_settable(workunit: &Workunit) -> bool
    ensures { IsTrue result ↔ IsSettable workunit.now }
{
    is_all_possible(&workunit.instances)
        && workunit.file_delete != FileDelete::Error
        && !workunit.error_mask.couldnt_send_result
        && !workunit.error_mask.no_canonical_result
        && is_classless_unsent(workunit)
}

/// Returns whether the workunit is undecided, given up or decided, and not two of them.
fn is_in_one_state(workunit: &Workunit) -> bool
    ensures { IsTrue result ↔ IsInOneState workunit.now }
{
    if is_undecided(workunit) {
        workunit.assimilate == Assimilate::Init
    } else {
        let is_given_up = !is_clear(workunit.error_mask);
        !(is_given_up && workunit.canonical.is_some()) && !has_unsent(&workunit.instances)
    }
}

/// Returns whether the states and verdicts of the workunit agree.
pub fn is_consistent_workunit(workunit: &Workunit) -> bool
    // It is true exactly for a consistent workunit: possible states, one of undecided, given up and
    // decided, and a valid canonical result.
    ensures { IsTrue result ↔ IsConsistent workunit.now }
{
    is_settable(workunit) && is_in_one_state(workunit) && is_canonical_valid(workunit)
}
