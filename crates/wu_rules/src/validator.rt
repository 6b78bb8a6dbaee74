//! The validator.

ghost use Rattle.std.specs.Prelude.{◌≡◌, ◌≤◌, ◌<◌, ◌++◌, ◌&&◌, length, filter, bytes_eq, is_none, map, true, IfOk, IfSome, OnOk, OnErr};
ghost use Rattle.std.specs.List.{position_from};
ghost use Rattle.std.specs.Option.{option_to_list};
ghost use Rattle.wu_core.specs.Limits.{most_instances};
ghost use Rattle.wu_core.specs.Reads.{FailsForMemory};
ghost use Rattle.wu_rules.specs.Instances.{is_viable};
ghost use Rattle.wu_rules.specs.Counts.{agreeing, is_agreed, consensus};
ghost use Rattle.wu_rules.specs.Validation.{is_judged_where, is_empty, is_no_result, refused_where, with_refused, output_at, is_deleted_at, verdict, judged, all_judged, agreed_on, doubted, doubted_or_closed, left_open, judged_late, all_judged_late, judged_after, decided, validated_by, validated, grant_of, granted_to, grants_by, grants_by_consensus, grants_after, granted_by, grants};

use crate::change::{close, ready_assimilate};
use crate::count::{viable_count, wants_validation};
use crate::instance::{is_new, is_viable};
use std::alloc::{AllocError, Global};
use wu_core::{Fault, FileDelete, Grant, Instance, Instances, Outcome, ValidateState, Workunit};

/// Returns whether the validator judges the instance: a viable success before the decision, a new one after it.
fn is_judged(instance: &Instance, is_undecided: bool) -> bool
    ensures { result ≡ is_judged_where is_undecided instance.now }
{
    if is_undecided {
        is_viable(instance)
    } else {
        is_new(instance)
    }
}

/// Returns whether the output of the instance has no bytes.
fn is_empty(instance: &Instance) -> bool
    ensures { result ≡ is_empty instance.now.output }
{
    instance.output.is_empty()
}

/// Returns whether the validator judges the instance and refuses it, since its output is empty.
fn is_no_result(instance: &Instance, is_undecided: bool) -> bool
    ensures { result ≡ is_no_result is_undecided instance.now }
{
    is_judged(instance, is_undecided) && is_empty(instance)
}

/// Returns whether the validator judges the instance after empty outputs are refused.
fn is_result(instance: &Instance, is_undecided: bool) -> bool
    ensures { result ≡ is_judged_where is_undecided (refused_where is_undecided instance.now) }
{
    is_judged(instance, is_undecided) && !is_empty(instance)
}

/// Refuses a judged instance with an empty output, as VALIDATE_ERROR and INVALID.
fn refuse(instance: &mut Instance, is_undecided: bool)
    ensures { instance.new ≡ refused_where is_undecided instance.old }
{
    if is_no_result(instance, is_undecided) {
        instance.outcome = Outcome::ValidateError;
        instance.validate_state = ValidateState::Invalid;
    }
}

/// Refuses each judged instance with an empty output, as VALIDATE_ERROR and INVALID.
fn refuse_all(instances: &mut Instances, is_undecided: bool)
    ensures { instances.new ≡ map (refused_where is_undecided) instances.old }
{
    'each: for instance in instances.as_mut_slice() {
        refuse(instance, is_undecided);
    }
}

/// Returns whether the instance has this output, byte for byte.
fn agrees(instance: &Instance, output: &[u8]) -> bool
    ensures { result ≡ bytes_eq instance.now.output output.now }
{
    instance.output.as_slice() == output
}

/// Returns whether the validator judges the instance before the decision, after empty outputs are refused, and whether
/// it has this output.
fn is_result_with(instance: &Instance, output: &[u8]) -> bool
    ensures { result ≡ (is_viable (refused_where true instance.now)
        && bytes_eq instance.now.output output.now) }
{
    is_result(instance, true) && agrees(instance, output)
}

/// Returns how many viable successes have this output after empty outputs are refused.
fn agreeing_count(instances: &[Instance], output: &[u8]) -> usize
    ensures { result ≡ length (filter (λ i. is_viable (refused_where true i)
        && bytes_eq i.output output.now) instances.now) }
{
    instances
        .iter()
        .filter(|instance| is_result_with(instance, output))
        .count()
}

/// Returns whether enough viable successes agree with this one after empty outputs are refused.
#[tactic(auto, using(crate::proofs::Refusing::agreed_of_left))]
fn is_agreed(workunit: &Workunit, instance: &Instance) -> bool
    // The result is true exactly if enough viable successes agree with this one, in the workunit
    // after empty outputs are refused.
    ensures { let left = with_refused true workunit.now in
        result ≡ is_agreed left (refused_where true instance.now) }
{
    let needed = workunit.params.min_quorum() as usize / 2 + 1;
    is_result(instance, true)
        && agreeing_count(workunit.instances.as_slice(), instance.output.as_slice()) >= needed
}

/// Returns the number of the first viable success on which enough agree after empty outputs are refused; otherwise
/// `None`.
fn first_agreed(workunit: &Workunit) -> Option<usize>
    // The result is the first place of an instance that is agreed after empty outputs are refused.
    ensures value { let old = workunit.now in let left = with_refused true old in
        result ≡ position_from (λ i. is_agreed left (refused_where true i)) 0 old.instances }
    // The place is below 100.
    ensures within { IfSome result (λ n. n < most_instances) }
{
    workunit
        .instances
        .iter()
        .position(|instance| is_agreed(workunit, instance))
}

/// Returns the number of the result that is chosen after empty outputs are refused; `None` if there is no consensus.
fn consensus(workunit: &Workunit) -> Option<usize>
    ensures value { result ≡ consensus (with_refused true workunit.now) }
    ensures within { IfSome result (λ n. n < most_instances) }
{
    first_agreed(workunit)
}

/// Returns the output of the instance of this number, or no bytes if there is no such instance.
pub fn output_at(instances: &[Instance], n: usize) -> &[u8]
    // The result is the output of the instance of this number, or no bytes if there is no such
    // instance.
    ensures { result.now ≡ output_at instances.now n }
{
    match instances.get(n) {
        Some(instance) => instance.output.as_slice(),
        None => &[],
    }
}

/// Returns whether the output of the instance of this number was deleted.
fn is_deleted_at(instances: &[Instance], n: usize) -> bool
    ensures { result ≡ is_deleted_at instances.now n }
{
    match instances.get(n) {
        Some(instance) => instance.file_delete == FileDelete::Done,
        None => false,
    }
}

/// Returns the grant of an instance to its host; `None` if it has no host.
fn grant_of(workunit: &Workunit, n: usize, instance: &Instance) -> Result<Option<Grant>, AllocError>
    requires { n < most_instances }
    ensures { IfOk result (λ grant. grant ≡ grant_of workunit.now n instance.now) }
{
    match &instance.host {
        Some(host) => Ok(Some(Grant {
            workunit: workunit.number,
            n: n as u32,
            host: host.copy()?,
            credit: u64::from(workunit.params.credit()),
        })),
        None => Ok(None),
    }
}

/// Returns the grant of an instance that this output makes VALID after empty outputs are refused; otherwise `None`.
fn granted_to(
    workunit: &Workunit,
    output: &[u8],
    n: usize,
    instance: &Instance,
) -> Result<Option<Grant>, AllocError>
    requires { n < most_instances }
    ensures { let left = refused_where (is_none workunit.now.canonical) instance.now in
        IfOk result (λ grant. grant ≡ granted_to workunit.now output.now n left) }
{
    if is_result(instance, workunit.canonical.is_none()) && agrees(instance, output) {
        grant_of(workunit, n, instance)
    } else {
        Ok(None)
    }
}

/// Appends a grant, if there is one.
fn push_some(list: &mut Vec<Grant>, grant: Option<Grant>) -> Result<(), AllocError>
    ensures { OnOk result (list.new.items ≡ list.old.items ++ option_to_list grant) }
{
    if let Some(grant) = grant {
        list.push(grant)?;
    }
    Ok(())
}

/// Returns the grants of the instances that this output makes VALID after empty outputs are refused.
fn grants_by(alloc: Global, workunit: &Workunit, output: &[u8]) -> Result<Vec<Grant>, AllocError>
    ensures { let left = with_refused (is_none workunit.now.canonical) workunit.now in
        IfOk result (λ list. list.items ≡ grants_by left output.now) }
{
    let mut list = Vec::new(alloc);
    'each: for (n, instance) in workunit.instances.as_slice().iter().enumerate() {
        let grant = granted_to(workunit, output, n, instance)?;
        push_some(&mut list, grant)?;
    }
    Ok(list)
}

/// Returns the grants of new successes after the decision for this canonical result, after empty outputs are refused.
fn grants_after(alloc: Global, workunit: &Workunit, n: usize) -> Result<Vec<Grant>, AllocError>
    ensures { let left = with_refused (is_none workunit.now.canonical) workunit.now in
        IfOk result (λ list. list.items ≡ grants_after left n) }
{
    let instances = workunit.instances.as_slice();
    if is_deleted_at(instances, n) {
        Ok(Vec::new(alloc))
    } else {
        grants_by(alloc, workunit, output_at(instances, n))
    }
}

/// Returns the grants by the consensus of an undecided workunit after empty outputs are refused.
fn grants_by_consensus(alloc: Global, workunit: &Workunit) -> Result<Vec<Grant>, AllocError>
    // The workunit has no canonical result.
    requires { is_none workunit.now.canonical ≡ true }
    ensures { let left = with_refused true workunit.now in
        IfOk result (λ list. list.items ≡ grants_by_consensus left) }
{
    match consensus(workunit) {
        Some(n) => grants_by(alloc, workunit, output_at(workunit.instances.as_slice(), n)),
        None => Ok(Vec::new(alloc)),
    }
}

/// Returns the grants that are due if the workunit still needs validation after empty outputs are refused.
fn grants_of_rest(alloc: Global, workunit: &Workunit) -> Result<Vec<Grant>, AllocError>
    // The list has the grants that are due in the workunit after empty outputs are refused.
    ensures { let left = with_refused (is_none workunit.now.canonical) workunit.now in
        IfOk result (λ list. list.items ≡ granted_by left left.canonical) }
{
    match workunit.canonical {
        Some(n) => grants_after(alloc, workunit, n as usize),
        None => grants_by_consensus(alloc, workunit),
    }
}

/// Returns the verdict on an output that equals the canonical one, or differs from it.
fn verdict(is_equal: bool) -> ValidateState
    ensures { result ≡ verdict is_equal }
{
    if is_equal {
        ValidateState::Valid
    } else {
        ValidateState::Invalid
    }
}

/// Gives a viable success its verdict, and closes an unsent instance.
fn judge(instance: &mut Instance, is_equal: bool)
    ensures { instance.new ≡ judged is_equal instance.old }
{
    if is_viable(instance) {
        instance.validate_state = verdict(is_equal);
    } else {
        close(instance);
    }
}

/// Gives a new success after the decision its verdict.
fn judge_late(instance: &mut Instance, is_gone: bool, is_equal: bool)
    ensures { instance.new ≡ judged_late is_gone is_equal instance.old }
{
    if is_new(instance) {
        instance.validate_state = if is_gone {
            ValidateState::TooLate
        } else {
            verdict(is_equal)
        };
    }
}

/// Returns whether the outputs of two instances are equal, byte for byte.
fn agrees_at(instances: &[Instance], k: usize, n: usize) -> bool
    ensures { result ≡ bytes_eq (output_at instances.now k) (output_at instances.now n) }
{
    output_at(instances, k) == output_at(instances, n)
}

/// Gives all viable successes their verdicts by the output of one instance, and closes unsent instances.
fn judge_all(instances: &mut Instances, n: usize)
    ensures { instances.new ≡ all_judged n instances.old }
{
    let slice = instances.as_mut_slice();
    'each: for k in 0..slice.len() {
        let is_equal = agrees_at(slice, k, n);
        judge(&mut slice[k], is_equal);
    }
}

/// Gives all new successes after the decision their verdicts: by the output of one instance, or TOO_LATE if that is
/// deleted.
fn judge_all_late(instances: &mut Instances, n: usize, is_gone: bool)
    ensures { instances.new ≡ all_judged_late is_gone n instances.old }
{
    let slice = instances.as_mut_slice();
    'each: for k in 0..slice.len() {
        let is_equal = agrees_at(slice, k, n);
        judge_late(&mut slice[k], is_gone, is_equal);
    }
}

/// Makes a viable success INCONCLUSIVE.
fn doubt(instance: &mut Instance)
    ensures { instance.new ≡ doubted instance.old }
{
    if is_viable(instance) {
        instance.validate_state = ValidateState::Inconclusive;
    }
}

/// Makes each viable success INCONCLUSIVE.
fn doubt_all(instances: &mut Instances)
    ensures { instances.new ≡ map doubted instances.old }
{
    'each: for instance in instances.as_mut_slice() {
        doubt(instance);
    }
}

/// Makes a viable success INCONCLUSIVE, and closes an unsent instance.
fn doubt_or_close(waiting: &mut Instance)
    ensures { waiting.new ≡ doubted_or_closed waiting.old }
{
    if is_viable(waiting) {
        waiting.validate_state = ValidateState::Inconclusive;
    } else {
        close(waiting);
    }
}

/// Makes each viable success INCONCLUSIVE, and closes each unsent instance.
fn doubt_or_close_all(instances: &mut Instances)
    ensures { instances.new ≡ map doubted_or_closed instances.old }
{
    'each: for instance in instances.as_mut_slice() {
        doubt_or_close(instance);
    }
}

/// Makes the result of this number the canonical one.
fn agree_on(workunit: &mut Workunit, n: usize)
    requires { n < most_instances }
    ensures { workunit.new ≡ agreed_on workunit.old n }
{
    workunit.canonical = Some(n as u32);
    ready_assimilate(&mut workunit.assimilate);
    judge_all(&mut workunit.instances, n);
}

/// Leaves the workunit without a decision. Gives it up if its viable successes are more than `max_success_results`, and
/// otherwise raises a target that they have reached to their number plus one.
fn leave_open(workunit: &mut Workunit)
    ensures { workunit.new ≡ left_open workunit.old }
{
    let successes = viable_count(workunit);
    if successes > workunit.params.max_success_results() as usize {
        workunit.error_mask.too_many_success_results = true;
        doubt_or_close_all(&mut workunit.instances);
        return;
    }
    if successes >= workunit.params.target_nresults() as usize {
        workunit.params = workunit.params.with_target(successes as u32 + 1);
    }
    doubt_all(&mut workunit.instances);
}

/// Gives the new successes after the decision for this canonical result their verdicts.
fn judge_after(workunit: &mut Workunit, n: usize)
    ensures { workunit.new ≡ judged_after workunit.old n }
{
    let is_gone = is_deleted_at(workunit.instances.as_slice(), n);
    judge_all_late(&mut workunit.instances, n, is_gone);
}

/// Decides by the consensus, or leaves the workunit without a decision.
fn decide(workunit: &mut Workunit)
    // Empty outputs of viable successes are refused already.
    requires { with_refused true workunit.old ≡ workunit.old }
    ensures { workunit.new ≡ decided workunit.old (consensus workunit.old) }
{
    match consensus(workunit) {
        Some(n) => agree_on(workunit, n),
        None => leave_open(workunit),
    }
}

/// Decides an undecided workunit by its consensus, or judges the new successes after a decision. Empty outputs were
/// refused before.
fn conclude(workunit: &mut Workunit)
    // Empty outputs of the successes that are judged are refused already.
    requires { with_refused (is_none workunit.old.canonical) workunit.old ≡ workunit.old }
    ensures { workunit.new ≡ validated_by workunit.old workunit.old.canonical }
{
    match workunit.canonical {
        Some(n) => judge_after(workunit, n as usize),
        None => decide(workunit),
    }
}

/// Validates the workunit, and returns its grants. First it refuses the successes that it judges and whose output is
/// empty. If the workunit still needs validation, it then looks for a consensus, or judges the successes after a
/// decision, and grants credit to each that becomes VALID.
///
/// A workunit that needs no validation stays as it was. If out of memory, nothing changes.
#[tactic(auto, unfolding(crate::specs::Validation::validated, crate::specs::Validation::concluded, crate::specs::Validation::grants, crate::specs::Validation::credited))]
pub fn validate(alloc: Global, workunit: &mut Workunit) -> Result<Vec<Grant>, Fault>
    // On success the workunit is the rule's image: empty outputs, quorum, canonical result,
    // verdicts, raised target, success limit, and late results.
    ensures image { OnOk result (workunit.new ≡ validated workunit.old) }
    // The result is exactly the rule's grants, each for an instance that this validation makes
    // VALID.
    ensures grants { IfOk result (λ list. list.items ≡ grants workunit.old) }
    // The only fault is `Memory`.
    ensures fault { FailsForMemory result }
    // On a fault the workunit stays as it was.
    ensures unchanged { OnErr result (workunit.new ≡ workunit.old) }
{
    if !wants_validation(workunit) {
        return Ok(Vec::new(alloc));
    }
    // They are made before anything changes, since there may be no memory for them.
    let list = grants_of_rest(alloc, workunit)?;
    refuse_all(&mut workunit.instances, workunit.canonical.is_none());
    if !wants_validation(workunit) {
        return Ok(Vec::new(alloc));
    }
    conclude(workunit);
    Ok(list)
}
