//! What grants come to for each host.

ghost use Rattle.std.specs.Prelude.{◌≡◌, ◌++◌, [], ◌∷◌, false, map, IfErr, IfOk, IsTrue};
ghost use Rattle.std.specs.Cmp.Lexicographic.{slice_cmp};
ghost use Rattle.std.specs.List.Sorted.{IsPermutation, IsSorted};
ghost use Rattle.std.specs.Ordering.{nat_cmp};
ghost use Rattle.wu_core.specs.Reads.{OkOrWantsMemory};
ghost use Rattle.wu_core.specs.declared.fault.Fault.TheVariants.{Memory};
ghost use Rattle.wu_plans.specs.Summing.{sum_of, with_more, AreFew, PassTogether, SumsAlso};
ghost use Rattle.wu_store.specs.Sums.{AreSums};

use std::alloc::{AllocError, Global};
use wu_core::{Fault, Grant};
use wu_schema::rows::HostSum;

/// Returns references to the grants, in their order.
fn references_to<'a>(alloc: Global, grants: &'a [Grant]) -> Result<Vec<&'a Grant>, AllocError>
    ensures { IfOk result (λ all. map (λ grant. grant.now) all.items ≡ grants.now) }
{
    grants.iter().collect(alloc)
}

/// Returns the grants in order of their hosts' names: those to one host stand together.
fn by_hosts<'a>(alloc: Global, grants: &'a [Grant]) -> Result<Vec<&'a Grant>, Fault>
    ensures same { IfOk result (λ sorted.
        IsPermutation grants.now (map (λ grant. grant.now) sorted.items)) }
    ensures sorted { IfOk result (λ sorted.
        IsSorted (λ one other. slice_cmp nat_cmp one.now.host other.now.host) sorted.items) }
    ensures fault { IfErr result (λ fault. fault ≡ Memory) }
{
    let mut sorted = references_to(alloc, grants)?;
    sorted.sort_by(|one, other| one.host.as_str().cmp(other.host.as_str()))?;
    Ok(sorted)
}

/// Returns the sum of one grant.
fn sum_of(grant: &Grant) -> Result<HostSum, Fault>
    ensures { OkOrWantsMemory result (λ sum. sum ≡ sum_of grant.now) }
{
    Ok(HostSum {
        name: grant.host.copy()?,
        total: grant.credit,
        grants: 1,
    })
}

/// Begins a sum with a grant, after the others.
fn begin(sums: &mut Vec<HostSum>, grant: &Grant) -> Result<(), Fault>
    ensures { OkOrWantsMemory result
        (λ _. sums.new.items ≡ sums.old.items ++ sum_of grant.now ∷ []) }
{
    sums.push(sum_of(grant)?)?;
    Ok(())
}

/// Adds a grant to a sum, if it is to the same host and neither number passes 64 bits. Returns whether it did.
fn grow(sum: &mut HostSum, grant: &Grant) -> bool
    ensures host { IsTrue result → sum.old.name ≡ grant.now.host }
    ensures grown { IsTrue result → sum.new ≡ with_more grant.now sum.old }
    ensures left { result ≡ false → sum.new ≡ sum.old }
    ensures full { result ≡ false → sum.old.name ≡ grant.now.host
        → PassTogether sum.old (sum_of grant.now) }
{
    if sum.name != grant.host {
        return false;
    }
    let Some(total) = sum.total.checked_add(grant.credit) else {
        return false;
    };
    let Some(grants) = sum.grants.checked_add(1) else {
        return false;
    };
    sum.total = total;
    sum.grants = grants;
    true
}

/// Adds a grant to the last of these sums, or after them where it is to another host or would not fit.
fn add(sums: &mut Vec<HostSum>, grant: &Grant) -> Result<(), Fault>
    ensures { OkOrWantsMemory result (λ _. SumsAlso grant.now sums.old.items sums.new.items) }
{
    let Some(mut last) = sums.pop() else {
        return begin(sums, grant);
    };
    let grown = grow(&mut last, grant);
    sums.push(last)?;
    if grown {
        return Ok(());
    }
    begin(sums, grant)
}

/// Returns the sums of these grants: one for each host, except that one which would pass 64 bits is begun again.
pub fn sums_of(alloc: Global, grants: &[Grant]) -> Result<Vec<HostSum>, Fault>
    // The sums have the total and the number of the grants of each host.
    ensures sums { IfOk result (λ sums. AreSums sums.items grants.now) }
    // There is one sum a host, except where two would pass 64 bits together.
    ensures few { IfOk result (λ sums. AreFew sums.items) }
    // The only fault is `Memory`.
    ensures fault { IfErr result (λ fault. fault ≡ Memory) }
{
    let sorted = by_hosts(alloc, grants)?;
    let ordered = sorted.as_slice();
    let mut sums = Vec::new(alloc);
    for grant in ordered {
        add(&mut sums, grant)?;
    }
    Ok(sums)
}
