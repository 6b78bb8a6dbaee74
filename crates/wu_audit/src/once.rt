//! The first place of a table at which a key occurs a second time.

ghost use Rattle.std.specs.Prelude.{◌≡◌, ◌≢◌, ◌<◌, ◌↔◌, false, map, IfOk, IsTrue};
ghost use Rattle.wu_core.specs.declared.workunit.Workunit.{Workunit};
ghost use Rattle.wu_core.specs.declared.workunit.Archived.{Archived};
ghost use Rattle.wu_core.specs.declared.workunit.Grant.{Grant};
ghost use Rattle.wu_audit.specs.Against.{FirstPairAgainst};
ghost use Rattle.wu_audit.specs.Keys.{AreApart, AreKeysOf, AreOtherImports, IsArchivedName, IsBefore, IsImportKey, IsNameOf, granted_instance};

use crate::loaded::Imported;
use std::alloc::{AllocError, Global};
use std::cmp::Ordering;
use std::collections::HashSet;
use std::hash::Hash;
use wu_core::{Archived, Grant, HostClass, Workunit};

/// Returns the place of the first workunit whose number is not above that of the one before it, or `None` if there is
/// none.
pub fn first_out_of_order(workunits: &[Workunit]) -> Option<usize>
    // A place, from 0, is the first whose number is not above an earlier one; `None` means that the
    // numbers rise.
    ensures { FirstPairAgainst (λ one other. one.number < other.number) workunits.now result }
{
    for place in 1..workunits.len() {
        if workunits[place].number <= workunits[place - 1].number {
            return Some(place);
        }
    }
    None
}

/// Returns whether the host's name is before the other's, by its bytes.
fn is_before(one: &HostClass, other: &HostClass) -> bool
    ensures { IsTrue result ↔ IsBefore one.now other.now }
{
    match one.host.as_bytes().cmp(other.host.as_bytes()) {
        Ordering::Less => true,
        _ => false,
    }
}

/// Returns the place of the first host whose name is not above that of the one before it, or `None` if there is none.
pub fn first_class_out_of_order(classes: &[HostClass]) -> Option<usize>
    // A place, from 0, is the first whose host's name is not above an earlier one; `None` means
    // that the names rise.
    ensures { FirstPairAgainst IsBefore classes.now result }
{
    for place in 1..classes.len() {
        if !is_before(&classes[place - 1], &classes[place]) {
            return Some(place);
        }
    }
    None
}

/// Returns the first place whose key is at an earlier place too, or `None` if there is none.
pub fn first_repeat<K: Eq + Hash + Copy + Drop>(
    alloc: Global,
    keys: &[K],
) -> Result<Option<usize>, AllocError>
    // A place, from 0, is the first with the key of an earlier one; `None` means that no two keys
    // are equal.
    ensures { IfOk result (FirstPairAgainst (λ one other. K.eq one other ≡ false) keys.now) }
{
    let mut seen = HashSet::with_capacity(alloc, keys.len())?;
    for (place, key) in keys.iter().enumerate() {
        if !seen.insert(*key)? {
            return Ok(Some(place));
        }
    }
    Ok(None)
}

/// Returns the names of the workunits, in their order.
fn names_of<'a>(alloc: Global, workunits: &'a [Workunit]) -> Result<Vec<&'a str>, AllocError>
    ensures { IfOk result (λ names. AreKeysOf IsNameOf workunits.now names.items) }
{
    workunits
        .iter()
        .map(|workunit| workunit.name.as_str())
        .collect(alloc)
}

/// Returns the place of the first workunit that has the name of an earlier one, or `None` if there is none.
pub fn first_repeated_name(
    alloc: Global,
    workunits: &[Workunit],
) -> Result<Option<usize>, AllocError>
    // A place, from 0, is the first workunit with the name of an earlier one; `None` means that no
    // two names are equal.
    ensures { IfOk result (FirstPairAgainst (λ one other. one.name ≢ other.name) workunits.now) }
{
    let names = names_of(alloc, workunits)?;
    first_repeat(alloc, names.as_slice())
}

/// Returns the numbers of the archived rows, in their order.
pub(crate) fn numbers_of(alloc: Global, archived: &[Archived]) -> Result<Vec<u64>, AllocError>
    // These are the numbers of the archived rows, in their order.
    ensures { IfOk result (λ numbers. numbers.items ≡ map (λ row. row.number) archived.now) }
{
    archived.iter().map(|row| row.number).collect(alloc)
}

/// Returns the place of the first archived row that has the number of an earlier one, or `None` if there is none.
pub fn first_repeated_number(
    alloc: Global,
    archived: &[Archived],
) -> Result<Option<usize>, AllocError>
    // A place, from 0, is the first archived row with the number of an earlier one; `None` means
    // that no two numbers are equal.
    ensures { IfOk result (FirstPairAgainst (λ one other. one.number ≢ other.number) archived.now) }
{
    let numbers = numbers_of(alloc, archived)?;
    first_repeat(alloc, numbers.as_slice())
}

/// Returns the instances that the grants are for, in their order.
pub(crate) fn granted_of(alloc: Global, grants: &[Grant]) -> Result<Vec<(u64, u32)>, AllocError>
    // These are the workunit and the number of each grant's instance, in the order of the grants.
    ensures { IfOk result (λ granted. granted.items ≡ map granted_instance grants.now) }
{
    grants
        .iter()
        .map(|grant| (grant.workunit, grant.n))
        .collect(alloc)
}

/// Returns the place of the first grant for an instance that an earlier one is for, or `None` if there is none.
pub fn first_repeated_grant(alloc: Global, grants: &[Grant]) -> Result<Option<usize>, AllocError>
    // A place, from 0, is the first grant for the instance of an earlier one; `None` means that no
    // two are for one instance.
    ensures { IfOk result (FirstPairAgainst AreApart grants.now) }
{
    let granted = granted_of(alloc, grants)?;
    first_repeat(alloc, granted.as_slice())
}

/// Returns the names of the archived rows, in their order.
pub(crate) fn archived_names_of<'a>(
    alloc: Global,
    archived: &'a [Archived],
) -> Result<Vec<&'a str>, AllocError>
    // These are the names of the archived rows, in their order.
    ensures { IfOk result (λ names. AreKeysOf IsArchivedName archived.now names.items) }
{
    archived.iter().map(|row| row.name.as_str()).collect(alloc)
}

/// Returns the place of the first archived row that has the name of an earlier one, or `None` if there is none.
pub fn first_repeated_archived_name(
    alloc: Global,
    archived: &[Archived],
) -> Result<Option<usize>, AllocError>
    // A place, from 0, is the first archived row with the name of an earlier one; `None` means that
    // no two names are equal.
    ensures { IfOk result (FirstPairAgainst (λ one other. one.name ≢ other.name) archived.now) }
{
    let names = archived_names_of(alloc, archived)?;
    first_repeat(alloc, names.as_slice())
}

/// Returns the kinds and names of the imports, in their order.
fn import_keys_of<'a>(
    alloc: Global,
    imports: &'a [Imported],
) -> Result<Vec<(u32, &'a str)>, AllocError>
    ensures { IfOk result (λ keys. AreKeysOf IsImportKey imports.now keys.items) }
{
    imports
        .iter()
        .map(|import| (import.kind().code(), import.name().as_str()))
        .collect(alloc)
}

/// Returns the place of the first import that has the kind and name of an earlier one, or `None` if there is none.
pub fn first_repeated_import(
    alloc: Global,
    imports: &[Imported],
) -> Result<Option<usize>, AllocError>
    // A place, from 0, is the first import with the kind and name of an earlier one; `None` means
    // that no two have the same.
    ensures { IfOk result (FirstPairAgainst AreOtherImports imports.now) }
{
    let keys = import_keys_of(alloc, imports)?;
    first_repeat(alloc, keys.as_slice())
}
