//! The first workunit without a grant or an archived row that it needs, or with the name of an archived one.

ghost use Rattle.std.specs.Prelude.{◌≡◌, ◌↔◌, ◌<◌, IsTrue, IfOk};
ghost use Rattle.std.specs.HashSet.{contains};
ghost use Rattle.std.specs.Set.{is_member};
ghost use Rattle.wu_audit.specs.Against.{FirstAgainst};
ghost use Rattle.wu_audit.specs.Records.{IsGranted, IsArchivedIfDone, IsNameFree};
ghost use Rattle.wu_audit.specs.Sets.{AreValidHeld, IsHeldIfDone, IsHeldIfValid, IsNotHeldUnlessDone};

use crate::against::first_against;
use crate::once::{archived_names_of, granted_of, numbers_of};
use std::alloc::{AllocError, Global};
use std::collections::HashSet;
use std::hash::Hash;
use wu_core::{Archived, Assimilate, Grant, ValidateState, Workunit};

/// Returns the set of the keys.
fn set_of<K: Eq + Hash + Copy + Drop>(alloc: Global, keys: &[K]) -> Result<HashSet<K>, AllocError>
    ensures { IfOk result (λ set. (q : K) → contains K.eq set q ≡ is_member K.eq keys.now q) }
{
    keys.iter().copied().collect(alloc)
}

/// Returns whether the instance of this number is in the set, if its verdict is VALID.
fn is_held_if_valid(
    granted: &HashSet<(u64, u32)>,
    number: u64,
    n: u32,
    verdict: ValidateState,
) -> bool
    ensures { IsTrue result ↔ IsHeldIfValid granted.now number n verdict }
{
    verdict != ValidateState::Valid || granted.contains(&(number, n))
}

/// Returns whether each valid instance of the workunit is in the set.
fn are_valid_held(granted: &HashSet<(u64, u32)>, workunit: &Workunit) -> bool
    ensures { IsTrue result ↔ AreValidHeld granted.now workunit.now }
{
    workunit.instances.iter().enumerate().all(|(n, instance)| {
        is_held_if_valid(granted, workunit.number, n as u32, instance.validate_state)
    })
}

/// Returns the place of the first workunit with a VALID instance that is not in the set, or `None` if there is none.
fn first_with_valid_unheld(granted: &HashSet<(u64, u32)>, workunits: &[Workunit]) -> Option<usize>
    ensures { FirstAgainst (AreValidHeld granted.now) workunits.now result }
{
    first_against(workunits, |workunit| are_valid_held(granted, workunit))
}

/// Returns the place of the first workunit with a VALID instance that has no grant, or `None` if there is none.
pub fn first_ungranted(
    alloc: Global,
    workunits: &[Workunit],
    grants: &[Grant],
) -> Result<Option<usize>, AllocError>
    // A place, from 0, is that of the first workunit with a VALID instance without a grant; `None`
    // means that there is none.
    ensures { IfOk result (FirstAgainst (IsGranted grants.now) workunits.now) }
{
    let keys = granted_of(alloc, grants)?;
    let granted = set_of(alloc, keys.as_slice())?;
    Ok(first_with_valid_unheld(&granted, workunits))
}

/// Returns whether the workunit's number is in the set, if it is assimilated.
fn is_held_if_done(numbers: &HashSet<u64>, workunit: &Workunit) -> bool
    ensures { IsTrue result ↔ IsHeldIfDone numbers.now workunit.now }
{
    workunit.assimilate != Assimilate::Done || numbers.contains(&workunit.number)
}

/// Returns the place of the first assimilated workunit whose number is not in the set, or `None` if there is none.
fn first_done_unheld(numbers: &HashSet<u64>, workunits: &[Workunit]) -> Option<usize>
    ensures { FirstAgainst (IsHeldIfDone numbers.now) workunits.now result }
{
    first_against(workunits, |workunit| is_held_if_done(numbers, workunit))
}

/// Returns the place of the first assimilated workunit without an archived row, or `None` if there is none.
pub fn first_unkept(
    alloc: Global,
    workunits: &[Workunit],
    archived: &[Archived],
) -> Result<Option<usize>, AllocError>
    // A place, from 0, is that of the first assimilated workunit without an archived row; `None`
    // means that there is none.
    ensures { IfOk result (FirstAgainst (IsArchivedIfDone archived.now) workunits.now) }
{
    let keys = numbers_of(alloc, archived)?;
    let numbers = set_of(alloc, keys.as_slice())?;
    Ok(first_done_unheld(&numbers, workunits))
}

/// Returns whether the workunit is assimilated, or its name is not in the set.
fn is_not_held_unless_done(names: &HashSet<&str>, workunit: &Workunit) -> bool
    ensures { IsTrue result ↔ IsNotHeldUnlessDone names.now workunit.now }
{
    workunit.assimilate == Assimilate::Done || !names.contains(&workunit.name.as_str())
}

/// Returns the place of the first workunit that is not assimilated and whose name is in the set, or `None` if there is
/// none.
fn first_held(names: &HashSet<&str>, workunits: &[Workunit]) -> Option<usize>
    ensures { FirstAgainst (IsNotHeldUnlessDone names.now) workunits.now result }
{
    first_against(
        workunits,
        |workunit| is_not_held_unless_done(names, workunit),
    )
}

/// Returns the place of the first workunit that is not assimilated and has the name of an archived one, or `None` if
/// there is none.
pub fn first_taken(
    alloc: Global,
    workunits: &[Workunit],
    archived: &[Archived],
) -> Result<Option<usize>, AllocError>
    // A place, from 0, is that of the first workunit not assimilated with an archived one's name;
    // `None` means that there is none.
    ensures { IfOk result (FirstAgainst (IsNameFree archived.now) workunits.now) }
{
    let keys = archived_names_of(alloc, archived)?;
    let names = set_of(alloc, keys.as_slice())?;
    Ok(first_held(&names, workunits))
}
