//! Whether workunits, grants and archived rows agree.

ghost use Rattle.std.specs.Prelude.{◌≡◌, ◌↔◌, IsTrue, Some};
ghost use Rattle.wu_rules.specs.Consistent.{IsRowOf};
ghost use Rattle.wu_audit.specs.Against.{FirstAgainst};
ghost use Rattle.wu_audit.specs.Places.{Ascends, IsBoundOf, IsPlaceOf};
ghost use Rattle.wu_audit.specs.Records.{IsArchivedOf, IsBackedGrant, IsBackedRow, IsGrantOf};

use crate::against::first_against;
use wu_core::{Archived, Assimilate, Grant, Instance, Moment, Name, ValidateState, Workunit};

/// Returns the first place of a workunit with this number or a higher one.
fn bound_of(workunits: &[Workunit], number: u64) -> usize
    // Workunits before the place have lower numbers, and those from it on have not.
    requires { Ascends workunits.now }
    ensures { IsBoundOf number workunits.now result }
{
    workunits.partition_point(|workunit| workunit.number < number)
}

/// Returns the place of the workunit with this number, or `None` if there is none.
fn place_of(workunits: &[Workunit], number: u64) -> Option<usize>
    // A place has the workunit of this number; `None` means that none has it.
    requires { Ascends workunits.now }
    ensures { IsPlaceOf number workunits.now result }
{
    let place = bound_of(workunits, number);
    if place < workunits.len() && workunits[place].number == number {
        Some(place)
    } else {
        None
    }
}

/// Returns whether the instance is this host's.
fn is_hosted_by(instance: &Instance, host: &Name) -> bool
    ensures { IsTrue result ↔ (instance.now.host ≡ Some host.now) }
{
    match &instance.host {
        Some(its) => its == host,
        None => false,
    }
}

/// Returns whether the grant is for a valid instance of the workunit, for its host and with the workunit's credit.
fn is_grant_of(workunit: &Workunit, grant: &Grant) -> bool
    // It is true exactly where the grant is for a VALID instance of the workunit, for its host and
    // with the workunit's credit.
    ensures { IsTrue result ↔ IsGrantOf workunit.now grant.now }
{
    let Some(instance) = workunit.instances.as_slice().get(grant.n as usize) else {
        return false;
    };
    instance.validate_state == ValidateState::Valid
        && is_hosted_by(instance, &grant.host)
        && grant.credit == u64::from(workunit.params.credit())
}

/// Returns whether the grant is so for the workunit of its number, if there is one.
fn is_backed_grant(workunits: &[Workunit], grant: &Grant) -> bool
    // It is true exactly where the workunit of the grant's number, if it is present, has such an
    // instance.
    requires { Ascends workunits.now }
    ensures { IsTrue result ↔ IsBackedGrant workunits.now grant.now }
{
    match place_of(workunits, grant.workunit) {
        Some(place) => is_grant_of(&workunits[place], grant),
        None => true,
    }
}

/// Returns the place of the first grant whose workunit is there without a VALID instance of its number, its host and
/// its credit. Returns `None` if there is none.
pub fn first_unbacked_grant(workunits: &[Workunit], grants: &[Grant]) -> Option<usize>
    // The workunits are in order of number.
    requires { Ascends workunits.now }
    // A place, from 0, is the first grant not for a VALID instance, its host and credit of a
    // present workunit; `None`: there is none.
    ensures { FirstAgainst (IsBackedGrant workunits.now) grants.now result }
{
    first_against(grants, |grant| is_backed_grant(workunits, grant))
}

/// Returns whether two canonical numbers are the same, or both are none.
fn is_same_place(one: Option<u32>, other: Option<u32>) -> bool
    ensures { IsTrue result ↔ (one ≡ other) }
{
    one == other
}

/// Returns whether the moment of a workunit is this one.
fn is_done_at(done_at: Option<Moment>, moment: Moment) -> bool
    ensures { IsTrue result ↔ (done_at ≡ Some moment) }
{
    match done_at {
        Some(its) => its.seconds() == moment.seconds(),
        None => false,
    }
}

/// Returns whether the row has the canonical number, the error mask and the moment of the workunit.
fn is_row_of(workunit: &Workunit, row: &Archived) -> bool
    ensures { IsTrue result ↔ IsRowOf workunit.now row.now }
{
    is_same_place(row.canonical, workunit.canonical)
        && row.error_mask.is_same(workunit.error_mask)
        && is_done_at(workunit.done_at, row.done_at)
}

/// Returns whether the row is that of the workunit, which is assimilated.
fn is_archived_of(workunit: &Workunit, row: &Archived) -> bool
    ensures { IsTrue result ↔ IsArchivedOf workunit.now row.now }
{
    workunit.assimilate == Assimilate::Done && is_row_of(workunit, row) && row.name == workunit.name
}

/// Returns whether the archived row is so for the workunit of its number, if there is one.
fn is_backed_row(workunits: &[Workunit], row: &Archived) -> bool
    // It is true exactly where the workunit of the row's number, if it is present, is assimilated
    // and has the row's values.
    requires { Ascends workunits.now }
    ensures { IsTrue result ↔ IsBackedRow workunits.now row.now }
{
    match place_of(workunits, row.number) {
        Some(place) => is_archived_of(&workunits[place], row),
        None => true,
    }
}

/// Returns the place of the first archived row whose workunit is there, and that is not what is kept of it. Returns
/// `None` if there is none.
pub fn first_unbacked_row(workunits: &[Workunit], archived: &[Archived]) -> Option<usize>
    // The workunits are in order of number.
    requires { Ascends workunits.now }
    // A place, from 0, is the first archived row that is not that of its present workunit,
    // assimilated; `None` means that there is none.
    ensures { FirstAgainst (IsBackedRow workunits.now) archived.now result }
{
    first_against(archived, |row| is_backed_row(workunits, row))
}
