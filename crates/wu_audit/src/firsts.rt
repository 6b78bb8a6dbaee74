//! The first workunit, grant, archived row, import or class of a host that may not be in a world.

ghost use Rattle.std.specs.Prelude.{All};
ghost use Rattle.wu_core.specs.Classes.{IsClassed};
ghost use Rattle.wu_core.specs.Formed.{IsWorkunit};
ghost use Rattle.wu_core.specs.Storable.{IsName, IsStorable, IsStoredArchived};
ghost use Rattle.wu_rules.specs.Consistent.{IsConsistent};
ghost use Rattle.wu_machine.specs.Sound.{HasPossibleMask, IsGiven};
ghost use Rattle.wu_audit.specs.Against.{FirstAgainst};
ghost use Rattle.wu_audit.specs.Rows.{IsRightGrant, IsRightImport};

use crate::against::first_against;
use crate::loaded::{Imported, Loaded};
use crate::rows::{
    has_possible_mask, is_classed, is_given, is_right_grant, is_right_import, is_storable_archived,
};
use crate::workunits::{is_consistent_workunit, is_formed_workunit, is_storable_workunit};
use wu_core::{Archived, Grant, HostClass, Workunit};

/// Returns the place of the first workunit that is not well formed, or `None` if there is none.
pub fn first_unformed(workunits: &[Workunit]) -> Option<usize>
    // A place, from 0, is that of the first workunit that is not well formed; `None` means that all
    // are.
    ensures { FirstAgainst IsWorkunit workunits.now result }
{
    first_against(workunits, is_formed_workunit)
}

/// Returns the place of the first workunit that cannot be stored, or `None` if there is none.
pub fn first_unstorable(workunits: &[Workunit]) -> Option<usize>
    // A place, from 0, is that of the first workunit that cannot be stored; `None` means that all
    // can.
    ensures { FirstAgainst IsStorable workunits.now result }
{
    first_against(workunits, is_storable_workunit)
}

/// Makes known that each grant is to a host with a name.
pub fn know_hosts(grants: &[Grant])
    // The host of each grant is a name.
    ensures { All (λ grant. IsName grant.host) grants.now }
{
    for grant in grants {
        grant.host.as_bytes();
    }
}

/// Returns the place of the first archived row that cannot be stored, or `None` if there is none.
pub fn first_unstorable_archived(archived: &[Archived]) -> Option<usize>
    // A place, from 0, is that of the first archived row that cannot be stored; `None` means that
    // all can.
    ensures { FirstAgainst IsStoredArchived archived.now result }
{
    first_against(archived, is_storable_archived)
}

/// Returns the place of the first import with a verdict that no such file has, or `None` if there is none.
pub fn first_wrong_import(imports: &[Imported]) -> Option<usize>
    // A place, from 0, is that of the first import with a verdict or name that is invalid; `None`
    // means that none has one.
    ensures { FirstAgainst IsRightImport imports.now result }
{
    first_against(imports, is_right_import)
}

/// Returns the place of the first workunit whose states and verdicts do not agree, or `None` if there is none.
pub fn first_inconsistent(workunits: &[Workunit]) -> Option<usize>
    // A place, from 0, is that of the first workunit that is not consistent; `None` means that all
    // are.
    ensures { FirstAgainst IsConsistent workunits.now result }
{
    first_against(workunits, is_consistent_workunit)
}

/// Returns the place of the first archived row whose mask has a bit that this project never sets, or `None` if there is
/// none.
pub fn first_impossible_mask(archived: &[Archived]) -> Option<usize>
    // A place, from 0, is that of the first archived row with a bit that is never set; `None` means
    // that none has one.
    ensures { FirstAgainst HasPossibleMask archived.now result }
{
    first_against(archived, has_possible_mask)
}

/// Returns the place of the first workunit with a number that was not given, or `None` if there is none.
pub fn first_ungiven(loaded: &Loaded) -> Option<usize>
    // A place, from 0, is that of the first workunit with a number that was not given; `None` means
    // that none has one.
    ensures { FirstAgainst (λ w. IsGiven loaded.now w.number) loaded.now.workunits result }
{
    first_against(
        loaded.workunits(),
        |workunit| is_given(loaded, workunit.number),
    )
}

/// Returns the place of the first archived row with a number that was not given, or `None` if there is none.
pub fn first_ungiven_archived(loaded: &Loaded) -> Option<usize>
    // A place, from 0, is that of the first archived row with a number that was not given; `None`
    // means that none has one.
    ensures { FirstAgainst (λ row. IsGiven loaded.now row.number) loaded.now.archived result }
{
    first_against(loaded.archived(), |row| is_given(loaded, row.number))
}

/// Returns the place of the first grant for a number that was not given, or with a number or a credit out of its range.
/// Returns `None` if there is none.
pub fn first_wrong_grant(loaded: &Loaded) -> Option<usize>
    // A place, from 0, is that of the first grant with an ungiven number or a value out of range;
    // `None`: there is none.
    ensures { FirstAgainst (IsRightGrant loaded.now) loaded.now.grants result }
{
    first_against(loaded.grants(), |grant| is_right_grant(loaded, grant))
}

/// Returns the place of the first host whose class is out of its range, or `None` if there is none.
pub fn first_unclassed(classes: &[HostClass]) -> Option<usize>
    // A place, from 0, is that of the first host with a wrong name or class; `None` means that none
    // has one.
    ensures { FirstAgainst IsClassed classes.now result }
{
    first_against(classes, is_classed)
}
