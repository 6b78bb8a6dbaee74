//! Whether a grant, an archived row, an import and a host's class may be in a world.

ghost use Rattle.std.specs.Prelude.{◌≡◌, ◌↔◌, ◌≤◌, IsTrue, All};
ghost use Rattle.wu_core.specs.Classes.{IsClassed};
ghost use Rattle.wu_core.specs.Storable.{AreVerdicts, IsName, IsPlace, IsStoredArchived};
ghost use Rattle.wu_core.specs.World.{last_skip};
ghost use Rattle.wu_machine.specs.Sound.{HasPossibleMask, IsGiven};
ghost use Rattle.wu_audit.specs.Rows.{IsRightGrant, IsRightImport};

use crate::loaded::{Imported, Loaded};
use crate::workunits::know_place;
use wu_core::{
    Archived, Grant, HIGHEST_CLASS, HostClass, ImportKind, LONGEST_OUTPUT, MOST_CREDIT,
    MOST_INSTANCES,
};

/// Returns whether the number was given to a workunit.
pub fn is_given(loaded: &Loaded, number: u64) -> bool
    // It is true exactly where the number was given: it is from 1 on, and below the next number.
    ensures { IsTrue result ↔ IsGiven loaded.now number }
{
    1 <= number && number < loaded.next_number()
}

/// Returns whether the grant is for a number that was given, and its number and its credit are in their ranges.
pub fn is_right_grant(loaded: &Loaded, grant: &Grant) -> bool
    // It is true exactly where the workunit's number was given, the instance's is below 100, and
    // the credit is at most 1,000,000.
    ensures { IsTrue result ↔ IsRightGrant loaded.now grant.now }
{
    is_given(loaded, grant.workunit)
        && grant.n < MOST_INSTANCES
        && grant.credit <= u64::from(MOST_CREDIT)
}

/// Returns whether the archived row can be stored.
pub fn is_storable_archived(archived: &Archived) -> bool
    // It is true exactly where the values of the archived row are in their ranges.
    ensures { IsTrue result ↔ IsStoredArchived archived.now }
{
    archived.name.as_bytes();
    know_place(archived.canonical);
    archived.done_at.seconds();
    archived.output.len() <= LONGEST_OUTPUT
}

/// Returns whether the archived row's mask has no bit that this project never sets.
pub fn has_possible_mask(archived: &Archived) -> bool
    // It is true exactly where the mask has neither of the two errors that this project never sets.
    ensures { IsTrue result ↔ HasPossibleMask archived.now }
{
    let mask = archived.error_mask;
    !mask.couldnt_send_result && !mask.no_canonical_result
}

/// Returns whether each verdict is a number of one on a file of this kind.
fn are_verdicts(kind: ImportKind, verdicts: &[u8]) -> bool
    ensures { IsTrue result ↔ AreVerdicts kind verdicts.now }
{
    let last_skip = kind.last_skip();
    verdicts.iter().all(|verdict| *verdict <= last_skip)
}

/// Returns whether the verdicts of the import are numbers of verdicts on such a file.
pub fn is_right_import(import: &Imported) -> bool
    // It is true exactly where the import has a name, and each verdict is one that a file of its
    // kind has.
    ensures { IsTrue result ↔ IsRightImport import.now }
{
    import.name().as_bytes();
    are_verdicts(import.kind(), import.verdicts().as_slice())
}

/// Returns whether the class of the host is in its range.
pub fn is_classed(it: &HostClass) -> bool
    // It is true exactly where the host has a name and a class from 1 to the highest.
    ensures { IsTrue result ↔ IsClassed it.now }
{
    it.host.as_bytes();
    1 <= it.class && it.class <= HIGHEST_CLASS
}
