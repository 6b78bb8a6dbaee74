//! Worked examples, on the definitions: a sound world, and rows that may not be in one.

ghost use Rattle.std.specs.Prelude.{◌≢◌, ◌<◌, ◌∷◌, []};
ghost use Rattle.wu_core.specs.Formed.{IsWorkunit};
ghost use Rattle.wu_core.specs.Storable.{IsStorable, IsStoredArchived};
ghost use Rattle.wu_rules.specs.Consistent.{IsConsistent};
ghost use Rattle.wu_rules.specs.Examples.{credit, h1, h2};
ghost use Rattle.wu_machine.specs.Sound.{HasPossibleMask, IsSound};
ghost use Rattle.wu_audit.specs.Against.{IsFirstPairAgainst};
ghost use Rattle.wu_audit.specs.Examples.{agreed, decided_and_given_up, kept_row, kept_otherwise, kept_too_late, kept_unsendable, named_again, one_agreed, same_names, same_numbers, same_rows, sent_with, unstamped, unstorable};
ghost use Rattle.wu_audit.specs.Keys.{AreApart, AreOtherImports};
ghost use Rattle.wu_audit.specs.Records.{IsBackedGrant, IsBackedRow, IsGranted, IsArchivedIfDone, IsNameFree};
ghost use Rattle.wu_audit.specs.Rows.{IsRightGrant, IsRightImport};

/// A workunit on which two hosts agreed, with its grants and its archived row, is a sound world.
pub fn one_agreed_is_sound()
    // The world with one workunit on which two hosts agreed, its two grants and its archived row is
    // sound.
    ensures { IsSound one_agreed }
{}

/// Rows that are wrong by themselves: assimilated without a moment; a number of 2^63; decided and given up; archived in
/// the year 2100; archived with mask 1; verdict 5 of a file of sends; a grant of instance 100.
pub fn rows_may_be_wrong()
    // A workunit that is assimilated without a moment is not well formed.
    ensures form { ¬ IsWorkunit unstamped }
    // A workunit with number 2^63 cannot be stored.
    ensures values { ¬ IsStorable unstorable }
    // A workunit that is decided and given up is not consistent.
    ensures states { ¬ IsConsistent decided_and_given_up }
    // An archived row of the year 2100 cannot be stored.
    ensures archived { ¬ IsStoredArchived kept_too_late }
    // An archived row with the error that no result could be sent has a mask that is never set.
    ensures mask { ¬ HasPossibleMask kept_unsendable }
    // Verdict 5 is invalid for a file of sends.
    ensures verdict { ¬ IsRightImport (sent_with 5) }
    // A grant of instance 100 has a value out of its range.
    ensures grant { ¬ IsRightGrant one_agreed (credit 100 h1) }
{}

/// Keys that occur twice: of a workunit, an archived row, a grant and an import.
pub fn keys_may_be_wrong()
    // Of two workunits of one number the second is the first out of order.
    ensures order { IsFirstPairAgainst (λ one other. one.number < other.number) same_numbers 1 }
    // Of two workunits of one name the second is the first repeated name.
    ensures name { IsFirstPairAgainst (λ one other. one.name ≢ other.name) same_names 1 }
    // Of two archived rows of one number the second is the first repeated number.
    ensures archived { IsFirstPairAgainst (λ one other. one.number ≢ other.number) same_rows 1 }
    // Of two grants for one instance the second is the first repeated one.
    ensures grant { IsFirstPairAgainst AreApart (credit 0 h1 ∷ credit 0 h2 ∷ []) 1 }
    // Of two imports of one kind and name the second is the first repeated one.
    ensures import { IsFirstPairAgainst AreOtherImports (sent_with 0 ∷ sent_with 1 ∷ []) 1 }
{}

/// Rows that do not agree: a grant to another host; a valid instance without a grant; an archived row with another
/// canonical result; an assimilated workunit without one; a workunit with the name of an archived one.
pub fn records_may_be_wrong()
    // A grant to another host than the instance's is not for its workunit.
    ensures astray { ¬ IsBackedGrant one_agreed.workunits (credit 0 h2) }
    // A workunit whose VALID instance has no grant is not granted.
    ensures missing { ¬ IsGranted (credit 0 h1 ∷ []) agreed }
    // An archived row with another canonical result is not that of its workunit.
    ensures otherwise { ¬ IsBackedRow one_agreed.workunits kept_otherwise }
    // An assimilated workunit without an archived row is not archived as it has to be.
    ensures unkept { ¬ IsArchivedIfDone [] agreed }
    // A workunit that is not assimilated has no free name where an archived row has that name.
    ensures taken { ¬ IsNameFree one_agreed.archived named_again }
{}
