//! Whether a world is sound, and what is wrong with it if not.

ghost use Rattle.std.specs.Prelude.{◌≡◌, ◌↔◌, All, IfErr, IfOk, IfSome, IsNone, IsTrue};
ghost use Rattle.wu_core.specs.Storable.{IsNextNumber};
ghost use Rattle.wu_core.specs.World.{IsInOrder};
ghost use Rattle.wu_core.specs.declared.fault.Fault.TheVariants.{Memory};
ghost use Rattle.wu_machine.specs.Sound.{HasClassesInTime, IsClassless, IsSound};
ghost use Rattle.wu_audit.specs.Wrong.{FindsWrong, StandsAgainst, ToArchivedAstray, ToArchivedNumber, ToClassValues, ToEnd, ToGrantAstray, ToGrantValues, ToNumber};

use crate::firsts::{
    first_impossible_mask, first_inconsistent, first_unclassed, first_unformed, first_ungiven,
    first_ungiven_archived, first_unstorable, first_unstorable_archived, first_wrong_grant,
    first_wrong_import, know_hosts,
};
use crate::lacks::{first_taken, first_ungranted, first_unkept};
use crate::loaded::Loaded;
use crate::once::{
    first_class_out_of_order, first_out_of_order, first_repeated_archived_name,
    first_repeated_grant, first_repeated_import, first_repeated_name, first_repeated_number,
};
use crate::records::{first_unbacked_grant, first_unbacked_row};
use crate::wrong::Wrong;
use std::alloc::{AllocError, Global};
use wu_core::{CLASS_VERSION, Fault, MOST_WORKUNITS, Workunit};

/// Returns whether the next workunit may get the number, or the number is one past the last.
fn is_next_number(number: u64) -> bool
    ensures { IsTrue result ↔ IsNextNumber number }
{
    1 <= number && number <= MOST_WORKUNITS + 1
}

/// Returns the first row that is wrong by itself.
fn wrong_row(loaded: &Loaded) -> Option<Wrong>
    // `None` means that each row is right by itself; a violation is the first in the written order.
    ensures { FindsWrong ToNumber loaded.now result }
{
    if !is_next_number(loaded.next_number()) {
        return Some(Wrong::NextNumber);
    }
    let workunits = loaded.workunits();
    if let Some(place) = first_unformed(workunits) {
        return Some(Wrong::WorkunitForm(place));
    }
    if let Some(place) = first_unstorable(workunits) {
        return Some(Wrong::WorkunitValues(place));
    }
    if let Some(place) = first_unstorable_archived(loaded.archived()) {
        return Some(Wrong::ArchivedValues(place));
    }
    if let Some(place) = first_wrong_import(loaded.imports()) {
        return Some(Wrong::ImportVerdicts(place));
    }
    if let Some(place) = first_inconsistent(workunits) {
        return Some(Wrong::WorkunitStates(place));
    }
    if let Some(place) = first_impossible_mask(loaded.archived()) {
        return Some(Wrong::ArchivedMask(place));
    }
    None
}

/// Returns the first workunit whose key is wrong: not given, out of order or another's.
fn wrong_workunit_key(alloc: Global, loaded: &Loaded) -> Result<Option<Wrong>, AllocError>
    // After `Ok`, `None` means that the workunits' keys are right too; a violation is the first in
    // the written order.
    requires { ToNumber loaded.now }
    ensures { IfOk result (FindsWrong ToArchivedNumber loaded.now) }
{
    if let Some(place) = first_ungiven(loaded) {
        return Ok(Some(Wrong::WorkunitNumber(place)));
    }
    let workunits = loaded.workunits();
    if let Some(place) = first_out_of_order(workunits) {
        return Ok(Some(Wrong::WorkunitOrder(place)));
    }
    if let Some(place) = first_repeated_name(alloc, workunits)? {
        return Ok(Some(Wrong::WorkunitTwice(place)));
    }
    Ok(None)
}

/// Returns the first archived row whose key is wrong: not given, or another's.
fn wrong_archived_key(alloc: Global, loaded: &Loaded) -> Result<Option<Wrong>, AllocError>
    // After `Ok`, `None` means that the archived rows' keys are right too; a violation is the first
    // in the written order.
    requires { ToArchivedNumber loaded.now }
    ensures { IfOk result (FindsWrong ToGrantValues loaded.now) }
{
    if let Some(place) = first_ungiven_archived(loaded) {
        return Ok(Some(Wrong::ArchivedNumber(place)));
    }
    let archived = loaded.archived();
    if let Some(place) = first_repeated_number(alloc, archived)? {
        return Ok(Some(Wrong::ArchivedTwice(place)));
    }
    if let Some(place) = first_repeated_archived_name(alloc, archived)? {
        return Ok(Some(Wrong::ArchivedNameTwice(place)));
    }
    Ok(None)
}

/// Returns the first workunit or archived row whose key is wrong.
fn wrong_key(alloc: Global, loaded: &Loaded) -> Result<Option<Wrong>, AllocError>
    // After `Ok`, `None` means that the keys of workunits and archived rows are right too; a
    // violation is the first in the written order.
    requires { ToNumber loaded.now }
    ensures { IfOk result (FindsWrong ToGrantValues loaded.now) }
{
    if let Some(wrong) = wrong_workunit_key(alloc, loaded)? {
        return Ok(Some(wrong));
    }
    wrong_archived_key(alloc, loaded)
}

/// Returns the first grant with a value out of its range, or the first grant or import whose key is another's.
fn wrong_grant_or_import(alloc: Global, loaded: &Loaded) -> Result<Option<Wrong>, AllocError>
    // After `Ok`, `None` means that all rows and keys are right; a violation is the first in the
    // written order.
    requires { ToGrantValues loaded.now }
    ensures { IfOk result (FindsWrong ToGrantAstray loaded.now) }
{
    if let Some(place) = first_wrong_grant(loaded) {
        return Ok(Some(Wrong::GrantValues(place)));
    }
    if let Some(place) = first_repeated_grant(alloc, loaded.grants())? {
        return Ok(Some(Wrong::GrantTwice(place)));
    }
    if let Some(place) = first_repeated_import(alloc, loaded.imports())? {
        return Ok(Some(Wrong::ImportTwice(place)));
    }
    Ok(None)
}

/// Returns the first grant that is not its workunit's, or the first workunit without one that it needs.
fn wrong_credit(alloc: Global, loaded: &Loaded) -> Result<Option<Wrong>, AllocError>
    requires keyed { ToGrantAstray loaded.now }
    requires order { IsInOrder loaded.now }
    // After `Ok`, `None` means that workunits and grants agree too; a violation is the first in the
    // written order.
    ensures { IfOk result (FindsWrong ToArchivedAstray loaded.now) }
{
    let workunits = loaded.workunits();
    let grants = loaded.grants();
    if let Some(place) = first_unbacked_grant(workunits, grants) {
        return Ok(Some(Wrong::GrantAstray(place)));
    }
    if let Some(place) = first_ungranted(alloc, workunits, grants)? {
        return Ok(Some(Wrong::GrantMissing(place)));
    }
    Ok(None)
}

/// Returns the first archived row that is not its workunit's, or the first workunit that lacks one or has the name of
/// one.
fn wrong_archive(alloc: Global, loaded: &Loaded) -> Result<Option<Wrong>, AllocError>
    requires credited { ToArchivedAstray loaded.now }
    requires order { IsInOrder loaded.now }
    // After `Ok`, `None` means that all rows agree; a violation is the first in the written order.
    ensures { IfOk result (FindsWrong ToClassValues loaded.now) }
{
    let workunits = loaded.workunits();
    let archived = loaded.archived();
    if let Some(place) = first_unbacked_row(workunits, archived) {
        return Ok(Some(Wrong::ArchivedAstray(place)));
    }
    if let Some(place) = first_unkept(alloc, workunits, archived)? {
        return Ok(Some(Wrong::ArchivedMissing(place)));
    }
    if let Some(place) = first_taken(alloc, workunits, archived)? {
        return Ok(Some(Wrong::NameTaken(place)));
    }
    Ok(None)
}

/// Returns the first row that does not agree with the others.
fn wrong_record(alloc: Global, loaded: &Loaded) -> Result<Option<Wrong>, AllocError>
    requires keyed { ToGrantAstray loaded.now }
    requires order { IsInOrder loaded.now }
    // After `Ok`, `None` means that all rows agree; a violation is the first in the written order.
    ensures { IfOk result (FindsWrong ToClassValues loaded.now) }
{
    if let Some(wrong) = wrong_credit(alloc, loaded)? {
        return Ok(Some(wrong));
    }
    wrong_archive(alloc, loaded)
}

/// Returns whether no workunit has a class.
fn have_no_class(workunits: &[Workunit]) -> bool
    ensures { IsTrue result ↔ All (λ w. w.class ≡ 0) workunits.now }
{
    workunits.iter().all(|workunit| workunit.class == 0)
}

/// Returns whether neither a host nor a workunit has a class.
fn is_classless(loaded: &Loaded) -> bool
    ensures { IsTrue result ↔ IsClassless loaded.now }
{
    loaded.classes().is_empty() && have_no_class(loaded.workunits())
}

/// Returns whether there are classes only where the version has them.
fn has_classes_in_time(loaded: &Loaded) -> bool
    ensures { IsTrue result ↔ HasClassesInTime loaded.now }
{
    CLASS_VERSION <= loaded.version() || is_classless(loaded)
}

/// Returns the first host whose class is out of its range or that is out of order, or that the version has no classes.
fn wrong_class(loaded: &Loaded) -> Option<Wrong>
    // `None` means that the classes are right too; a violation is the first in the written order.
    requires { ToClassValues loaded.now }
    ensures { FindsWrong ToEnd loaded.now result }
{
    let classes = loaded.classes();
    if let Some(place) = first_unclassed(classes) {
        return Some(Wrong::ClassValues(place));
    }
    if let Some(place) = first_class_out_of_order(classes) {
        return Some(Wrong::ClassOrder(place));
    }
    if !has_classes_in_time(loaded) {
        return Some(Wrong::EarlyClasses);
    }
    None
}

/// Returns the first violation in the written order, or `None` if there is none.
fn first_wrong(alloc: Global, loaded: &Loaded) -> Result<Option<Wrong>, AllocError>
    // After `Ok`, `None` means that everything holds that an audit asks; a violation is the first
    // in the written order.
    ensures { IfOk result (FindsWrong ToEnd loaded.now) }
{
    if let Some(wrong) = wrong_row(loaded) {
        return Ok(Some(wrong));
    }
    if let Some(wrong) = wrong_key(alloc, loaded)? {
        return Ok(Some(wrong));
    }
    if let Some(wrong) = wrong_grant_or_import(alloc, loaded)? {
        return Ok(Some(wrong));
    }
    if let Some(wrong) = wrong_record(alloc, loaded)? {
        return Ok(Some(wrong));
    }
    Ok(wrong_class(loaded))
}

/// Returns the first violation in the written order, or `None` if the world is sound. Returns `Memory` if out of
/// memory.
pub fn audit(alloc: Global, loaded: &Loaded) -> Result<Option<Wrong>, Fault>
    // Unless it is out of memory, `None` is returned exactly for a sound world.
    ensures exact { IfOk result (λ wrong. IsNone wrong ↔ IsSound loaded.now) }
    // A violation is the first in the written order: it is at the first such row, and everything
    // asked before it holds.
    ensures told { IfOk result (λ wrong. IfSome wrong (StandsAgainst loaded.now)) }
    // The only fault is out of memory.
    ensures memory { IfErr result (λ fault. fault ≡ Memory) }
{
    know_hosts(loaded.grants());
    Ok(first_wrong(alloc, loaded)?)
}
