//! Changes of a project's tables, and lists of them inside a transaction.

ghost use Rattle.std.specs.Prelude.{◌≡◌, ◌≤◌, [], ◌∷◌, option_map, Some};
ghost use Rattle.wu_core.specs.Storable.{bare};
ghost use Rattle.wu_rules.specs.Marks.{marks};
ghost use Rattle.wu_schema.specs.Calls.{TransactionFrame, Does};
ghost use Rattle.wu_schema.specs.Others.{Spares, SparesBeside, SparesOthers, SparesWith, tables_of_workunits};
ghost use Rattle.wu_schema.specs.Queue.{queue_table};
ghost use Rattle.wu_store.specs.Changes.{AddsGrants, AddsInstances, Credits, DoesNothing, FillsQueue, LeavesQueue, Places, PutsClassOf, PutsGrants, PutsInstance, PutsInstances, PutsMarks, PutsRow, Replaces, ReplacesAny, SparesUpgraded, Upgrades, UpgradesQueue};
ghost use Rattle.wu_store.specs.Changing.{MakesWorlds};
ghost use Rattle.wu_store.specs.Queues.{KeepsQueue};
ghost use Rattle.wu_store.specs.Writes.{PutsUnless, Works, WritesSparing};

use crate::classes::{put_host_class, set_class, upgrade_classes};
use crate::differences::{is_same_instance, is_same_marks, is_same_row};
use crate::sets::{set_instance, set_marks, set_workunit};
use crate::statements::{
    add_sum, delete_workunit, insert_archived, insert_grant, insert_import, insert_instance,
    insert_marks, insert_workunit, set_next_number,
};
use crate::verdicts::Verdicts;
use sqlite::{Alter, Error, Transaction};
use std::alloc::Global;
use wu_core::{Archived, Grant, ImportKind, Instance, Marks, Name, QUEUE_VERSION, Workunit};
use wu_rules::marks_of;
use wu_schema::make_queue;
use wu_schema::rows::HostSum;

/// What is kept permanently of an import: its content, which is borrowed, and its first answer.
#[derive(Drop)]
pub struct Import<'a> {
    pub kind: ImportKind,
    pub name: &'a Name,
    pub template: &'a [u8],
    pub content: &'a [u8],
    /// The first number of a batch; 0 if no workunit was made.
    pub first_number: u64,
    pub verdicts: Verdicts,
}

/// One change of a project's tables. It is right for a world if its premises hold there. A new number is above all, and
/// a replaced workunit is the present one. Places are the next ones, and sums are those of the grants. An import may be
/// kept. An upgrade has the version and the marks of a world without classes. `Add`, `Replace` and `Class` need a world
/// with classes.
pub enum Change<'a> {
    /// A workunit of a new number is added, with its instances.
    Add(Workunit),
    /// The second workunit, with its instances, takes the place of the first, which is the present one of its number.
    Replace(Workunit, Workunit),
    /// The workunit of this number is removed, with its instances.
    Remove(u64),
    /// Grants are kept at consecutive places from this one on, and these sums, which are theirs, are added to their
    /// hosts'.
    Grants(u64, Vec<Grant>, Vec<HostSum>),
    /// What is kept permanently of a workunit is added at this place of the archived rows.
    Archive(u64, Archived),
    /// The number of the next workunit is set.
    Next(u64),
    /// An import is kept.
    Keep(Import<'a>),
    /// The class of a host is set.
    Class(Name, u32),
    /// A project of this older version is upgraded to the present one. If it has no queue, it gets one with these
    /// marks, each of the workunit of this number. It gets the tables of classes, with class 0 for each of these
    /// workunits.
    Upgrade(u64, Vec<(u64, Marks)>),
}

// It is written out, so that a caller does not prove again how each part is dropped.
impl Drop for Change<'_> {
    fn drop(self) {
        match self {
            Change::Add(_workunit) => {}
            Change::Replace(_was, _now) => {}
            Change::Grants(_place, _grants, _sums) => {}
            Change::Archive(_seq, _archived) => {}
            Change::Remove(_number) | Change::Next(_number) => {}
            Change::Keep(_import) => {}
            Change::Class(_host, _class) => {}
            Change::Upgrade(_from, _rows) => {}
        }
    }
}

/// Adds the rows of a workunit's instances, numbered from 0. The workunit's own row is there without them.
fn insert_instances<S: Alter>(tx: &mut Transaction<'_, S>, workunit: &Workunit) -> Result<(), Error>
    ensures works { TransactionFrame S.Store tx.old tx.new result }
    // After `Ok`, if the tables represented the world with the workunit without instances, they
    // represent it with the whole workunit.
    ensures adds { Does S.Store tx.old tx.new result (AddsInstances workunit.now) }
    // After `Ok`, a queue beside such a world stays.
    ensures queue { Does S.Store tx.old tx.new result (LeavesQueue workunit.now) }
    // After `Ok`, if the tables of workunits are there, those of other programs stay.
    ensures spares { Does S.Store tx.old tx.new result (SparesWith tables_of_workunits) }
{
    let instances = workunit.instances.as_slice();
    let mut n = 0;
    for instance in instances {
        insert_instance(tx, workunit.number, n, instance)?;
        n += 1;
    }
    Ok(())
}

/// Adds a workunit at its place in order of number, with its instances, and its marks in the queue.
fn add<S: Alter>(tx: &mut Transaction<'_, S>, workunit: &Workunit) -> Result<(), Error>
    // After `Ok`, a represented world with classes has the workunit at its place by number, with
    // its instances, class and marks. If the tables of workunits are there, those of other programs
    // stay. Commits nothing; after `Ok` the transaction is still open.
    ensures { WritesSparing S.Store tx.old tx.new result (Places workunit.now)
        (SparesWith tables_of_workunits) }
{
    insert_workunit(tx, workunit)?;
    insert_instances(tx, workunit)?;
    insert_marks(tx, workunit.number, &marks_of(workunit))
}

/// Puts a workunit in the place of the present one of its number. Deletes that one with its instances and marks, and
/// adds the new one.
fn replace_whole<S: Alter>(tx: &mut Transaction<'_, S>, workunit: &Workunit) -> Result<(), Error>
    // After `Ok`, a represented world with classes and a workunit of this number has this one in
    // its place. If the tables of workunits are there, those of other programs stay. Commits
    // nothing; after `Ok` the transaction is still open.
    ensures { WritesSparing S.Store tx.old tx.new result (ReplacesAny workunit.now)
        (SparesWith tables_of_workunits) }
{
    delete_workunit(tx, workunit.number)?;
    add(tx, workunit)
}

/// Sets the row of a workunit, unless it is unchanged.
fn put_row<S: Alter>(
    tx: &mut Transaction<'_, S>,
    was: &Workunit,
    workunit: &Workunit,
) -> Result<(), Error>
    // After `Ok`, if `was` is the present workunit of its number, its row is that of `workunit`.
    // Its instances, its class and a queue stay. If the row is unchanged, nothing is written and
    // the call succeeds. If the tables of workunits are there, those of other programs stay.
    // Commits nothing; after `Ok` the transaction is open if it was.
    ensures { PutsUnless S.Store tx.old tx.new result (bare was.now ≡ bare workunit.now)
        (PutsRow was.now workunit.now) }
{
    if is_same_row(was, workunit) {
        return Ok(());
    }
    set_workunit(tx, workunit)
}

/// Sets the class of a workunit, unless it is unchanged.
fn put_class<S: Alter>(
    tx: &mut Transaction<'_, S>,
    was: &Workunit,
    workunit: &Workunit,
) -> Result<(), Error>
    // After `Ok`, in a world with classes where the row is already that of `workunit`, the class is
    // too. A queue stays. If the class is unchanged, nothing is written and the call succeeds. If
    // the tables of workunits are there, those of other programs stay. Commits nothing; after `Ok`
    // the transaction is open if it was.
    ensures { PutsUnless S.Store tx.old tx.new result (was.now.class ≡ workunit.now.class)
        (PutsClassOf was.now workunit.now) }
{
    if was.class == workunit.class {
        return Ok(());
    }
    set_class(tx, workunit.number, workunit.class)
}

/// Sets the instance of this number, unless it is unchanged. Adds it if there was none.
fn put_instance<S: Alter>(
    tx: &mut Transaction<'_, S>,
    workunit: u64,
    n: u32,
    was: Option<&Instance>,
    instance: &Instance,
) -> Result<(), Error>
    // After `Ok`, if the instance at the place was `was`, or the place is the next and had none, it
    // is the new one. A queue stays. If the instance is unchanged, nothing is written and the call
    // succeeds. If the tables of workunits are there, those of other programs stay. Commits
    // nothing; after `Ok` the transaction is open if it was.
    ensures { PutsUnless S.Store tx.old tx.new result
        (option_map (λ i. i.now) was.entry ≡ Some instance.now)
        (PutsInstance workunit n (option_map (λ i. i.now) was.entry) instance.now) }
{
    match was {
        None => insert_instance(tx, workunit, n, instance),
        Some(was) => {
            if is_same_instance(was, instance) {
                Ok(())
            } else {
                set_instance(tx, workunit, n, instance)
            }
        }
    }
}

/// Makes the instances of a workunit what they are to be: sets those that are not as they were, and adds new ones.
fn put_instances<S: Alter>(
    tx: &mut Transaction<'_, S>,
    was: &[Instance],
    workunit: &Workunit,
) -> Result<(), Error>
    // After `Ok`, if the workunit had the instances `was`, which are no more than those of
    // `workunit`, it has those of `workunit`. A queue stays. If the instances are unchanged,
    // nothing is written and the call succeeds. If the tables of workunits are there, those of
    // other programs stay. Commits nothing; after `Ok` the transaction is open if it was.
    ensures { PutsUnless S.Store tx.old tx.new result (was.now ≡ workunit.now.instances)
        (PutsInstances workunit.now was.now) }
{
    let instances = workunit.instances.as_slice();
    let mut n = 0;
    for instance in instances {
        put_instance(tx, workunit.number, n, was.get(n as usize), instance)?;
        n += 1;
    }
    Ok(())
}

/// Sets the marks of a workunit, unless they are unchanged.
fn put_marks<S: Alter>(
    tx: &mut Transaction<'_, S>,
    was: &Workunit,
    workunit: &Workunit,
) -> Result<(), Error>
    // After `Ok`, if the queue had the marks of `was`, it has those of `workunit` in their place.
    // The world stays. If the marks are unchanged, nothing is written and the call succeeds. If the
    // tables of workunits are there, those of other programs stay. Commits nothing; after `Ok` the
    // transaction is open if it was.
    ensures { PutsUnless S.Store tx.old tx.new result (marks was.now ≡ marks workunit.now)
        (PutsMarks was.now workunit.now) }
{
    let marks = marks_of(workunit);
    if is_same_marks(&marks_of(was), &marks) {
        return Ok(());
    }
    set_marks(tx, workunit.number, &marks)
}

/// Puts a workunit in the place of the present one, with its instances and marks. Writes only what is not as it was. A
/// workunit never has fewer instances than before; one that had would be deleted and added again.
fn replace<S: Alter>(
    tx: &mut Transaction<'_, S>,
    was: &Workunit,
    workunit: &Workunit,
) -> Result<(), Error>
    // After `Ok`, a represented world with classes and the workunit `was` has `workunit` in its
    // place, with class, instances and marks. If the workunit is unchanged, nothing is written and
    // the call succeeds. If the tables of workunits are there, those of other programs stay.
    // Commits nothing; after `Ok` the transaction is open if it was.
    ensures { PutsUnless S.Store tx.old tx.new result (was.now ≡ workunit.now)
        (Replaces was.now workunit.now) }
{
    if workunit.instances.len() < was.instances.len() {
        return replace_whole(tx, workunit);
    }
    put_row(tx, was, workunit)?;
    put_class(tx, was, workunit)?;
    put_instances(tx, was.instances.as_slice(), workunit)?;
    put_marks(tx, was, workunit)
}

/// Adds these rows to a queue that has none, in their order.
fn fill_queue<S: Alter>(tx: &mut Transaction<'_, S>, rows: &[(u64, Marks)]) -> Result<(), Error>
    ensures works { TransactionFrame S.Store tx.old tx.new result }
    // After `Ok`, an empty queue beside a represented world whose marks these are has exactly these
    // rows; the world stays.
    ensures fills { Does S.Store tx.old tx.new result (FillsQueue rows.now) }
    // After `Ok`, if its table is there, the tables of other programs stay.
    ensures spares { Does S.Store tx.old tx.new result (Spares queue_table) }
{
    for row in rows {
        insert_marks(tx, row.0, &row.1)?;
    }
    Ok(())
}

/// Makes the queue with these rows, if this older version has none.
fn upgrade_queue<S: Alter>(
    tx: &mut Transaction<'_, S>,
    from: u64,
    rows: &[(u64, Marks)],
) -> Result<(), Error>
    ensures works { TransactionFrame S.Store tx.old tx.new result }
    // After `Ok`, a represented world of this version whose marks these are has a queue with
    // exactly these rows.
    ensures upgrades { Does S.Store tx.old tx.new result (UpgradesQueue from rows.now) }
    // From version 2 on nothing is written and the call succeeds.
    ensures idle { 2 ≤ from → DoesNothing tx.old tx.new result }
    // After `Ok` the tables of other programs stay.
    ensures spares { Does S.Store tx.old tx.new result SparesOthers }
{
    if from >= QUEUE_VERSION {
        return Ok(());
    }
    make_queue(tx)?;
    fill_queue(tx, rows)
}

/// Makes what this older version lacks of the present one, with these rows, and sets the version.
fn upgrade<S: Alter>(
    tx: &mut Transaction<'_, S>,
    from: u64,
    rows: &[(u64, Marks)],
) -> Result<(), Error>
    // After `Ok`, a represented world of this version without classes, whose marks these are, is at
    // version 3 with its queue. If the tables represented such a world, those of other programs
    // stay. Commits nothing; after `Ok` the transaction is still open.
    ensures { WritesSparing S.Store tx.old tx.new result (Upgrades from rows.now)
        (SparesUpgraded from rows.now) }
{
    upgrade_queue(tx, from, rows)?;
    upgrade_classes(tx, rows)
}

/// Adds the rows of grants at consecutive places, from this one on.
fn insert_grants<S: Alter>(
    tx: &mut Transaction<'_, S>,
    place: u64,
    grants: &[Grant],
) -> Result<(), Error>
    // After `Ok`, if the place is the next one, the table of grants has these after the others.
    // Every other table stays. Commits nothing; after `Ok` the transaction is open if it was.
    ensures { Works S.Store tx.old tx.new result (PutsGrants place grants.now) }
{
    let mut seq = place;
    for grant in grants {
        insert_grant(tx, seq, grant)?;
        seq += 1;
    }
    Ok(())
}

/// Adds each of these sums to those of its host.
fn add_sums<S: Alter>(tx: &mut Transaction<'_, S>, sums: &[HostSum]) -> Result<(), Error>
    // After `Ok`, if the rows of hosts had the sums of some grants, they have those of these grants
    // and any more with these sums. Tables that no foreign key ties to hosts stay. Commits nothing;
    // after `Ok` the transaction is open if it was.
    ensures { Works S.Store tx.old tx.new result (Credits sums.now) }
{
    for sum in sums {
        add_sum(tx, sum)?;
    }
    Ok(())
}

/// Adds grants at consecutive places, from this one on, and these sums to their hosts'. In between the tables represent
/// no world.
fn add_grants<S: Alter>(
    tx: &mut Transaction<'_, S>,
    place: u64,
    grants: &[Grant],
    sums: &[HostSum],
) -> Result<(), Error>
    ensures works { TransactionFrame S.Store tx.old tx.new result }
    // After `Ok`, if the place is the next one and the sums are theirs, each represented world has
    // these grants, and hosts their sums.
    ensures adds { Does S.Store tx.old tx.new result (AddsGrants place grants.now sums.now) }
    // After `Ok` a queue beside a represented world has the same rows.
    ensures queue { Does S.Store tx.old tx.new result KeepsQueue }
    // After `Ok`, if the tables represent a world, the tables of other programs stay.
    ensures spares { Does S.Store tx.old tx.new result SparesBeside }
{
    insert_grants(tx, place, grants)?;
    add_sums(tx, sums)
}

/// Makes one change.
fn make<S: Alter>(tx: &mut Transaction<'_, S>, change: &Change<'_>) -> Result<(), Error>
    // After `Ok`, if the change is right for a represented world, the tables and the queue
    // represent that world with it made. Commits nothing; after `Ok` the transaction is open if it
    // was.
    ensures { Works S.Store tx.old tx.new result (MakesWorlds (change.now ∷ [])) }
{
    match change {
        Change::Add(workunit) => add(tx, workunit),
        Change::Replace(was, now) => replace(tx, was, now),
        Change::Remove(number) => delete_workunit(tx, *number),
        Change::Grants(place, grants, sums) => add_grants(
            tx,
            *place,
            grants.as_slice(),
            sums.as_slice(),
        ),
        Change::Archive(seq, archived) => insert_archived(tx, *seq, archived),
        Change::Next(number) => set_next_number(tx, *number),
        Change::Keep(import) => insert_import(tx, import),
        Change::Class(host, class) => put_host_class(tx, host, *class),
        Change::Upgrade(from, rows) => upgrade(tx, *from, rows.as_slice()),
    }
}

/// Makes all changes inside a transaction, one after another.
pub fn apply<S: Alter>(tx: &mut Transaction<'_, S>, changes: &[Change<'_>]) -> Result<(), Error>
    // After `Ok`, if the changes are right for a represented world, the tables represent that world
    // with all of them made. From version 2 on the queue then has the marks of each workunit, and
    // no other rows. The tables of other programs stay, if they have no foreign key. Commits
    // nothing; after `Ok` the transaction is open if it was.
    ensures { Works S.Store tx.old tx.new result (MakesWorlds changes.now) }
{
    for change in changes {
        make(tx, change)?;
    }
    Ok(())
}
