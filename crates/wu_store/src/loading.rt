//! What is loaded of a project, each by a query of its own: a workunit with its instances, an import, the next number,
//! and the next places.

ghost use Rattle.std.specs.Prelude.{◌<◌, ◌≤◌, ◌^◌, ⊤, map, IfOk};
ghost use Rattle.wu_store.specs.Reads.{FindsAt, ReadsWorld, ReadsWorldIf};
ghost use Rattle.wu_store.specs.Loading.{FindsAbove, FindsClassless, FindsEarlier, FindsEarly, FindsIfThere, FindsInstances, FindsNamed, FindsNumbered, LoadsInstances, LoadsImport, IsLoadableIfThere, IsPlaceToGive, IsWholeIfThere, KnowsArchivedPlace, KnowsGrantPlace, KnowsNext, LoadsAbove, LoadsEarly, LoadsFormed, LoadsNamed, LoadsNumbered};
ghost use Rattle.wu_schema.specs.Restoring.{Restores};
ghost use Rattle.wu_schema.specs.Stored.{instance_row};
ghost use Rattle.wu_store.specs.Answers.{row_before, row_numbered};
ghost use Rattle.wu_core.specs.Storable.{AreStoredInstances, IsNextNumber, LoadsNext};

use crate::classes::class_of_workunit;
use crate::statements::{ask_row, key_of};
use crate::texts::{
    SELECT_ABOVE, SELECT_IMPORT, SELECT_INSTANCES, SELECT_LAST_ARCHIVED, SELECT_LAST_GRANT,
    SELECT_NAMED, SELECT_NEXT_NUMBER, SELECT_NUMBERED,
};
use sqlite::{Alter, Connection, Row, params};
use std::alloc::Global;
use wu_core::{Fault, ImportKind, Instances, MOST_INSTANCES, Name, Workunit};
use wu_schema::rows::{StoredImport, import_from, instance_from, next_number_from, workunit_from};
use wu_schema::{query, read_column};

/// Reads the instances of such rows of the table `result`, in their order: those of one workunit, which has at most
/// 100.
fn instances_from(alloc: Global, rows: &[Row]) -> Result<Instances, Fault>
    // Rows of at most 100 well-formed instances with values in range are read as these, or out of
    // memory; any others are refused.
    ensures { Restores (map instance_row) AreStoredInstances rows.now result }
{
    if rows.len() > MOST_INSTANCES as usize {
        return Err(Fault::NotAProject);
    }
    let mut instances = Vec::new(alloc);
    for row in rows {
        instances.push(instance_from(alloc, row)?)?;
    }
    Ok(Instances::from_vec(instances))
}

/// Returns the instances of the workunit of this number, in their order, or none if the workunit is not there.
fn instances_of<S: Alter>(
    conn: &mut Connection<S>,
    alloc: Global,
    workunit: u64,
) -> Result<Instances, Fault>
    ensures stored { IfOk result AreStoredInstances }
    // For a number below 2^63 the connection is open afterwards, except after `Memory` and
    // `Broken`.
    // In each represented world these are the instances of the workunit of this number, or none if
    // it is not there.
    // Over a represented world, those instances readable, with no limit on steps and a number below
    // 2^63, `NotAProject` is not returned.
    ensures reads { ReadsWorldIf S.Store conn.old conn.new result (workunit < 2 ^ 63)
        (FindsInstances workunit) (LoadsInstances workunit) }
{
    let key = key_of(workunit)?;
    let rows = query(conn, SELECT_INSTANCES, params![key])?;
    instances_from(alloc, &rows)
}

/// Returns the workunit of a row, with its instances and without its class, or `None` if there is no row. Returns
/// `NotAProject` if it is not well formed.
fn loaded<S: Alter>(
    conn: &mut Connection<S>,
    alloc: Global,
    row: Option<Row>,
) -> Result<Option<Workunit>, Fault>
    ensures formed { LoadsFormed result }
    // In each represented world with the workunit of that row it is this one with its instances and
    // class 0; `None` without a row.
    ensures reads { ReadsWorldIf S.Store conn.old conn.new result ⊥ (FindsClassless row)
        (IsLoadableIfThere row) }
{
    let Some(row) = row else {
        return Ok(None);
    };
    let mut workunit = workunit_from(alloc, &row)?;
    workunit.instances = instances_of(conn, alloc, workunit.number)?;
    if workunit.has_its_instances() {
        Ok(Some(workunit))
    } else {
        Err(Fault::NotAProject)
    }
}

/// Returns the workunit of a row, with its class and its instances, or `None` if there is no row. Returns `NotAProject`
/// if it has no class, or is not well formed.
fn whole<S: Alter>(
    conn: &mut Connection<S>,
    alloc: Global,
    row: Option<Row>,
) -> Result<Option<Workunit>, Fault>
    ensures formed { LoadsFormed result }
    // In each represented world with classes and the workunit of that row it is this one; `None`
    // without a row.
    ensures reads { ReadsWorldIf S.Store conn.old conn.new result ⊥ (FindsIfThere row)
        (IsWholeIfThere row) }
{
    let Some(mut workunit) = loaded(conn, alloc, row)? else {
        return Ok(None);
    };
    match class_of_workunit(conn, workunit.number)? {
        Some(class) => {
            workunit.class = class;
            Ok(Some(workunit))
        }
        None => Err(Fault::NotAProject),
    }
}

/// Returns the row of the workunit of this number, or `None` if there is none. Returns `NotAProject` if the number is
/// not below 2^63.
fn numbered_row<S: Alter>(conn: &mut Connection<S>, number: u64) -> Result<Option<Row>, Fault>
    // It is the row that the workunit of this number has in each represented world, or `None` if
    // there is none.
    ensures reads { ReadsWorldIf S.Store conn.old conn.new result (number < 2 ^ 63)
        (FindsAt (row_numbered number)) (λ _. number < 2 ^ 63) }
{
    let key = key_of(number)?;
    ask_row(conn, SELECT_NUMBERED, params![key])
}

/// Returns the workunit of this number, with its class and its instances, or `None` if there is none.
///
/// Returns `NotAProject` if a row is invalid, the workunit is not well formed, or the number is not below 2^63.
pub fn load<S: Alter>(
    conn: &mut Connection<S>,
    alloc: Global,
    number: u64,
) -> Result<Option<Workunit>, Fault>
    // A workunit that is returned is well formed, whatever the tables hold.
    ensures formed { LoadsFormed result }
    // For a number below 2^63 the connection is open afterwards, except after `Memory` and
    // `Broken`.
    // It only reads, and a fault is `Memory`, `Broken` or `NotAProject`.
    // In each represented world with classes it is the workunit of this number with class and
    // instances, or `None` if there is none.
    // Over a represented world with classes, that workunit readable, with no limit on steps and a
    // number below 2^63, `NotAProject` is not returned.
    ensures reads { ReadsWorldIf S.Store conn.old conn.new result (number < 2 ^ 63)
        (FindsNumbered number) (LoadsNumbered number) }
{
    let row = numbered_row(conn, number)?;
    whole(conn, alloc, row)
}

/// Returns the workunit of this number, with its instances, or `None` if there is none, in a project without classes.
///
/// Returns `NotAProject` if a row is invalid, the workunit is not well formed, or the number is not below 2^63.
pub fn load_early<S: Alter>(
    conn: &mut Connection<S>,
    alloc: Global,
    number: u64,
) -> Result<Option<Workunit>, Fault>
    // A workunit that is returned is well formed, whatever the tables hold.
    ensures formed { LoadsFormed result }
    // For a number below 2^63 the connection is open afterwards, except after `Memory` and
    // `Broken`.
    // It only reads, and a fault is `Memory`, `Broken` or `NotAProject`.
    // In each represented world without classes it is the workunit of this number with its
    // instances, or `None` if there is none.
    // Over a represented world without classes, that workunit readable, with no limit on steps and
    // a number below 2^63, `NotAProject` is not returned.
    ensures reads { ReadsWorldIf S.Store conn.old conn.new result (number < 2 ^ 63)
        (FindsEarly number) (LoadsEarly number) }
{
    let row = numbered_row(conn, number)?;
    loaded(conn, alloc, row)
}

/// Returns the workunit of the least number above this one, with its instances, or `None` if there is none, in a
/// project without classes.
///
/// Returns `NotAProject` if a row is invalid, the workunit is not well formed, or the number is not below 2^63.
pub fn load_above<S: Alter>(
    conn: &mut Connection<S>,
    alloc: Global,
    number: u64,
) -> Result<Option<Workunit>, Fault>
    // A workunit that is returned is well formed, whatever the tables hold.
    ensures formed { LoadsFormed result }
    // For a number below 2^63 the connection is open afterwards, except after `Memory` and
    // `Broken`.
    // It only reads, and a fault is `Memory`, `Broken` or `NotAProject`.
    // In each represented world without classes it is the first workunit above this number with its
    // instances, or `None` if there is none.
    // Over a represented world without classes, that workunit readable, with no limit on steps and
    // a number below 2^63, `NotAProject` is not returned.
    ensures reads { ReadsWorldIf S.Store conn.old conn.new result (number < 2 ^ 63)
        (FindsAbove number) (LoadsAbove number) }
{
    let key = key_of(number)?;
    let row = ask_row(conn, SELECT_ABOVE, params![key])?;
    loaded(conn, alloc, row)
}

/// Returns the workunit of this name, with its class and its instances, or `None` if there is none. Returns
/// `NotAProject` if a row is invalid, or if the workunit is not well formed.
pub fn load_named<S: Alter>(
    conn: &mut Connection<S>,
    alloc: Global,
    name: &Name,
) -> Result<Option<Workunit>, Fault>
    // A workunit that is returned is well formed, whatever the tables hold.
    ensures formed { LoadsFormed result }
    // The connection is open afterwards, except after `Memory` and `Broken`.
    // It only reads, and a fault is `Memory`, `Broken` or `NotAProject`.
    // In each represented world with classes it is the workunit of this name with class and
    // instances, or `None` if there is none.
    // Over a represented world with classes, that workunit readable, with no limit on steps,
    // `NotAProject` is not returned.
    ensures reads { ReadsWorld S.Store conn.old conn.new result (FindsNamed name.now)
        (LoadsNamed name.now) }
{
    let row = ask_row(conn, SELECT_NAMED, params![name.as_str()])?;
    whole(conn, alloc, row)
}

/// Returns the import of this kind and name, or `None` if there was none. Returns `NotAProject` if its row is invalid.
pub fn import_of<S: Alter>(
    conn: &mut Connection<S>,
    alloc: Global,
    kind: ImportKind,
    name: &Name,
) -> Result<Option<StoredImport>, Fault>
    // The connection is open afterwards, except after `Memory` and `Broken`.
    // It only reads, and a fault is `Memory`, `Broken` or `NotAProject`.
    // In each represented world it is the stored import of this kind and name: content and first
    // answer; or `None` if there is none.
    // Over a represented world where that import's verdicts are of its kind, with no limit on
    // steps, `NotAProject` is not returned.
    ensures reads { ReadsWorld S.Store conn.old conn.new result (FindsEarlier kind name.now)
        (LoadsImport kind name.now) }
{
    let rows = query(conn, SELECT_IMPORT, params![kind.code(), name.as_str()])?;
    match rows.first() {
        Some(row) => Ok(Some(import_from(alloc, kind, row)?)),
        None => Ok(None),
    }
}

/// Returns the number that the next workunit gets, from 1 to one past the last. Returns `NotAProject` if its row has no
/// such number.
pub fn next_number<S: Alter>(conn: &mut Connection<S>) -> Result<u64, Fault>
    // The number is from 1 to one more than there may be workunits ever.
    ensures within { IfOk result IsNextNumber }
    // The connection is open afterwards, except after `Memory` and `Broken`.
    // It only reads, and a fault is `Memory`, `Broken` or `NotAProject`.
    // It is the next number of each represented world.
    // Over a represented world with such a next number and no limit on steps, `NotAProject` is not
    // returned.
    ensures reads { ReadsWorld S.Store conn.old conn.new result KnowsNext LoadsNext }
{
    let row = ask_row(conn, SELECT_NEXT_NUMBER, &[])?;
    match row {
        Some(row) => next_number_from(&row),
        None => Err(Fault::NotAProject),
    }
}

/// Returns the place after the last one, whose row this is, or 1 if there is no row. Returns `NotAProject` if the row
/// has no place.
fn place_behind(last: Option<Row>) -> Result<u64, Fault>
    // The row of a place from 1 on is read as the next place, and no row as 1; any other row is
    // refused.
    ensures reads { Restores row_before (λ place. 1 ≤ place) last result }
    ensures within { IfOk result IsPlaceToGive }
{
    let Some(row) = last else {
        return Ok(1);
    };
    if row.column_count() != 1 {
        return Err(Fault::NotAProject);
    }
    let place: i64 = read_column(&row, 0)?;
    if place < 1 {
        return Err(Fault::NotAProject);
    }
    Ok(place as u64 + 1)
}

/// Returns the place that the next grant gets, from 1. Returns `NotAProject` if the last row has no place.
pub fn next_grant_place<S: Alter>(conn: &mut Connection<S>) -> Result<u64, Fault>
    // The place is from 1 to 2^63.
    ensures within { IfOk result IsPlaceToGive }
    // The connection is open afterwards, except after `Memory` and `Broken`.
    // It only reads, and a fault is `Memory`, `Broken` or `NotAProject`.
    // It is the place after all grants of each represented world, counted from 1.
    // Over a represented world, with no limit on steps, `NotAProject` is not returned.
    ensures reads { ReadsWorld S.Store conn.old conn.new result KnowsGrantPlace (λ _. ⊤) }
{
    let last = ask_row(conn, SELECT_LAST_GRANT, &[])?;
    place_behind(last)
}

/// Returns the place that the next archived workunit gets, from 1. Returns `NotAProject` if the last row has no place.
pub fn next_archived_place<S: Alter>(conn: &mut Connection<S>) -> Result<u64, Fault>
    // The place is from 1 to 2^63.
    ensures within { IfOk result IsPlaceToGive }
    // The connection is open afterwards, except after `Memory` and `Broken`.
    // It only reads, and a fault is `Memory`, `Broken` or `NotAProject`.
    // It is the place after all archived rows of each represented world, counted from 1.
    // Over a represented world, with no limit on steps, `NotAProject` is not returned.
    ensures reads { ReadsWorld S.Store conn.old conn.new result KnowsArchivedPlace (λ _. ⊤) }
{
    let last = ask_row(conn, SELECT_LAST_ARCHIVED, &[])?;
    place_behind(last)
}
