//! The statements of classes, and the queries for them, each text in one function.

ghost use Rattle.std.specs.Prelude.{◌<◌, ◌^◌};
ghost use Rattle.wu_schema.specs.Calls.{Does, StatementFrame, TransactionFrame};
ghost use Rattle.wu_schema.specs.Made.{host_class_table, workunit_class_table};
ghost use Rattle.wu_schema.specs.Others.{Spares, SparesBeside};
ghost use Rattle.wu_store.specs.Classes.{AddsClass, ChangesClasses, FillsClasses, LoadsClass, LoadsHostClass, PutsClass, UpgradesClasses, class_named, class_numbered, with_classed_host, with_set_class};
ghost use Rattle.wu_store.specs.Reads.{FindsAt, ReadsClassed, ReadsClassedIf};
ghost use Rattle.wu_store.specs.Writes.{WritesSparing};

use crate::statements::{ask_row, key_of, set_version, signed};
use crate::texts::{
    DELETE_HOST_CLASS, INSERT_CLASS, INSERT_HOST_CLASS, SELECT_CLASS, SELECT_HOST_CLASS,
    UPDATE_CLASS,
};
use sqlite::{Alter, Connection, Error, Transaction, params};
use wu_core::{CLASS_VERSION, Fault, Marks, Name};
use wu_schema::rows::class_at;
use wu_schema::{execute, make_classes};

/// Adds the class of a workunit, at its place in order of number. The table's key refuses a number that is there, and
/// its reference one that no workunit has.
pub fn insert_class<S: Alter>(
    tx: &mut Transaction<'_, S>,
    workunit: u64,
    class: u32,
) -> Result<(), Error>
    // Commits nothing, so a crash leaves what it left before; after `Ok` the transaction is still
    // open.
    ensures writes { StatementFrame S.Store tx.old tx.new result }
    // After `Ok` the table of workunits' classes has this number and class, and every other table
    // stays.
    ensures puts { Does S.Store tx.old tx.new result (PutsClass workunit class) }
    // After `Ok`, tables of classes beside a world of an older version have this class at its
    // place; the world and a queue stay.
    ensures adds { Does S.Store tx.old tx.new result (AddsClass workunit class) }
    // After `Ok`, if its table is there, the tables of other programs stay.
    ensures spares { Does S.Store tx.old tx.new result (Spares workunit_class_table) }
{
    let workunit = signed(workunit)?;
    execute(tx, INSERT_CLASS, params![workunit, class])
}

/// Adds class 0 for the workunit of each of these rows to tables of classes that have none, in their order.
fn fill_classes<S: Alter>(tx: &mut Transaction<'_, S>, rows: &[(u64, Marks)]) -> Result<(), Error>
    ensures works { TransactionFrame S.Store tx.old tx.new result }
    // After `Ok`, empty tables of classes beside an older world whose marks these are have class 0
    // for each workunit; all else stays.
    ensures fills { Does S.Store tx.old tx.new result (FillsClasses rows.now) }
    // After `Ok`, if its table is there, the tables of other programs stay.
    ensures spares { Does S.Store tx.old tx.new result (Spares workunit_class_table) }
{
    for row in rows {
        insert_class(tx, row.0, 0)?;
    }
    Ok(())
}

/// Makes the tables of classes beside an older version, with class 0 for the workunit of each of these rows. Sets the
/// version that has them.
pub fn upgrade_classes<S: Alter>(
    tx: &mut Transaction<'_, S>,
    rows: &[(u64, Marks)],
) -> Result<(), Error>
    // After `Ok`, a represented older world whose marks these are is at version 3, with class 0 for
    // each workunit; a queue stays. If the tables represent a world, the tables of other programs
    // stay. Commits nothing; after `Ok` the transaction is still open.
    ensures { WritesSparing S.Store tx.old tx.new result (UpgradesClasses rows.now) SparesBeside }
{
    make_classes(tx)?;
    fill_classes(tx, rows)?;
    set_version(tx, CLASS_VERSION)
}

/// Sets the class of the workunit of this number.
pub fn set_class<S: Alter>(
    tx: &mut Transaction<'_, S>,
    workunit: u64,
    class: u32,
) -> Result<(), Error>
    // After `Ok`, in a represented world with classes the workunit of this number has this class.
    // All else and a queue stay. If its table is there, the tables of other programs stay. Commits
    // nothing; after `Ok` the transaction is still open.
    ensures { WritesSparing S.Store tx.old tx.new result
        (ChangesClasses (with_set_class workunit class)) (Spares workunit_class_table) }
{
    let workunit = signed(workunit)?;
    execute(tx, UPDATE_CLASS, params![workunit, class])
}

/// Sets the class of a host: deletes its row, if it has one, and adds a new one.
pub fn put_host_class<S: Alter>(
    tx: &mut Transaction<'_, S>,
    host: &Name,
    class: u32,
) -> Result<(), Error>
    // After `Ok`, in a represented world with classes the host has this class; each other host, all
    // else and a queue stay. If its table is there, the tables of other programs stay. Commits
    // nothing; after `Ok` the transaction is still open.
    ensures { WritesSparing S.Store tx.old tx.new result
        (ChangesClasses (with_classed_host host.now class)) (Spares host_class_table) }
{
    execute(tx, DELETE_HOST_CLASS, params![host.as_str()])?;
    execute(tx, INSERT_HOST_CLASS, params![host.as_str(), class])
}

/// Returns the class of the workunit of this number, or `None` if it is not there.
///
/// Returns `NotAProject` if its row is invalid, or if the number is not below 2^63.
pub fn class_of_workunit<S: Alter>(
    conn: &mut Connection<S>,
    number: u64,
) -> Result<Option<u32>, Fault>
    // For a number below 2^63 the connection is open afterwards, except after `Memory` and
    // `Broken`.
    // It only reads, and a fault is `Memory`, `Broken` or `NotAProject`.
    // In each represented world with classes it is the class of the workunit of this number, or
    // `None` if there is none.
    // Over a represented world with classes, that class in range, with no limit on steps and a
    // number below 2^63, `NotAProject` is not returned.
    ensures reads { ReadsClassedIf S.Store conn.old conn.new result (number < 2 ^ 63)
        (FindsAt (class_numbered number)) (LoadsClass number) }
{
    let key = key_of(number)?;
    let row = ask_row(conn, SELECT_CLASS, params![key])?;
    match row {
        Some(row) => Ok(Some(class_at(&row, 0)?)),
        None => Ok(None),
    }
}

/// Returns the class of the host of this name: 0 if no file named it. Returns `NotAProject` if its row is invalid.
pub fn class_of<S: Alter>(conn: &mut Connection<S>, host: &Name) -> Result<u32, Fault>
    // The connection is open afterwards, except after `Memory` and `Broken`.
    // It only reads, and a fault is `Memory`, `Broken` or `NotAProject`.
    // It is the class that the host has in each represented world with classes, 0 if no file named
    // it.
    // Over a represented world with classes, that class in range, with no limit on steps,
    // `NotAProject` is not returned.
    ensures reads { ReadsClassed S.Store conn.old conn.new result (FindsAt (class_named host.now))
        (LoadsHostClass host.now) }
{
    let row = ask_row(conn, SELECT_HOST_CLASS, params![host.as_str()])?;
    match row {
        Some(row) => class_at(&row, 0),
        None => Ok(0),
    }
}
