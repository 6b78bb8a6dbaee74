//! The statements that set a row in its place, each text in one function.

ghost use Rattle.wu_schema.specs.Made.{result_table, workunit_table};
ghost use Rattle.wu_schema.specs.Queue.{queue_table};
ghost use Rattle.wu_store.specs.Changes.{InstanceLeavesMarks, LeavesMarks, SetsInstance, SetsRow};
ghost use Rattle.wu_store.specs.Queues.{ChangesQueue, KeepsWorld, with_set_marks};
ghost use Rattle.wu_store.specs.Writes.{Writes};

use crate::statements::{run_instance, run_marks, run_workunit};
use crate::texts::{UPDATE_MARKS, UPDATE_RESULT, UPDATE_WORKUNIT};
use sqlite::{Alter, Error, Transaction};
use wu_core::{Instance, Marks, Workunit};

/// Sets the row of the workunit of this number. Its instances stay.
pub fn set_workunit<S: Alter>(tx: &mut Transaction<'_, S>, workunit: &Workunit) -> Result<(), Error>
    // After `Ok`, if a workunit of a represented world has this number, its row is this one; its
    // instances and class stay. If a workunit of a represented world has this number, a queue
    // beside it stays. If its table is there, the tables of other programs stay. Commits nothing;
    // after `Ok` the transaction is still open.
    ensures { Writes S.Store tx.old tx.new result (SetsRow workunit.now)
        (LeavesMarks workunit.now.number) workunit_table }
{
    run_workunit(tx, UPDATE_WORKUNIT, workunit)
}

/// Sets the row of an instance by its workunit's number and its own.
pub fn set_instance<S: Alter>(
    tx: &mut Transaction<'_, S>,
    workunit: u64,
    n: u32,
    instance: &Instance,
) -> Result<(), Error>
    // After `Ok`, if a workunit of a represented world has this instance's number, the instance is
    // in its place, and all else stays. If a workunit of a represented world has an instance of
    // this number, a queue beside it stays. If its table is there, the tables of other programs
    // stay. Commits nothing; after `Ok` the transaction is still open.
    ensures { Writes S.Store tx.old tx.new result (SetsInstance workunit n instance.now)
        (InstanceLeavesMarks workunit n) result_table }
{
    run_instance(tx, UPDATE_RESULT, workunit, n, instance)
}

/// Sets the marks of a workunit in the queue.
pub fn set_marks<S: Alter>(
    tx: &mut Transaction<'_, S>,
    workunit: u64,
    marks: &Marks,
) -> Result<(), Error>
    // After `Ok`, the queue beside a represented world has these marks in place of the workunit's,
    // and all its other rows. A represented world beside a queue stays. If its table is there, the
    // tables of other programs stay. Commits nothing; after `Ok` the transaction is still open.
    ensures { Writes S.Store tx.old tx.new result (ChangesQueue (with_set_marks workunit marks.now))
        KeepsWorld queue_table }
{
    run_marks(tx, UPDATE_MARKS, workunit, marks)
}
