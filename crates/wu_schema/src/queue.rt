//! The queue of schema version 2: its table and its indexes.

ghost use Rattle.std.specs.Prelude.{⊤};
ghost use Rattle.wu_schema.specs.Calls.{Creates};
ghost use Rattle.wu_schema.specs.Indexes.{mark_indexes, moment_indexes};
ghost use Rattle.wu_schema.specs.Queue.{HasEmpty, MakesIndexes, MakesQueue, queue_table};

use crate::texts::{
    CREATE_QUEUE, CREATE_QUEUE_ASSIMILATE, CREATE_QUEUE_DELETE, CREATE_QUEUE_PURGE,
    CREATE_QUEUE_VALIDATE, CREATE_QUEUE_WAKE,
};
use crate::transaction::execute;
use sqlite::{Alter, Error, Transaction};

/// Makes the indexes by which a pass finds the workunits with its mark, in order of number.
fn create_mark_indexes<S: Alter>(tx: &mut Transaction<'_, S>) -> Result<(), Error>
    ensures { Creates S.Store tx.old tx.new result (MakesIndexes queue_table mark_indexes)
        (HasEmpty queue_table) }
{
    execute(tx, CREATE_QUEUE_VALIDATE, &[])?;
    execute(tx, CREATE_QUEUE_ASSIMILATE, &[])?;
    execute(tx, CREATE_QUEUE_DELETE, &[])
}

/// Makes the indexes by which a pass finds the workunits that are due at a moment.
fn create_moment_indexes<S: Alter>(tx: &mut Transaction<'_, S>) -> Result<(), Error>
    ensures { Creates S.Store tx.old tx.new result (MakesIndexes queue_table moment_indexes)
        (HasEmpty queue_table) }
{
    execute(tx, CREATE_QUEUE_WAKE, &[])?;
    execute(tx, CREATE_QUEUE_PURGE, &[])
}

/// Makes the queue, with its indexes and no row, inside a transaction.
///
/// Returns the store's error if one of the names is taken. What was made before the error goes with the transaction.
pub fn make_queue<S: Alter>(tx: &mut Transaction<'_, S>) -> Result<(), Error>
    // After `Ok` the empty queue with its five indexes, and nothing else, is added, nothing had their
    // names, each represented world stays, and the transaction is still open. Commits nothing, so a
    // crash leaves what it left before. An error that counts as `Broken` means that the disk failed
    // in this call, or that the connection was not open.
    ensures { Creates S.Store tx.old tx.new result MakesQueue (λ _. ⊤) }
{
    execute(tx, CREATE_QUEUE, &[])?;
    create_mark_indexes(tx)?;
    create_moment_indexes(tx)
}
