//! The tables of classes of schema version 3.

ghost use Rattle.std.specs.Prelude.{⊤};
ghost use Rattle.wu_schema.specs.Calls.{Creates};
ghost use Rattle.wu_schema.specs.Classes.{MakesClasses};
ghost use Rattle.wu_schema.specs.Made.{MakesTables, class_tables};

use crate::transaction::execute;
use crate::{created, host_class_columns, workunit_class_columns};
use sqlite::{Alter, Error, Transaction};

pub const CREATE_HOST_CLASS: &str = host_class_columns!(created "host_class" "":);

pub const CREATE_WORKUNIT_CLASS: &str = workunit_class_columns!(created "workunit_class" "":);

/// Makes the tables of the classes of hosts and of workunits.
pub fn create_classes<S: Alter>(tx: &mut Transaction<'_, S>) -> Result<(), Error>
    // After `Ok` the two tables of classes are there and empty, nothing had their names, what was
    // there stays, and the transaction is still open. Commits nothing, so a crash leaves what it left
    // before. An error that counts as `Broken` means that the disk failed in this call, or that the
    // connection was not open.
    ensures { Creates S.Store tx.old tx.new result (MakesTables class_tables) (λ _. ⊤) }
{
    execute(tx, CREATE_HOST_CLASS, &[])?;
    execute(tx, CREATE_WORKUNIT_CLASS, &[])
}

/// Makes the tables of classes, with no row, inside a transaction, beside the tables of an older version.
///
/// Returns the store's error if one of the names is taken. What was made before the error goes with the transaction.
pub fn make_classes<S: Alter>(tx: &mut Transaction<'_, S>) -> Result<(), Error>
    // After `Ok` the empty tables of classes, and nothing else, are added; each represented world, a
    // queue and all else stay, and the transaction is still open. Commits nothing, so a crash leaves
    // what it left before. An error that counts as `Broken` means that the disk failed in this call,
    // or that the connection was not open.
    ensures { Creates S.Store tx.old tx.new result MakesClasses (λ _. ⊤) }
{
    create_classes(tx)
}
