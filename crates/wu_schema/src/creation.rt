//! The creation of a project, in one transaction.

ghost use Rattle.std.specs.Prelude.{◌≡◌, ⊤, false, IfErr};
ghost use Rattle.sqlite.specs.Effect.{IsDatabase};
ghost use Rattle.wu_schema.specs.Fresh.{MakesProject, RefusesTaken};
ghost use Rattle.wu_schema.specs.Made.{HasBareProject, MakesEmpty, MakesTables, PutsProject, work_tables, record_tables};
ghost use Rattle.wu_schema.specs.Calls.{BreaksTruly, Creates, Transacts};

use crate::classes::create_classes;
use crate::queue::make_queue;
use crate::texts::{
    CREATE_ARCHIVED, CREATE_CREDIT_GRANT, CREATE_HOST, CREATE_IMPORT, CREATE_PROJECT,
    CREATE_RESULT, CREATE_WORKUNIT, INSERT_PROJECT,
};
use crate::transaction::{TransactionWork, execute, transact};
use sqlite::{Alter, Connection, Error, Transaction, params};
use wu_core::{Fault, PRESENT_VERSION};

/// Adds the one row of the project: this version, and 1 as the number of the next workunit.
fn insert_project<S: Alter>(tx: &mut Transaction<'_, S>, version: i64) -> Result<(), Error>
    // After `Ok` the table `project` has the row of a fresh project of this version, and every
    // other table stays.
    ensures { Creates S.Store tx.old tx.new result (PutsProject version) HasBareProject }
{
    execute(tx, INSERT_PROJECT, params![version])
}

/// Makes the tables of a project and of its workunits.
fn create_work<S: Alter>(tx: &mut Transaction<'_, S>) -> Result<(), Error>
    // After `Ok` `project`, `workunit` and `result` are there and empty, nothing had their names,
    // and what was there stays.
    ensures { Creates S.Store tx.old tx.new result (MakesTables work_tables) (λ _. ⊤) }
{
    execute(tx, CREATE_PROJECT, &[])?;
    execute(tx, CREATE_WORKUNIT, &[])?;
    execute(tx, CREATE_RESULT, &[])
}

/// Makes the tables of what is kept permanently.
fn create_records<S: Alter>(tx: &mut Transaction<'_, S>) -> Result<(), Error>
    // After `Ok` the tables of grants, hosts, the archive and imports are there and empty, nothing
    // had their names, and what was there stays.
    ensures { Creates S.Store tx.old tx.new result (MakesTables record_tables) (λ _. ⊤) }
{
    execute(tx, CREATE_CREDIT_GRANT, &[])?;
    execute(tx, CREATE_HOST, &[])?;
    execute(tx, CREATE_ARCHIVED, &[])?;
    execute(tx, CREATE_IMPORT, &[])
}

/// Makes all tables of the present version except the queue, with the row of a fresh project.
fn create_empty<S: Alter>(tx: &mut Transaction<'_, S>) -> Result<(), Error>
    // After `Ok` these tables represent the empty world, nothing had their names, nothing else is
    // added, and what was there stays.
    ensures { Creates S.Store tx.old tx.new result MakesEmpty IsDatabase }
{
    create_work(tx)?;
    create_records(tx)?;
    create_classes(tx)?;
    insert_project(tx, PRESENT_VERSION as i64)
}

/// Makes all tables of the present version, with the row of a fresh project.
fn create_all<S: Alter>(tx: &mut Transaction<'_, S>) -> Result<(), Error>
    // After `Ok` the tables and an empty queue represent the empty world, nothing had their names,
    // and what was there stays.
    ensures { Creates S.Store tx.old tx.new result MakesProject IsDatabase }
{
    create_empty(tx)?;
    make_queue(tx)
}

/// The creation of a project, as the work of one transaction.
#[derive(Clone, Copy)]
struct Creation;

impl TransactionWork for Creation {
    ghost makes = { λ _. MakesProject };

    ghost breaks_over = { λ _. IsDatabase };

    fn run<S: Alter>(&self, tx: &mut Transaction<'_, S>) -> Result<(), Error> {
        create_all(tx)
    }
}

/// Makes a fresh project of the present version in a database where none of its tables is there yet. Tables of other
/// names stay.
///
/// Returns `NotAProject` if a name is taken; then all is as before. Returns `Memory`, or `Broken` if the disk failed in
/// this call or the connection was not open. After these two a later open may find the database as it was, or the fresh
/// project.
pub fn create<S: Alter>(conn: &mut Connection<S>) -> Result<(), Fault>
    // The connection is in no transaction.
    requires { conn.old.in_transaction ≡ false }
    // The connection is in no transaction afterwards. After `Ok` the new tables represent the empty
    // world with an empty queue, all else is as it was, and exactly this is committed. A fault is
    // `Memory`, `Broken` or `NotAProject`; after it, while the connection is open, the tables are as
    // before, and a crash leaves exactly them. After `NotAProject` the connection is open. Whatever
    // the answer, a crash leaves what it left before, or the fresh project with all else as it was.
    ensures transacts { Transacts S.Store conn.old conn.new result MakesProject }
    // `Broken` means that the disk failed in this call, or that the connection was not open.
    ensures breaks { IfErr result (BreaksTruly S.Store conn.old conn.new) }
    // Where a name of the schema is taken, no project is made: the fault is `NotAProject`,
    // `Memory`, or `Broken` with its cause.
    ensures taken { RefusesTaken S.Store conn.old conn.new result }
{
    // what an open connection shows is a database that obeys its schema
    let _schema = conn.schema();
    transact(conn, &Creation)
}
