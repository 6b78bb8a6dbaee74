//! A project that is filled with a world: all changes in one transaction.

ghost use Rattle.std.specs.Prelude.{◌≡◌, false, IfErr, OnErr};
ghost use Rattle.wu_refill.specs.Making.{IsFreshOrFilled, MakesFilled, MakesOfEmpty};
ghost use Rattle.wu_refill.specs.Refilling.{MayBeRefilled};
ghost use Rattle.wu_schema.specs.Calls.{Commits, CrashAllows, GoesBack, Refuses};
ghost use Rattle.wu_schema.specs.Faults.{IsStoreFault};
ghost use Rattle.wu_store.specs.Changing.{MakesWorlds};

use crate::filling::changes_of;
use sqlite::{Alter, Connection, Error, Transaction};
use std::alloc::Global;
use wu_audit::Loaded;
use wu_core::Fault;
use wu_schema::{TransactionWork, create, transact};
use wu_store::{Change, apply};

/// The changes that make a world, as the work of one transaction.
#[derive(Clone, Copy)]
struct Filling<'a>(&'a [Change<'a>]);

impl<'a> TransactionWork for Filling<'a> {
    ghost makes = { λ filling. MakesWorlds filling.0.now };

    fn run<S: Alter>(&self, tx: &mut Transaction<'_, S>) -> Result<(), Error> {
        apply(tx, self.0)
    }
}

/// Makes a world of an empty project, in one transaction.
///
/// `NotAProject` means that a statement was refused. After `Memory` or `Broken` a later opening of the files may find
/// the tables as they were, or with the world.
pub fn refill<S: Alter>(conn: &mut Connection<S>, alloc: Global, world: Loaded) -> Result<(), Fault>
    // The connection is not inside a transaction.
    requires idle { conn.old.in_transaction ≡ false }
    // The world is of the present version and in order, and its imports may be kept.
    requires may { MayBeRefilled world }
    // Afterwards the connection is not inside a transaction.
    ensures mode { conn.new.in_transaction ≡ false }
    // With Ok, tables that represented the empty world represent this one, and that is committed.
    // The tables of other programs stay. The connection is open, and a crash leaves only these
    // tables.
    ensures done { Commits S.Store conn.old conn.new result (MakesOfEmpty world) }
    // Each fault is one of the store: `Memory`, `Broken` or `NotAProject`.
    ensures told { IfErr result IsStoreFault }
    // After `NotAProject` the connection is open, the tables are as before, and a crash leaves only
    // them.
    ensures refused { Refuses S.Store conn.old conn.new result }
    // After any fault an open connection shows what it showed, or its last commit.
    ensures back { OnErr result (GoesBack S.Store conn.old conn.new) }
    // Whatever the answer, a crash leaves what it could have left before the call, or the tables
    // with the world.
    ensures crash { CrashAllows S.Store conn.old conn.new (MakesOfEmpty world) }
{
    let (parts, imports) = world.into_parts();
    let changes = changes_of(alloc, parts, imports.as_slice())?;
    transact(conn, &Filling(changes.as_slice()))
}

/// Makes a project with a world, in a database that has none of a project's tables. Tables of other names stay.
///
/// It is two transactions: the empty project is made, and then filled. `NotAProject` means that a name is taken, or
/// that a statement was refused.
pub fn create_filled<S: Alter>(
    conn: &mut Connection<S>,
    alloc: Global,
    world: Loaded,
) -> Result<(), Fault>
    // The connection is not inside a transaction.
    requires idle { conn.old.in_transaction ≡ false }
    // The world is of the present version and in order, and its imports may be kept.
    requires may { MayBeRefilled world }
    // Afterwards the connection is not inside a transaction.
    ensures mode { conn.new.in_transaction ≡ false }
    // With Ok, none of a project's names was taken. The tables represent the world, and that is
    // committed. The tables of other programs stay, if they have no foreign key. The connection is
    // open, and a crash leaves only these tables.
    ensures done { Commits S.Store conn.old conn.new result (MakesFilled world) }
    // Each fault is one of the store: `Memory`, `Broken` or `NotAProject`.
    ensures told { IfErr result IsStoreFault }
    // Whatever the answer, a crash leaves what it could have left before the call, or an empty
    // project, or one with the world.
    ensures crash { CrashAllows S.Store conn.old conn.new (IsFreshOrFilled world) }
{
    create(conn)?;
    refill(conn, alloc, world)
}
