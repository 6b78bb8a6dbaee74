//! The one function that commits a command's changes.

ghost use Rattle.std.specs.Prelude.{◌≡◌, false};
ghost use Rattle.wu_schema.specs.Calls.{Transacts};
ghost use Rattle.wu_store.specs.Changing.{MakesWorlds};

use sqlite::{Alter, Connection, Error, Transaction};
use wu_core::Fault;
use wu_schema::{TransactionWork, transact};
use wu_store::{Change, apply};

/// The changes of a command, as the work of one transaction.
#[derive(Clone, Copy)]
struct Changes<'a>(&'a [Change<'a>]);

impl<'a> TransactionWork for Changes<'a> {
    ghost makes = { λ changes. MakesWorlds changes.0.now };

    fn run<S: Alter>(&self, tx: &mut Transaction<'_, S>) -> Result<(), Error> {
        apply(tx, self.0)
    }
}

/// Makes all changes in one transaction.
///
/// `NotAProject` means that a statement was refused. After `Memory` or `Broken` a later opening of the files may find
/// the tables as they were, or with all changes.
pub fn change_all<S: Alter>(conn: &mut Connection<S>, changes: &[Change<'_>]) -> Result<(), Fault>
    // The connection is not inside a transaction.
    requires { conn.old.in_transaction ≡ false }
    // Afterwards the connection is not inside a transaction. With Ok, a represented world for which
    // the changes are right is represented with all of them made, and committed. The tables of other
    // programs stay. The connection is open, and a crash leaves only these tables. A fault is
    // `Memory`, `Broken` or `NotAProject`. After it the tables are as before while the connection is
    // open, and then a crash leaves only them. After `NotAProject` the connection is open. Whatever
    // the answer, a crash leaves what it could have left before the call, or the tables with all
    // changes.
    ensures { Transacts S.Store conn.old conn.new result (MakesWorlds changes.now) }
{
    transact(conn, &Changes(changes))
}
