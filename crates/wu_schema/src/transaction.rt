//! One transaction: the work that is done in it, and what holds at each exit.

ghost use Rattle.std.specs.Prelude.{◌≡◌, false};
ghost use Rattle.sqlite.specs.Values.{bound};
ghost use Rattle.sqlite.specs.Effect.{Database};
ghost use Rattle.wu_schema.specs.Calls.{BreaksFor, BreaksOver, BreaksStopped, TransactionFrame, Does, RunsStatement, Commits, CrashAllows, Transacts, Undoes};

use crate::fault::{commit_fault_of, fault_after};
use sqlite::{Alter, Connection, Error, Transaction};
use sqlite_value::value::ValueRef;
use wu_core::Fault;

/// Runs one statement inside a transaction.
pub fn execute<S: Alter>(
    tx: &mut Transaction<'_, S>,
    sql: &str,
    params: &[ValueRef<'_>],
) -> Result<(), Error>
    // Commits nothing, so a crash leaves what it left before. After `Ok` the statement ran with these
    // parameters, and the transaction is still open. An error is the one with which the statement was
    // refused, or means that the transaction had ended before.
    ensures { RunsStatement S.Store tx.old tx.new result sql.now (bound params.now) }
{
    tx.execute(sql, params)?;
    Ok(())
}

/// What is done in one transaction.
pub trait TransactionWork {
    /// What it makes of a database.
    ghost makes: { Self → Database → Database → Type 0 };

    /// The databases over which an error that counts as `Broken` means that the disk failed, or that the connection was
    /// not open. By default there are none.
    ghost breaks_over: { Self → Database → Type 0 } = { λ _ _. ⊥ };

    /// Makes the changes. It begins and ends no transaction.
    fn run<S: Alter>(&self, tx: &mut Transaction<'_, S>) -> Result<(), Error>
        // Commits nothing, so a crash leaves what it left before; after `Ok` the transaction is
        // open if it was.
        ensures works { TransactionFrame S.Store tx.old tx.new result }
        // After `Ok` the changes of `makes` are made of what the transaction showed.
        ensures makes { Does S.Store tx.old tx.new result (makes self.now) }
        // Over a database of `breaks_over`, an error that counts as `Broken` means that the disk
        // failed, or that the connection was not open.
        ensures breaks { BreaksOver S.Store tx.old.conn.now tx.new.conn.now result
            (breaks_over self.now) };
}

/// What failed in a transaction: a statement, after which it was rolled back, or its commit.
enum Stopped {
    Statement(Error),
    Commit(Error),
}

/// Does the work in one transaction and commits it. Rolls it back if a statement fails.
fn run_and_commit<S: Alter, W: TransactionWork>(
    conn: &mut Connection<S>,
    work: &W,
) -> Result<(), Stopped>
    requires { conn.old.in_transaction ≡ false }
    ensures mode { conn.new.in_transaction ≡ false }
    ensures done { Commits S.Store conn.old conn.new result (W.makes work.now) }
    ensures undone { Undoes S.Store conn.old conn.new result }
    ensures crash { CrashAllows S.Store conn.old conn.new (W.makes work.now) }
    ensures breaks { BreaksStopped S.Store conn.old conn.new result (W.breaks_over work.now) }
{
    let mut tx = conn.transaction();
    if let Err(error) = work.run(&mut tx) {
        return Err(Stopped::Statement(error));
    }
    match tx.commit() {
        Ok(()) => Ok(()),
        Err(error) => Err(Stopped::Commit(error)),
    }
}

/// Does all of the work in one transaction.
///
/// After `NotAProject`, with which a statement is refused, all is as before. After `Memory` or `Broken` the tables are
/// as before while the connection is open; a later open may find what it could have found before, or what the work
/// makes.
pub fn transact<S: Alter, W: TransactionWork>(
    conn: &mut Connection<S>,
    work: &W,
) -> Result<(), Fault>
    // The connection is in no transaction.
    requires { conn.old.in_transaction ≡ false }
    // The connection is in no transaction afterwards. After `Ok` the work is done and committed, the
    // connection is open, and a crash leaves exactly this. A fault is `Memory`, `Broken` or
    // `NotAProject`; after it, while the connection is open, the tables are as before, and a crash
    // leaves exactly them. After `NotAProject` the connection is open. Whatever the answer, a crash
    // leaves what it left before, or what the work makes.
    ensures transacts { Transacts S.Store conn.old conn.new result (W.makes work.now) }
    // Over a database of `breaks_over`, `Broken` means that the disk failed in this call, or that
    // the connection was not open.
    ensures breaks { BreaksFor S.Store conn.old conn.new result (W.breaks_over work.now) }
{
    match run_and_commit(conn, work) {
        Ok(()) => Ok(()),
        Err(Stopped::Statement(error)) => Err(fault_after(conn, &error)),
        Err(Stopped::Commit(error)) => Err(commit_fault_of(&error)),
    }
}
