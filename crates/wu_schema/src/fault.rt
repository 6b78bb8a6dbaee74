//! An error of the store as a fault.

ghost use Rattle.std.specs.Prelude.{◌≡◌, false};
ghost use Rattle.wu_schema.specs.Faults.{fault_of, commit_fault_of, IsFailure, IsStoreFault};
ghost use Rattle.wu_schema.specs.Calls.{BreaksTruly, CommitsNothing, GoesBack, Serves};

use crate::texts::SELECT_ONE;
use sqlite::{Alter, Connection, Error, ErrorCode};
use sqlite_resolve::CompileError;
use sqlite_syntax::error::ParseError;
use wu_core::Fault;

/// Returns the fault for an error of the store. Out of memory is `Memory`, a failure of the disk or of size is
/// `Broken`, and any other error is `NotAProject`.
pub fn fault_of(error: &Error) -> Fault
    // Out of memory of store, compiler or parser is `Memory`; I/O failure, corruption, full disk,
    // closed and too big are `Broken`; others are `NotAProject`.
    ensures { result ≡ fault_of error.now }
{
    match error {
        Error::SqliteFailure(ErrorCode::OutOfMemory)
        | Error::SqlInputError(
            CompileError::OutOfMemory | CompileError::Parse(ParseError::OutOfMemory),
        ) => Fault::Memory,
        Error::SqliteFailure(
            ErrorCode::SystemIoFailure
            | ErrorCode::DatabaseCorrupt
            | ErrorCode::DiskFull
            | ErrorCode::Closed
            | ErrorCode::TooBig,
        ) => Fault::Broken,
        _ => Fault::NotAProject,
    }
}

/// Returns the fault for a commit or a rollback that failed: `Memory` or `Broken`, as what it left is not known.
pub fn commit_fault_of(error: &Error) -> Fault
    // It is the fault that `fault_of` returns, but `Broken` in place of `NotAProject`.
    ensures { result ≡ commit_fault_of error.now }
{
    match fault_of(error) {
        Fault::NotAProject => Fault::Broken,
        fault => fault,
    }
}

/// Returns `NotAProject` if the connection still serves, and `Memory` or `Broken` if not. `Broken` means that the disk
/// failed, or that the connection was not open.
fn probe<S: Alter>(conn: &mut Connection<S>) -> Fault
    ensures mode { conn.old.in_transaction ≡ false → conn.new.in_transaction ≡ false }
    ensures kind { IsStoreFault result }
    ensures serves { Serves S.Store conn.old conn.new result }
    ensures breaks { BreaksTruly S.Store conn.old conn.new result }
    ensures back { GoesBack S.Store conn.old conn.new }
    ensures crash { CommitsNothing S.Store conn.old conn.new }
{
    if let Err(error) = conn.prepare(SELECT_ONE) {
        return commit_fault_of(&error);
    }
    Fault::NotAProject
}

/// Returns the fault for a statement that was refused inside a transaction, which was then rolled back.
///
/// After `NotAProject` the connection still serves, outside any transaction; after any other fault it may not. Out of
/// memory, a failure of the disk and a failure of size are reported as such. For any other error, `Broken` means that
/// the disk then failed, or that the connection was not open.
pub fn fault_after<S: Alter>(conn: &mut Connection<S>, error: &Error) -> Fault
    // A connection that is in no transaction stays so.
    ensures mode { conn.old.in_transaction ≡ false → conn.new.in_transaction ≡ false }
    // `NotAProject` is returned only for an error that counts as `NotAProject`.
    ensures kind { result ≡ Fault.NotAProject → fault_of error.now ≡ Fault.NotAProject }
    // An error that counts as `Memory` or `Broken` is returned as that fault.
    ensures failed { IsFailure (fault_of error.now) → result ≡ fault_of error.now }
    // For an error that counts as `NotAProject`, `Broken` means that the disk failed in this call,
    // or that the connection was not open.
    ensures refused { fault_of error.now ≡ Fault.NotAProject
        → BreaksTruly S.Store conn.old conn.new result }
    // The fault is `Memory`, `Broken` or `NotAProject`.
    ensures told { IsStoreFault result }
    // After `NotAProject` the connection serves, and all is as it was.
    ensures serves { Serves S.Store conn.old conn.new result }
    // While the connection is open, it shows what it showed, or the last commit.
    ensures back { GoesBack S.Store conn.old conn.new }
    // Nothing is committed: a crash leaves what it left before.
    ensures crash { CommitsNothing S.Store conn.old conn.new }
{
    match fault_of(error) {
        Fault::NotAProject => probe(conn),
        fault => fault,
    }
}
