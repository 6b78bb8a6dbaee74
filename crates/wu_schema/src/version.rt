//! Which version a project has, and whether this program knows it.

ghost use Rattle.std.specs.Prelude.{◌≡◌, ◌⊎◌, ◌≤◌, ◌<◌, ℕ, None, Some, Ok, IfSome, IfOk, IfErr, OnOk};
ghost use Rattle.wu_core.specs.declared.fault.Fault.TheVariants.{Memory, NotAProject};
ghost use Rattle.wu_schema.specs.Asking.{Asks, ServesUnlessFailed};
ghost use Rattle.wu_schema.specs.Calls.{BreaksAfter, AsksOnly, OnAnswer, OnFault, ServesAfter};
ghost use Rattle.wu_schema.specs.Faults.{fault_of, IsStoreFault};
ghost use Rattle.wu_schema.specs.Versions.{AnswersVersion, FailsToAsk, IsVersionAnswer, IsMissingOnly, IsOtherFault, IsVersionIn, ReadsVersion, RefusesVersion, ShowsProjectRows, TellsAbsence, TellsMissing};

use crate::columns::version_from;
use crate::fault::fault_of;
use crate::texts::SELECT_VERSION;
use sqlite::{Alter, Connection, Error, Row};
use sqlite_resolve::CompileError;
use wu_core::{Fault, PRESENT_VERSION};

/// Asks for the rows of the table `project`.
fn project_rows<S: Alter>(conn: &mut Connection<S>) -> Result<Vec<Row>, Error>
    ensures reads { AsksOnly S.Store conn.old conn.new result }
    ensures serves { ServesAfter S.Store conn.old conn.new result }
    // Over a table `project` with its columns, the rows are those of the table, in some order.
    ensures answers { OnAnswer S.Store conn.old conn.new result ShowsProjectRows }
    // Over such a table with no limit on steps, an error counts as `Memory` or `Broken`.
    ensures told { OnFault S.Store conn.old conn.new result (FailsToAsk conn.old.step_limit) }
    // The rows are the answer of the store, from the table or from what else has its name.
    ensures shown { OnAnswer S.Store conn.old conn.new result
        (λ db rows. IsVersionAnswer db rows.items) }
    // Where no project is, the error is a missing table or column, or counts as `Memory` or
    // `Broken`.
    ensures absent { OnFault S.Store conn.old conn.new result TellsAbsence }
    // The error is a missing table or column only where no project is.
    ensures missing { OnFault S.Store conn.old conn.new result IsMissingOnly }
    ensures breaks { BreaksAfter S.Store conn.old conn.new result }
{
    conn.query_all(SELECT_VERSION, &[])
}

/// Returns the version in the rows of a table `project`.
fn version_in(rows: &[Row]) -> Result<Option<u64>, Fault>
    // A version is from 1 on, and that of the one row of a project.
    ensures value { IfOk result (IsVersionIn rows.now) }
    // The one row of a project with a version from 1 on is read as that version, or out of memory.
    ensures found { (version : ℕ) → ReadsVersion rows.now version result }
    ensures refused { IfErr result (λ fault. (fault ≡ Memory) ⊎ (fault ≡ NotAProject)) }
{
    match rows {
        [row] => Ok(Some(version_from(row)?)),
        _ => Err(Fault::NotAProject),
    }
}

/// Returns `None` if the error is that of a missing table or column, and else its fault.
fn version_after(error: &Error) -> Result<Option<u64>, Fault>
    // `None` means that the error is a missing table or column.
    ensures none { IfOk result (λ found. (found ≡ None) × TellsMissing error.now) }
    // A fault is that of the error, which is no missing table or column.
    ensures fault { IfErr result (IsOtherFault error.now) }
{
    match error {
        Error::SqlInputError(CompileError::NoSuchTable | CompileError::NoSuchColumn) => Ok(None),
        _ => Err(fault_of(error)),
    }
}

/// Returns the version of the project in the database, or `None` if there is no table `project` with its columns.
///
/// Returns `NotAProject` if such a table has other than one row, or a row of no project.
pub fn version_of<S: Alter>(conn: &mut Connection<S>) -> Result<Option<u64>, Fault>
    // Begins no transaction and commits nothing; except after `Memory` and `Broken` all is as
    // before; `Broken` means a failed disk or a closed connection.
    ensures asks { Asks S.Store conn.old conn.new result }
    // The connection is open afterwards, except after `Memory` and `Broken`.
    ensures opens { ServesUnlessFailed S.Store conn.new result }
    // A fault is `Memory`, `Broken` or `NotAProject`.
    ensures told { IfErr result IsStoreFault }
    // A version is at least 1.
    ensures positive { IfOk result (λ found. IfSome found (λ version. 1 ≤ version)) }
    // A version is that of the one row of the project; `None` means exactly that a table `project`
    // or one of its columns is missing.
    ensures answers { OnAnswer S.Store conn.old conn.new result AnswersVersion }
    // Over a project's one row with no limit on steps, and where no project is, the only faults are
    // `Memory` and `Broken`.
    ensures refuses { OnFault S.Store conn.old conn.new result
        (RefusesVersion conn.old.step_limit) }
{
    match project_rows(conn) {
        Ok(rows) => version_in(rows.as_slice()),
        Err(error) => version_after(&error),
    }
}

/// Returns `NewSchema` with the version if it is later than the versions that this program knows.
pub fn check_version(version: u64) -> Result<(), Fault>
    // `Ok` means that the version is at most the present one.
    ensures known { OnOk result (version ≤ PRESENT_VERSION) }
    // A refusal is `NewSchema` with this version, which is above the present one.
    ensures later { IfErr result
        (λ fault. (fault ≡ Fault.NewSchema version) × (PRESENT_VERSION < version)) }
{
    if version > PRESENT_VERSION {
        Err(Fault::NewSchema(version))
    } else {
        Ok(())
    }
}
