//! Whether the queue has the marks of each workunit.

ghost use Rattle.std.specs.Prelude.{◌≡◌, ◌↔◌, ◌<◌, IsTrue, length};
ghost use Rattle.sqlite.specs.Order.{column};
ghost use Rattle.wu_check.specs.Queues.{HasMarks, LooksInQueue, marked_row};
ghost use Rattle.wu_schema.specs.Stored.{flag, number, number_or_null};

use sqlite::types::ValueRef;
use sqlite::{Alter, Connection, Row};
use wu_audit::Loaded;
use wu_core::{Fault, Moment, Workunit};
use wu_rules::marks_of;
use wu_schema::fault_of;

/// Returns whether the column is this number.
fn is_number(row: &Row, at: usize, wanted: u64) -> bool
    requires { at < length row.now }
    ensures { IsTrue result ↔ (column row.now at ≡ number wanted) }
{
    match row.get_ref(at) {
        Ok(ValueRef::Int(found)) => found >= 0 && found as u64 == wanted,
        _ => false,
    }
}

/// Returns whether the column is this number, or empty if there is none.
fn is_number_or_null(row: &Row, at: usize, wanted: Option<u64>) -> bool
    requires { at < length row.now }
    ensures { IsTrue result ↔ (column row.now at ≡ number_or_null wanted) }
{
    match wanted {
        Some(wanted) => is_number(row, at, wanted),
        None => matches!(row.get_ref(at), Ok(ValueRef::Null)),
    }
}

/// Returns whether the column is this moment, or empty if there is none.
fn is_moment_or_null(row: &Row, at: usize, wanted: Option<Moment>) -> bool
    requires { at < length row.now }
    ensures { IsTrue result ↔ (column row.now at ≡ number_or_null wanted) }
{
    match wanted {
        Some(wanted) => is_number(row, at, wanted.seconds()),
        None => is_number_or_null(row, at, None),
    }
}

/// Returns whether the column is this mark.
fn is_flag(row: &Row, at: usize, wanted: bool) -> bool
    requires { at < length row.now }
    ensures { IsTrue result ↔ (column row.now at ≡ flag wanted) }
{
    if wanted {
        is_number(row, at, 1)
    } else {
        is_number(row, at, 0)
    }
}

/// Returns whether the row is that of the marks of the workunit.
fn has_marks(row: &Row, workunit: &Workunit) -> bool
    ensures { IsTrue result ↔ (row.now ≡ marked_row workunit.now) }
{
    let marks = marks_of(workunit);
    row.column_count() == 6
        && is_number(row, 0, workunit.number)
        && is_number_or_null(row, 1, marks.wake)
        && is_flag(row, 2, marks.to_validate)
        && is_flag(row, 3, marks.to_assimilate)
        && is_flag(row, 4, marks.to_delete)
        && is_moment_or_null(row, 5, marks.purge_from)
}

/// Asks for the marks of all workunits, in order of their numbers.
pub const SELECT_MARKS: &str =
    "SELECT workunit, wake, to_validate, to_assimilate, to_delete, purge_from FROM queue ORDER BY workunit";

/// Returns the first place, from 1, at which the rows of the queue are not the marks of each workunit, or `None` if
/// there is none. It holds one row at a time.
pub fn wrong_marks<S: Alter>(
    conn: &mut Connection<S>,
    loaded: &Loaded,
) -> Result<Option<u64>, Fault>
    // Only reads. A place is the first at which a queue's rows, whole and in rowid order, differ
    // from the workunits' marks; `None` means that they do not. Over a queue with no limit on
    // steps, its only faults are `Memory` and `Broken`.
    ensures { LooksInQueue S.Store conn.old conn.new result (HasMarks loaded.now) }
{
    let workunits = loaded.workunits();
    let mut rows = match conn.query(SELECT_MARKS, &[]) {
        Ok(rows) => rows,
        Err(error) => return Err(fault_of(&error)),
    };
    'rows: for (place, workunit) in workunits.iter().enumerate() {
        if let Err(error) = rows.advance() {
            return Err(fault_of(&error));
        }
        let Some(row) = rows.get() else {
            return Ok(Some(place as u64 + 1));
        };
        if !has_marks(row, workunit) {
            return Ok(Some(place as u64 + 1));
        }
    }
    if let Err(error) = rows.advance() {
        return Err(fault_of(&error));
    }
    match rows.get() {
        Some(_) => Ok(Some(workunits.len() as u64 + 1)),
        None => Ok(None),
    }
}
