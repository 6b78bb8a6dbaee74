//! One question: its rows, or the fault for its error.

ghost use Rattle.sqlite.specs.Values.{bound};
ghost use Rattle.wu_schema.specs.Asking.{FailsAll, Queries, ShowsAll};

use crate::fault::fault_of;
use sqlite::{Alter, Connection, Row};
use sqlite_value::value::ValueRef;
use wu_core::Fault;

/// Returns all rows of the answer to a question, or the fault for its error.
pub fn query<S: Alter>(
    conn: &mut Connection<S>,
    sql: &str,
    params: &[ValueRef<'_>],
) -> Result<Vec<Row>, Fault>
    // A SELECT begins no transaction and commits nothing. Except after `Memory` and `Broken` all is as
    // before, and the connection is open; `Broken` means a failed disk or a closed connection. After
    // `Ok` the rows are the answer of the store to the question with these parameters. A fault is
    // `Memory`, `Broken` or `NotAProject`, that of an error with which the store refuses the question.
    ensures { Queries S.Store conn.old conn.new result sql.now (bound params.now) ShowsAll FailsAll }
{
    match conn.query_all(sql, params) {
        Ok(rows) => Ok(rows),
        Err(error) => Err(fault_of(&error)),
    }
}
