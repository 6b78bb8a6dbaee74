//! The question of the summary: a count.

ghost use Rattle.sqlite.specs.Order.{column};
ghost use Rattle.sqlite.specs.Values.{bound};
ghost use Rattle.wu_views.specs.Counting.{FailsCount, ReadsCount, ShowsCount};
ghost use Rattle.wu_schema.specs.Asking.{Queries};

use sqlite::types::ValueRef;
use sqlite::{Alter, Connection, Row};
use wu_core::Fault;
use wu_schema::number_at;
use wu_store::ask_row;

/// Reads a count of rows. Returns `Memory` if it is 2^63 - 1, as which a greater number is counted too.
fn count_at(row: &Row, at: usize) -> Result<u64, Fault>
    // A cell of a count is read as that count; it is out of memory from 2^63 - 1 on, and another
    // cell is refused.
    ensures { ReadsCount (column row.now at) result }
{
    let count = number_at(row, at)?;
    if count < i64::MAX as u64 {
        Ok(count)
    } else {
        Err(Fault::Memory)
    }
}

/// Returns what a question counts whose answer is one count. Returns `NotAProject` if the answer is anything else.
pub fn ask_count<S: Alter>(
    conn: &mut Connection<S>,
    sql: &str,
    params: &[ValueRef<'_>],
) -> Result<u64, Fault>
    // A SELECT begins no transaction and commits nothing. Except after `Memory` and `Broken` all is as
    // before, and the connection is open; `Broken` means a failed disk or a closed connection. After
    // `Ok` it is the number that the store's answer to the question counts, where that is one count. A
    // fault is `Memory`, `Broken` or `NotAProject`: it is out of memory, or that of an error of the
    // question, or means that the answer is no count.
    ensures { Queries S.Store conn.old conn.new result sql.now (bound params.now) ShowsCount
        FailsCount }
{
    let row = ask_row(conn, sql, params)?;
    match row {
        Some(row) => count_at(&row, 0),
        None => Err(Fault::NotAProject),
    }
}
