//! Scenarios over a database in memory in which some lines are statements over its tables. Each other line runs in a
//! session of its own, and so over what these statements changed.

use crate::memory::play_line;
use crate::sessions::adopt;
use anyhow::Result;
use sqlite::{Alter, Connection};
use std::io::Write;

/// The word before a statement.
const SQL: &str = "sql ";

/// Writes the text of each row of a query, one a line.
fn write_rows<S: Alter>(
    conn: &mut Connection<S>,
    sql: &str,
    transcript: &mut Vec<u8>,
) -> Result<()> {
    for row in conn.query_all(sql, &[])? {
        let text: String = row.get(0)?;
        writeln!(transcript, "{text}")?;
    }
    Ok(())
}

/// Runs a statement, and writes the rows of a query.
fn do_statement<S: Alter>(
    conn: &mut Connection<S>,
    sql: &str,
    transcript: &mut Vec<u8>,
) -> Result<()> {
    writeln!(transcript, "> {SQL}{sql}")?;
    if sql.starts_with("SELECT ") {
        return write_rows(conn, sql, transcript);
    }
    conn.execute(sql, &[])?;
    Ok(())
}

/// Runs a line that is no statement in a session of its own, and writes a line if that session has ended.
fn play_session<S: Alter + Drop>(
    rt: &HostRuntime,
    conn: Connection<S>,
    line: &str,
    transcript: &mut Vec<u8>,
) -> Result<Connection<S>> {
    let mut project = adopt(conn)?;
    play_line(rt, &mut project, line, transcript)?;
    if project.ended() {
        writeln!(transcript, "the session has ended")?;
    }
    Ok(project.release())
}

/// Runs a script over a database.
fn play_over<S: Alter + Drop>(
    rt: &HostRuntime,
    mut conn: Connection<S>,
    text: &str,
    transcript: &mut Vec<u8>,
) -> Result<()> {
    for line in text.lines() {
        match line.strip_prefix(SQL) {
            Some(sql) => do_statement(&mut conn, sql, transcript)?,
            None => conn = play_session(rt, conn, line, transcript)?,
        }
    }
    Ok(())
}

/// Runs a scenario over a database in memory that has no table.
pub fn play(rt: &HostRuntime, text: &str, transcript: &mut Vec<u8>) -> Result<()> {
    play_over(
        rt,
        Connection::open_in_memory(rt.alloc())?,
        text,
        transcript,
    )
}
