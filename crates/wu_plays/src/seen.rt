//! Snapshots of a project: all its views, and every row of every table.

use crate::sessions::{adopt, views};
use anyhow::Result;
use sqlite::{Alter, Connection, Row};
use std::alloc::{AllocError, Global};
use std::io::{self, Write};
use std::str;
use wu_drive::Project;

/// A snapshot of a project. Its texts are empty if the database holds no project.
pub struct Seen {
    /// All views, as text.
    pub views: Vec<u8>,
    /// Every row of every table, as text. It has what no view shows: imports with their contents, and the queue.
    tables: Vec<u8>,
}

// It is written out, so that a caller does not prove again how each part is dropped.
impl Drop for Seen {
    fn drop(self) {
        let Seen {
            views: _views,
            tables: _tables,
        } = self;
    }
}

impl Seen {
    /// Returns the snapshot of a database that holds no project.
    pub fn blank(alloc: Global) -> Seen {
        Seen {
            views: Vec::new(alloc),
            tables: Vec::new(alloc),
        }
    }

    /// Returns a copy of the snapshot.
    pub fn copy(&self, alloc: Global) -> Result<Seen, AllocError> {
        Ok(Seen {
            views: Vec::from_slice(alloc, self.views.as_slice())?,
            tables: Vec::from_slice(alloc, self.tables.as_slice())?,
        })
    }

    /// Returns whether both snapshots have the same views and the same rows.
    pub fn is_same(&self, other: &Seen) -> bool {
        self.views.as_slice() == other.views.as_slice()
            && self.tables.as_slice() == other.tables.as_slice()
    }

    /// Writes the lines of views that are gone in `after`, each after `-`, and then those that are new, each after `+`.
    pub fn write_changes(&self, after: &Seen, transcript: &mut Vec<u8>) -> Result<()> {
        let before = str::from_utf8(self.views.as_slice())?;
        let after = str::from_utf8(after.views.as_slice())?;
        write_missing('-', before, after, transcript)?;
        write_missing('+', after, before, transcript)?;
        Ok(())
    }
}

/// Returns whether a text has this line.
fn has_line(text: &str, wanted: &str) -> bool {
    for line in text.lines() {
        if line == wanted {
            return true;
        }
    }
    false
}

/// Writes the lines of a text that another text lacks, each after a sign and a space.
fn write_missing(sign: char, text: &str, other: &str, transcript: &mut Vec<u8>) -> io::Result<()> {
    for line in text.lines() {
        if !has_line(other, line) {
            writeln!(transcript, "{sign} {line}")?;
        }
    }
    Ok(())
}

/// Writes a row of a table: the name, and each value.
fn write_row(name: &str, row: &Row, out: &mut Vec<u8>) -> Result<()> {
    write!(out, "{name}")?;
    for at in 0..row.column_count() {
        write!(out, " {:?}", row.get_ref(at)?)?;
    }
    writeln!(out)?;
    Ok(())
}

/// Writes every row of a table, in the order of its first two columns.
fn write_table<S: Alter>(
    alloc: Global,
    conn: &mut Connection<S>,
    name: &str,
    out: &mut Vec<u8>,
) -> Result<()> {
    let sql = format!(in alloc; "SELECT * FROM {name} ORDER BY 1, 2")?;
    for row in conn.query_all(sql.as_str(), &[])? {
        write_row(name, &row, out)?;
    }
    Ok(())
}

/// Returns every row of every table, as text, in the order of the tables' names.
fn tables<S: Alter>(alloc: Global, conn: &mut Connection<S>) -> Result<Vec<u8>> {
    let mut out = Vec::new(alloc);
    let sql = "SELECT name FROM sqlite_schema WHERE type = 'table' ORDER BY name";
    for row in conn.query_all(sql, &[])? {
        let name: String = row.get(0)?;
        write_table(alloc, conn, name.as_str(), &mut out)?;
    }
    Ok(out)
}

/// Returns the database of a project, and the snapshot of the project or the error that prevented one.
pub fn see<S: Alter + Drop>(
    alloc: Global,
    mut project: Project<S>,
) -> (Connection<S>, Result<Seen>) {
    let views = views(alloc, &mut project);
    let mut conn = project.release();
    let tables = tables(alloc, &mut conn);
    let seen = match (views, tables) {
        (Ok(views), Ok(tables)) => Ok(Seen { views, tables }),
        (Err(error), _) | (_, Err(error)) => Err(error),
    };
    (conn, seen)
}

/// Returns whether a database has no table.
fn is_blank<S: Alter>(conn: &mut Connection<S>) -> Result<bool> {
    let row = conn.query_row("SELECT count(*) FROM sqlite_schema", &[])?;
    let count: i64 = row.get(0)?;
    Ok(count == 0)
}

/// Returns a database with the snapshot of the project in it. A database without a table stays as it is: no project is
/// begun in it.
pub fn look<S: Alter + Drop>(
    alloc: Global,
    mut conn: Connection<S>,
) -> Result<(Connection<S>, Seen)> {
    if is_blank(&mut conn)? {
        return Ok((conn, Seen::blank(alloc)));
    }
    let (conn, seen) = see(alloc, adopt(conn)?);
    Ok((conn, seen?))
}
