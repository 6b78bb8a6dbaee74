//! The rows of the tables, each read whole.

ghost use Rattle.std.specs.Prelude.{◌≡◌, ℕ};
ghost use Rattle.wu_schema.specs.ProjectTables.{IsTableOf};
ghost use Rattle.wu_schema.specs.Tables.{IsClassedVersion};
ghost use Rattle.wu_loader.specs.Asked.{LooksAtTables};
ghost use Rattle.wu_loader.specs.Questions.{question, ShowsTable};
ghost use Rattle.wu_loader.specs.Shown.{ShowsTables, ShowsClasses, ShowsPlain};

use crate::rows::{Classed, FromRow, Placed};
use crate::texts::{
    SELECT_ARCHIVE, SELECT_GRANTS, SELECT_HOST_CLASSES, SELECT_HOSTS, SELECT_IMPORTS,
    SELECT_PROJECT, SELECT_RESULTS, SELECT_WORKUNIT_CLASSES, SELECT_WORKUNITS,
};
use crate::whole::RowsOf;
use sqlite::{Alter, Connection, Row};
use std::alloc::Global;
use wu_audit::Imported;
use wu_core::{Archived, CLASS_VERSION, Fault, Grant, HostClass, Workunit};
use wu_schema::rows::HostSum;
use wu_schema::{ProjectTable, fault_of, query};

/// The rows of the tables that every version has, as questions show them.
#[derive(Drop)]
pub struct PlainRows {
    pub project: Vec<Row>,
    pub workunits: RowsOf<Workunit>,
    pub instances: RowsOf<Placed>,
    pub grants: RowsOf<Grant>,
    pub hosts: RowsOf<HostSum>,
    pub archived: RowsOf<Archived>,
    pub imports: RowsOf<Imported>,
}

/// The rows of the tables of classes.
#[derive(Drop)]
pub struct ClassRows {
    pub hosts: RowsOf<HostClass>,
    pub workunits: RowsOf<Classed>,
}

/// The rows of all tables of a project.
#[derive(Drop)]
pub struct TableRows {
    pub plain: PlainRows,
    /// `None` if the version has no classes.
    pub classes: Option<ClassRows>,
}

/// Returns the question for all rows of a table: in order of the key if that is the rowid, else in any order.
fn question(table: ProjectTable) -> &'static str
    ensures { result.now ≡ question table }
{
    match table {
        ProjectTable::Project => SELECT_PROJECT,
        ProjectTable::Workunit => SELECT_WORKUNITS,
        ProjectTable::Result => SELECT_RESULTS,
        ProjectTable::Grant => SELECT_GRANTS,
        ProjectTable::Host => SELECT_HOSTS,
        ProjectTable::Archived => SELECT_ARCHIVE,
        ProjectTable::Import => SELECT_IMPORTS,
        ProjectTable::HostClass => SELECT_HOST_CLASSES,
        ProjectTable::WorkunitClass => SELECT_WORKUNIT_CLASSES,
    }
}

/// Returns all rows of a table.
fn rows_of<S: Alter>(conn: &mut Connection<S>, table: ProjectTable) -> Result<Vec<Row>, Fault>
    // Only reads; over tables of a version that has this table, these are all its rows, as the
    // question shows them.
    ensures { (version : ℕ) → IsTableOf table version
        → LooksAtTables version S.Store conn.old conn.new result
        (λ db trees rows. ShowsTable table db.trees trees rows.items) }
{
    query(conn, question(table), &[])
}

/// Returns all rows of a table, held as values. They are read one at a time, so the table is never held as rows.
pub(crate) fn read_rows<S: Alter, T: FromRow + Drop>(
    conn: &mut Connection<S>,
    alloc: Global,
    table: ProjectTable,
) -> Result<RowsOf<T>, Fault>
    // Only reads; over tables of a version that has this table, these are all its rows, as the
    // question shows them.
    ensures { (version : ℕ) → IsTableOf table version
        → LooksAtTables version S.Store conn.old conn.new result
        (λ db trees rows. ShowsTable table db.trees trees rows) }
{
    let mut read = RowsOf::new(alloc);
    let mut rows = match conn.query(question(table), &[]) {
        Ok(rows) => rows,
        Err(error) => return Err(fault_of(&error)),
    };
    // no table has so many rows
    'rows: for _ in 0..u64::MAX {
        if let Err(error) = rows.advance() {
            return Err(fault_of(&error));
        }
        let Some(row) = rows.get() else {
            return Ok(read);
        };
        read.push(alloc, row)?;
    }
    Err(Fault::Memory)
}

/// Returns the rows of the tables that every version has. Changes nothing.
fn plain_rows<S: Alter>(conn: &mut Connection<S>, alloc: Global) -> Result<PlainRows, Fault>
    // Only reads; over tables of any version, these are all rows of the tables that every version
    // has.
    ensures { (version : ℕ) → LooksAtTables version S.Store conn.old conn.new result
        (λ db trees rows. ShowsPlain db.trees trees rows) }
{
    Ok(PlainRows {
        project: rows_of(conn, ProjectTable::Project)?,
        workunits: read_rows(conn, alloc, ProjectTable::Workunit)?,
        instances: read_rows(conn, alloc, ProjectTable::Result)?,
        grants: read_rows(conn, alloc, ProjectTable::Grant)?,
        hosts: read_rows(conn, alloc, ProjectTable::Host)?,
        archived: read_rows(conn, alloc, ProjectTable::Archived)?,
        imports: read_rows(conn, alloc, ProjectTable::Import)?,
    })
}

/// Returns the rows of the tables of classes. Changes nothing.
fn class_rows<S: Alter>(conn: &mut Connection<S>, alloc: Global) -> Result<ClassRows, Fault>
    // Only reads; over tables of a version with classes, these are all rows of the tables of
    // classes.
    ensures { (version : ℕ) → IsClassedVersion version
        → LooksAtTables version S.Store conn.old conn.new result
        (λ db trees rows. ShowsClasses db.trees trees rows) }
{
    Ok(ClassRows {
        hosts: read_rows(conn, alloc, ProjectTable::HostClass)?,
        workunits: read_rows(conn, alloc, ProjectTable::WorkunitClass)?,
    })
}

/// Returns the rows of all tables of a project of this version. Changes nothing.
pub fn table_rows<S: Alter>(
    conn: &mut Connection<S>,
    alloc: Global,
    version: u64,
) -> Result<TableRows, Fault>
    // Only reads; over tables of this version in rowid order, these are all rows of each table, as
    // its question shows them. With no limit on steps its only faults over them are `Memory` and
    // `Broken`.
    ensures { LooksAtTables version S.Store conn.old conn.new result
        (λ db trees rows. ShowsTables version db.trees trees rows) }
{
    let plain = plain_rows(conn, alloc)?;
    if version < CLASS_VERSION {
        return Ok(TableRows {
            plain,
            classes: None,
        });
    }
    let classes = class_rows(conn, alloc)?;
    Ok(TableRows {
        plain,
        classes: Some(classes),
    })
}
