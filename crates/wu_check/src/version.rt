//! The version of a project, in the row of its table.

ghost use Rattle.std.specs.Prelude.{◌≡◌, ℕ, map};
ghost use Rattle.sqlite.specs.Order.{column};
ghost use Rattle.wu_schema.specs.declared.table.ProjectTable.TheVariants.{Project};
ghost use Rattle.wu_check.specs.Versions.{IsReadVersion, IsToldBy, TellVersion};
ghost use Rattle.wu_loader.specs.Asked.{LooksAtTables};
ghost use Rattle.wu_loader.specs.Shown.{keyed};

use sqlite::types::ValueRef;
use sqlite::{Alter, Connection, Row};
use wu_core::Fault;
use wu_loader::SELECT_PROJECT;
use wu_schema::query;

/// The first version. Its tables are those that each version has.
pub const FIRST_VERSION: u64 = 1;

/// Returns the rows of the table of the project.
fn rows_of_project<S: Alter>(conn: &mut Connection<S>) -> Result<Vec<Row>, Fault>
    ensures { LooksAtTables FIRST_VERSION S.Store conn.old conn.new result
        (λ db trees rows. rows.items ≡ map (keyed 3) (db.trees (trees Project))) }
{
    query(conn, SELECT_PROJECT, &[])
}

/// Returns the version in the row of a project, and 1 for any other row.
fn version_in_row(row: &Row) -> u64
    // The version is the number after the key, or 1 where no number is there.
    ensures { IsToldBy (column row.now 1) result }
{
    match row.get_ref(1) {
        Ok(ValueRef::Int(version)) if version >= 0 => version as u64,
        _ => FIRST_VERSION,
    }
}

/// Returns the version in the one row of a project, and 1 for any other rows.
fn version_of_rows(rows: &[Row]) -> u64
    // The version is that of the one row, or 1 where there is not one row with a number after the
    // key.
    ensures { TellVersion rows.now result }
{
    match rows {
        [row] => version_in_row(row),
        _ => FIRST_VERSION,
    }
}

/// Returns the version of each world that the tables represent.
pub fn version_told<S: Alter>(conn: &mut Connection<S>) -> Result<u64, Fault>
    // Only reads. The version is that of each represented world, and of the one row of `project`;
    // or 1 where there is no such row. Over such tables with no limit on steps, its only faults are
    // `Memory` and `Broken`.
    ensures { LooksAtTables FIRST_VERSION S.Store conn.old conn.new result
        (λ db trees version. IsReadVersion db version) }
{
    let rows = rows_of_project(conn)?;
    Ok(version_of_rows(&rows))
}
