//! Columns and rows as values: what the schema itself reads of them.

ghost use Rattle.std.specs.Prelude.{◌≤◌, ⊤, IfOk, IfErr};
ghost use Rattle.sqlite.specs.Order.{column};
ghost use Rattle.wu_schema.specs.Restoring.{Restores, IsUnreadable};
ghost use Rattle.wu_schema.specs.Stored.{number};
ghost use Rattle.wu_schema.specs.Versions.{project_row};

use crate::fault::fault_of;
use sqlite::Row;
use sqlite::types::FromSql;
use wu_core::Fault;

/// Reads a column as a value of a type of the store. Returns `NotAProject` if the column is missing or of another type.
pub fn read_column<T: FromSql>(row: &Row, at: usize) -> Result<T, Fault>
    // The value that is returned is the one that its type reads in the column.
    ensures value { IfOk result (λ x. T.FromSql.reads_as (column row.now at) x) }
    // A fault is `Memory` or `NotAProject`; a column that is there is `NotAProject` only if its
    // type cannot read it.
    ensures refused { IfErr result (IsUnreadable T.FromSql.is_readable row.now at) }
{
    match row.get(at) {
        Ok(value) => Ok(value),
        Err(error) => Err(fault_of(&error)),
    }
}

/// Reads a number from 0 to 2^63 - 1 in a column.
pub fn number_at(row: &Row, at: usize) -> Result<u64, Fault>
    // A column that holds a number from 0 on is read as that number, or out of memory; any other is
    // refused.
    ensures { Restores number (λ _. ⊤) (column row.now at) result }
{
    read_column(row, at)
}

/// Reads the version in the row of a project: its key, its version and its next number.
pub fn version_from(row: &Row) -> Result<u64, Fault>
    // A row with key 1 and a version from 1 on is read as that version, or out of memory; any other
    // is refused.
    ensures { Restores (project_row (column row.now 2)) (λ version. 1 ≤ version) row.now result }
{
    if row.column_count() != 3 {
        return Err(Fault::NotAProject);
    }
    let one = number_at(row, 0)?;
    let version = number_at(row, 1)?;
    if one == 1 && version >= 1 {
        Ok(version)
    } else {
        Err(Fault::NotAProject)
    }
}
