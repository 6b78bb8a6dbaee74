//! All rows of a table as values.

ghost use Rattle.std.specs.Prelude.{◌≡◌, ◌++◌, ◌∷◌, [], All, IfErr, IfOk, OnOk};
ghost use Rattle.wu_loader.specs.Whole.{rows_of, IsIn, IsNoRow, StartsWithNoRow, UnlessMemory};

use crate::finding::{NoWorld, WrongRow};
use crate::rows::FromRow;
use sqlite::Row;
use std::alloc::{AllocError, Global};
use std::marker::Model;
use wu_core::Fault;
use wu_schema::ProjectTable;

/// The rows of a table. It holds them as values, which take a third of the memory, up to the first that represents
/// none.
#[derive(Drop)]
pub struct RowsOf<T: FromRow + Drop> {
    values: Vec<T>,
    rest: Vec<Row>,
}

impl<T: FromRow + Drop> Model for RowsOf<T> {
    ghost use Rattle.std.specs.Prelude.{◌++◌, ◌+◌, All, List, length};
    ghost use Rattle.sqlite.specs.Order.{Row};
    ghost use Rattle.wu_loader.specs.Whole.{rows_of, StartsWithNoRow};

    ghost Value = { List Row };

    ghost view = { λ a. rows_of T.cells a.values.items ++ a.rest.items };

    ghost invariant = { λ a. All T.is_value a.values.items
        × StartsWithNoRow T.cells T.is_value (length a.values.items + 1) a.rest.items };
}

impl<T: FromRow + Drop> RowsOf<T> {
    /// Makes the rows of a table of which none is read yet.
    pub(crate) fn new(alloc: Global) -> Self
        // There is no row.
        ensures { result ≡ [] }
    {
        RowsOf {
            values: Vec::new(alloc),
            rest: Vec::new(alloc),
        }
    }

    /// Takes the next row of the table, as a value if all rows so far are those of values.
    pub(crate) fn push(&mut self, alloc: Global, row: &Row) -> Result<(), AllocError>
        // After `Ok` the row stands after those from before.
        ensures { OnOk result (self.new ≡ self.old ++ row.now ∷ []) }
    {
        if self.rest.is_empty() {
            let place = self.values.len() as u64 + 1;
            match T::from_row(alloc, place, row) {
                Ok(value) => {
                    self.values.push(value)?;
                    return Ok(());
                }
                Err(Fault::NotAProject) => {}
                Err(_) => return Err(AllocError),
            }
        }
        self.rest.push(row.copy()?)?;
        Ok(())
    }

    /// Returns the values that the rows of this table represent, or the first row that represents none.
    pub(crate) fn into_values(self, table: ProjectTable) -> Result<Vec<T>, NoWorld>
        // After `Ok` the rows are those of these values, by their places from 1.
        ensures same { IfOk result (λ values. self ≡ rows_of T.cells values.items) }
        // After `Ok` each value is in its ranges.
        ensures each { IfOk result (λ values. All T.is_value values.items) }
        // The row that is reported, of this table, is the first that is that of no value in its
        // ranges.
        ensures none { IfErr result (λ reason. UnlessMemory reason
            (IsIn table (IsNoRow T.cells T.is_value self))) }
    {
        let RowsOf { values, rest } = self;
        if rest.is_empty() {
            return Ok(values);
        }
        let place = values.len() as u64 + 1;
        Err(NoWorld::Wrong(WrongRow { table, place }))
    }
}
