//! Tables and indexes in a schema.

ghost use Rattle.std.specs.Prelude.{◌≡◌, ◌↔◌, IsTrue};
ghost use Rattle.wu_schema.specs.Indexes.{IsIndexed, index_at};
ghost use Rattle.wu_schema.specs.Tables.{OwnsTree};
ghost use Rattle.wu_tables.specs.Forms.{table_of_form};
ghost use Rattle.wu_tables.specs.Found.{AreByBytes, FindsPlace, IsByBytes, IsTableIn, Stands};

use crate::compare::is_like;
use crate::forms::TableForm;
use sqlite_schema::schema::{Index, Schema, Table};
use sqlite_value::keys::{Collation, Order};

/// The first tree that no table is stored in.
const TREES: u32 = 2_147_483_648;

/// Returns whether no table except one of this form has the tree.
fn owns_tree(schema: &Schema, tree: u32, form: &TableForm) -> bool
    ensures { IsTrue result ↔ OwnsTree schema.now (table_of_form form.now tree) }
{
    schema
        .tables
        .as_slice()
        .iter()
        .all(|table| table.tree != tree || is_like(table, form))
}

/// Returns whether the table has the form, in a stored tree that no other table has.
fn stands(schema: &Schema, table: &Table, form: &TableForm) -> bool
    // It is true exactly where the table has the form, in a stored tree that no other table has.
    ensures { IsTrue result ↔ Stands schema.now table.now form.now }
{
    is_like(table, form) && table.tree < TREES && owns_tree(schema, table.tree, form)
}

/// Returns the tree of the table that has the name of the form, or `None` if that table has not the form.
pub fn tree_of(schema: &Schema, form: &TableForm) -> Option<u32>
    // A tree is returned exactly where the name finds a table of this form, in a stored tree that
    // no other table has.
    ensures { FindsPlace (IsTableIn schema.now form.now.name.now (table_of_form form.now)) result }
{
    let at = schema.table_named(form.name.as_bytes())?;
    let table = schema.tables.get(at)?;
    if stands(schema, table, form) {
        Some(table.tree)
    } else {
        None
    }
}

/// Returns whether the index compares the bytes of hosts' names, if it is a unique one on the names of the hosts in
/// this tree.
fn is_by_bytes(index: &Index, hosts: u32) -> bool
    ensures { IsTrue result ↔ IsByBytes hosts index.now }
{
    !index.is_unique
        || index.table != hosts
        || index.columns.as_slice() != [1].as_slice()
        || index.order.first().collation == Collation::Binary
}

/// Returns whether each unique index on the names of the hosts in this tree compares their bytes.
pub fn are_by_bytes(schema: &Schema, hosts: u32) -> bool
    // It is true exactly where each unique index on the names of these hosts alone compares their
    // bytes.
    ensures { IsTrue result ↔ AreByBytes schema.now hosts }
{
    schema
        .indexes
        .as_slice()
        .iter()
        .all(|index| is_by_bytes(index, hosts))
}

/// Returns whether the index has this name and these columns, and is on the table in this tree.
fn is_index(index: &Index, table: u32, name: &str, columns: &[usize]) -> bool
    ensures { IsTrue result ↔ (index.now ≡ index_at (name.now, columns.now) table index.now.tree) }
{
    index.name.as_slice() == name.as_bytes()
        && index.table == table
        && index.columns.as_slice() == columns
        && index.order == Order::PLAIN
        && !index.is_unique
}

/// Returns whether the table in this tree has an index of this name on these columns.
pub fn is_indexed(schema: &Schema, table: u32, name: &str, columns: &[usize]) -> bool
    // It is true exactly where an ascending index, not unique, of this name and these columns is on
    // the table in this tree.
    ensures { IsTrue result ↔ IsIndexed schema.now table (name.now, columns.now) }
{
    schema
        .indexes
        .as_slice()
        .iter()
        .any(|index| is_index(index, table, name, columns))
}
