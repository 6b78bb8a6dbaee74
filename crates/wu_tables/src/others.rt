//! Whether a schema has anything that is not a project's.

ghost use Rattle.std.specs.Prelude.{◌≡◌, ◌↔◌, [], IsTrue, map};
ghost use Rattle.sqlite_rules.specs.Lists.{Has};
ghost use Rattle.wu_schema.specs.Fresh.{project_names};
ghost use Rattle.wu_tables.specs.Others.{AreProjectIndexes, AreProjectTables, HasOnlyAProject, IsIndexName};

use crate::upgrades::{AFTER_FIRST, OF_FIRST};
use sqlite_schema::schema::{Index, Schema, Table, View};

/// What the names begin with that SQLite keeps for itself, as those of the indexes of a table's keys.
const RESERVED: &[u8] = b"sqlite_";

/// Returns whether the name is one of these.
fn is_one_of(names: &[&str], name: &[u8]) -> bool
    ensures { IsTrue result ↔ Has (map (λ given. given.now) names.now) name.now }
{
    names.iter().any(|given| given.as_bytes() == name)
}

/// Returns whether a new project gives the name.
fn is_project_name(name: &[u8]) -> bool
    ensures { IsTrue result ↔ Has project_names name.now }
{
    is_one_of(&OF_FIRST, name) || is_one_of(&AFTER_FIRST, name)
}

/// Returns whether an index of a project may have the name.
fn is_index_name(name: &[u8]) -> bool
    ensures { IsTrue result ↔ IsIndexName name.now }
{
    is_project_name(name) || name.starts_with(RESERVED)
}

/// Returns whether each table has a name that a new project gives.
fn are_project_tables(tables: &[Table]) -> bool
    ensures { IsTrue result ↔ AreProjectTables tables.now }
{
    tables
        .iter()
        .all(|table| is_project_name(table.name.as_slice()))
}

/// Returns whether each index has a name that one of a project may have.
fn are_project_indexes(indexes: &[Index]) -> bool
    ensures { IsTrue result ↔ AreProjectIndexes indexes.now }
{
    indexes
        .iter()
        .all(|index| is_index_name(index.name.as_slice()))
}

/// Returns whether each table and each index has a name that one of a project may have.
fn has_project_names(schema: &Schema) -> bool
    ensures { IsTrue result
        ↔ (AreProjectTables schema.now.tables × AreProjectIndexes schema.now.indexes) }
{
    are_project_tables(schema.tables.as_slice()) && are_project_indexes(schema.indexes.as_slice())
}

/// Returns whether there is no view.
fn are_no_views(views: &[View]) -> bool
    ensures { IsTrue result ↔ (views.now ≡ []) }
{
    views.is_empty()
}

/// Returns whether all that is in the schema is a project's, by its name.
pub fn has_only_a_project(schema: &Schema) -> bool
    // It is true exactly where each table has a name that a new project gives, and there is no view.
    // Each index has such a name then, or one that SQLite keeps for itself.
    ensures { IsTrue result ↔ HasOnlyAProject schema.now }
{
    has_project_names(schema) && are_no_views(schema.views.as_slice())
}
