//! The names that an upgrade or a new project gives, and which of them something has already.

ghost use Rattle.std.specs.Prelude.{◌≡◌, ◌↔◌, IfNone, IfSome, IsTrue, MatchOption, map};
ghost use Rattle.wu_schema.specs.Fresh.{project_names};
ghost use Rattle.wu_schema.specs.Made.{AreFree};
ghost use Rattle.wu_schema.specs.Refines.{IsFree};
ghost use Rattle.wu_tables.specs.Upgrades.{upgrade_names, HasFreeNames, IsFirstTaken, TakesUpgradeName};

use sqlite_schema::schema::Schema;
use wu_core::{CLASS_VERSION, QUEUE_VERSION};

/// The names of the tables that each version has.
pub const OF_FIRST: [&str; 7] = [
    "project",
    "workunit",
    "result",
    "credit_grant",
    "host",
    "archived",
    "import",
];

/// The names of what version 1 lacks: the queue and its indexes, and then the tables of classes.
pub const AFTER_FIRST: [&str; 8] = [
    "queue",
    "queue_validate",
    "queue_assimilate",
    "queue_delete",
    "queue_wake",
    "queue_purge",
    "host_class",
    "workunit_class",
];

/// The place of the first name of what version 2 lacks: the tables of classes.
const AFTER_QUEUE: usize = 6;

/// Returns the names that an upgrade of a project of this version gives.
fn upgrade_names(version: u64) -> &'static [&'static str]
    ensures { map (λ name. name.now) result.now ≡ upgrade_names version }
{
    if version < QUEUE_VERSION {
        &AFTER_FIRST
    } else if version < CLASS_VERSION {
        &AFTER_FIRST[AFTER_QUEUE..]
    } else {
        &[]
    }
}

/// Returns whether nothing has the name.
fn is_free(schema: &Schema, name: &str) -> bool
    ensures { IsTrue result ↔ IsFree schema.now name.now }
{
    schema.table_named(name.as_bytes()).is_none()
        && schema.index_named(name.as_bytes()).is_none()
        && schema.view_named(name.as_bytes()).is_none()
}

/// Returns the first of the names that something has, or `None` if nothing has one of them.
fn first_taken(schema: &Schema, names: &[&'static str]) -> Option<&'static str>
    ensures { MatchOption result (AreFree schema.now (map (λ name. name.now) names.now))
        (λ taken. IsFirstTaken schema.now (map (λ name. name.now) names.now) taken.now) }
{
    for name in names {
        if !is_free(schema, name) {
            return Some(*name);
        }
    }
    None
}

/// Returns the first name that an upgrade of a project of this version gives and that something has, or `None` if
/// nothing has such a name. With a name the upgrade is refused, since it cannot make what has to have it.
pub fn taken_name(schema: &Schema, version: u64) -> Option<&'static str>
    // `None` means that nothing has a name that an upgrade of a project of this version gives.
    ensures free { IfNone result (HasFreeNames schema.now version) }
    // A name is one that this upgrade gives and that a table, an index or a view has. Each of its
    // names before that one is free.
    ensures taken { IfSome result (λ name. TakesUpgradeName schema.now version name.now) }
{
    first_taken(schema, upgrade_names(version))
}

/// Returns the first name that a new project gives and that something has, or `None` if nothing has such a name. With a
/// name no project is made, since what has to have it cannot be made.
pub fn taken_from_new(schema: &Schema) -> Option<&'static str>
    // `None` means that nothing has a name that a new project gives.
    ensures free { IfNone result (AreFree schema.now project_names) }
    // A name is one that a new project gives and that a table, an index or a view has. Each of its
    // names before that one is free.
    ensures taken { IfSome result (λ name. IsFirstTaken schema.now project_names name.now) }
{
    if let Some(name) = first_taken(schema, &OF_FIRST) {
        return Some(name);
    }
    if let Some(name) = first_taken(schema, &AFTER_FIRST[AFTER_QUEUE..]) {
        return Some(name);
    }
    first_taken(schema, &AFTER_FIRST[..AFTER_QUEUE])
}
