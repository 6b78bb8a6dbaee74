//! The tables of a project, the queue aside.

ghost use Rattle.std.specs.Prelude.{◌≡◌, IfErr, IfOk, OnOk};
ghost use Rattle.wu_tables.specs.Found.{rank_of, AreThereBefore, HasBytewiseHosts, IsFirstMisfit, IsThere, IsMisfitOf};
ghost use Rattle.wu_schema.specs.ProjectTables.{HasTables, ProjectTrees, rank};

use crate::known::form_of;
use crate::lookup::{are_by_bytes, tree_of};
use sqlite_schema::schema::Schema;
use wu_schema::ProjectTable;

/// The tables in the written order.
const IN_ORDER: [ProjectTable; 9] = [
    ProjectTable::Project,
    ProjectTable::Workunit,
    ProjectTable::Result,
    ProjectTable::Grant,
    ProjectTable::Host,
    ProjectTable::Archived,
    ProjectTable::Import,
    ProjectTable::HostClass,
    ProjectTable::WorkunitClass,
];

/// Why the tables of a project are not in a schema.
#[derive(Clone, Copy)]
pub enum Misfit {
    /// No table has this one's name.
    Missing(ProjectTable),
    /// The table of its name has another form, or another table is in its tree.
    Altered(ProjectTable),
    /// A unique index on the names of hosts does not compare their bytes.
    HostNames,
}

/// Returns the tree of a table of a project, or why it is not there; 0 for a table that the version does not have.
fn project_tree(schema: &Schema, version: u64, which: ProjectTable) -> Result<u32, Misfit>
    // After `Ok` the table is in this tree, in its form, if the version has it.
    ensures found { IfOk result (IsThere version schema.now which) }
    // The misfit is true: the version has the table, and its name finds no table, or one that
    // differs.
    ensures told { IfErr result (IsMisfitOf version schema.now) }
    // The misfit is that of this table.
    ensures table { IfErr result (λ misfit. rank_of misfit ≡ rank which) }
{
    if !which.is_of(version) {
        return Ok(0);
    }
    let form = form_of(which);
    if let Some(tree) = tree_of(schema, &form) {
        return Ok(tree);
    }
    match schema.table_named(form.name.as_bytes()) {
        Some(_) => Err(Misfit::Altered(which)),
        None => Err(Misfit::Missing(which)),
    }
}

/// Returns `Ok` if each table of this version is there in its form, or what is wrong with the first that is not.
fn know_each(schema: &Schema, version: u64) -> Result<(), Misfit>
    ensures there { OnOk result (AreThereBefore version schema.now 9) }
    ensures told { IfErr result (IsFirstMisfit version schema.now) }
{
    for which in IN_ORDER {
        project_tree(schema, version, which)?;
    }
    Ok(())
}

/// Returns `Ok` if each unique index on the names of hosts compares their bytes.
fn know_host_names(schema: &Schema, version: u64) -> Result<(), Misfit>
    requires { AreThereBefore version schema.now 9 }
    ensures found { OnOk result (HasBytewiseHosts version schema.now) }
    ensures told { IfErr result (IsFirstMisfit version schema.now) }
{
    let host = project_tree(schema, version, ProjectTable::Host)?;
    if are_by_bytes(schema, host) {
        Ok(())
    } else {
        Err(Misfit::HostNames)
    }
}

/// Returns `Ok` if the tables of a project of this version are there, without the queue: each in its form and in a tree
/// of its own, and each unique index on the names of hosts compares their bytes. Else it returns what differs.
pub fn know_tables(schema: &Schema, version: u64) -> Result<(), Misfit>
    // After `Ok` all tables of this version are in some trees, in their forms, and unique indexes
    // compare hosts' names by bytes.
    ensures found { OnOk result ((trees : ProjectTrees) × HasTables version schema.now trees) }
    // A misfit means that no trees have all tables of this version so.
    ensures missing { IfErr result (λ _. (trees : ProjectTrees)
        → HasTables version schema.now trees → ⊥) }
    // The misfit is the first in the written order: no table has the name, the one that has it
    // differs, or a unique index compares hosts' names otherwise; and each table before is there.
    ensures told { IfErr result (IsFirstMisfit version schema.now) }
{
    know_each(schema, version)?;
    know_host_names(schema, version)
}
