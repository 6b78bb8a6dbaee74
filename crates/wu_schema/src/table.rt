//! The tables of a project.

use wu_core::CLASS_VERSION;

/// A table of a project, the queue aside.
#[derive(Clone, Copy)]
pub enum ProjectTable {
    Project,
    Workunit,
    Result,
    Grant,
    Host,
    Archived,
    Import,
    HostClass,
    WorkunitClass,
}

impl ProjectTable {
    ghost use Rattle.std.specs.Prelude.{◌↔◌, IsTrue};
    ghost use Rattle.wu_schema.specs.ProjectTables.{IsTableOf};

    /// Returns whether a project of this version has the table.
    pub fn is_of(self, version: u64) -> bool
        // It is true for the tables of classes from version 3 on, and for each other table in every
        // version.
        ensures { IsTrue result ↔ IsTableOf self version }
    {
        match self {
            ProjectTable::HostClass | ProjectTable::WorkunitClass => version >= CLASS_VERSION,
            _ => true,
        }
    }
}
