//! What is found of a database.

use wu_audit::Wrong;
use wu_core::{ImportKind, Name};
use wu_loader::finding::WrongRow;
use wu_loader::totals::OtherSums;
use wu_tables::Misfit;

/// The row of a table that is wrong.
#[derive(Drop)]
pub enum Key {
    /// The one row of the project.
    Project,
    /// The workunit of this number.
    Workunit(u64),
    /// The grant at this place in the order of their making, from 1.
    Grant(u64),
    /// The archived row at this place in the order of their archiving, from 1.
    Archived(u64),
    /// The import of this kind and name.
    Import(ImportKind, Name),
    /// The class of the host of this name.
    HostClass(Name),
}

/// What keeps a database from holding a sound project, or the sound project that it holds from an upgrade.
#[derive(Drop)]
pub enum Finding {
    /// A table is missing or altered. If the table `project` is missing, nothing has a name that a new project gives.
    Tables(Misfit),
    /// There is no table `project`, and something has this name, which a new project gives. So no project can be made.
    Barred(&'static str),
    /// A row is that of no value, or is missing.
    Row(WrongRow),
    /// The row of a host has other sums than its grants.
    Sums(OtherSums),
    /// The project has a version that this program does not know, as a later one.
    Version(u64),
    /// The rows do not agree, or one is not sound by itself.
    World(Wrong, Key),
    /// The queue, or one of its indexes, is missing or altered.
    Queue,
    /// The row of the queue at this place, from 1, is not that of its workunit's marks, or is missing.
    Marks(u64),
    /// The project is sound and of this older version, and something has this name, which its upgrade gives. So the
    /// upgrade is refused.
    Taken(u64, &'static str),
}

/// The numbers of a sound project.
#[derive(Clone, Copy)]
pub struct Counts {
    /// The schema version of its tables.
    pub version: u64,
    /// How many workunits are present.
    pub workunits: u64,
    /// How many instances these have.
    pub results: u64,
}

/// Whether a database holds a sound project that can be used or upgraded.
#[derive(Drop)]
pub enum Verdict {
    /// It does, of a version that this program knows.
    Sound(Counts),
    /// It does not, for this.
    Unsound(Finding),
}
