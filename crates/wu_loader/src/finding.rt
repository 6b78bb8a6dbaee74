//! What is found in the tables: a world, or the first row that keeps them from being one.

ghost use Rattle.std.specs.Prelude.{◌≡◌};
ghost use Rattle.wu_loader.specs.declared.finding.NoWorld.TheVariants.{Memory};

use std::alloc::{AllocError, AllocFailed};
use wu_audit::Loaded;
use wu_schema::ProjectTable;

/// A row that keeps the tables from being those of a world: its table and its place there, counted from 1. A place
/// after the last row means that a row is missing.
///
/// A table is counted in order of its key. Results are counted by workunit and number, hosts and their classes by the
/// hosts' names. Imports are counted in any order, and so are these three tables if one of their rows cannot be read.
#[derive(Clone, Copy)]
pub struct WrongRow {
    pub table: ProjectTable,
    pub place: u64,
}

/// What the tables are.
#[derive(Drop)]
pub enum Found {
    World(Loaded),
    Wrong(WrongRow),
}

/// Why no world was made of rows.
#[derive(Clone, Copy)]
pub enum NoWorld {
    Memory,
    Wrong(WrongRow),
}

impl From<AllocError> for NoWorld {
    ghost from_gives = { λ _ reason. reason ≡ Memory };

    fn from(_error: AllocError) -> NoWorld {
        NoWorld::Memory
    }
}

impl<T: Drop> From<AllocFailed<T>> for NoWorld {
    ghost from_gives = { λ _ reason. reason ≡ Memory };

    fn from(_error: AllocFailed<T>) -> NoWorld {
        NoWorld::Memory
    }
}
