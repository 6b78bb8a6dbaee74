//! The world that the tables of a project represent.

ghost use Rattle.wu_loader.specs.Finding.{LoadsTables};

use crate::finding::{Found, NoWorld};
use crate::tables::table_rows;
use crate::world::world_from;
use sqlite::{Alter, Connection};
use std::alloc::Global;
use wu_core::Fault;

/// Returns the world that the tables of a project of this version represent, or a row for which they represent none.
/// Changes nothing.
///
/// Over the tables only out of memory or a failure of the disk keeps the answer back.
pub fn load_world<S: Alter>(
    conn: &mut Connection<S>,
    alloc: Global,
    version: u64,
) -> Result<Found, Fault>
    // Begins no transaction and commits nothing. Except after `Memory` and `Broken` all is as
    // before, and the connection open. The fault is `Memory`, `Broken` or `NotAProject`; over
    // tables of this version, with no limit on steps, never `NotAProject`. If their rows are in
    // rowid order, and those of workunits whole, they represent the world that is returned. A
    // reported row is the first missing or invalid one in the written order, and then they
    // represent no readable world of this version. Tables are counted by key, results by workunit
    // and number, hosts and classes by name; imports, and unreadable rows without a key, in any
    // order.
    ensures { LoadsTables version S.Store conn.old conn.new result }
{
    // that there is a schema means that the tables obey it
    conn.schema();
    let rows = table_rows(conn, alloc, version)?;
    match world_from(alloc, version, rows) {
        Ok(loaded) => Ok(Found::World(loaded)),
        Err(NoWorld::Wrong(wrong)) => Ok(Found::Wrong(wrong)),
        Err(NoWorld::Memory) => Err(Fault::Memory),
    }
}
