//! Whether the world that the tables represent is that of a sound project.

ghost use Rattle.std.specs.Prelude.{◌≡◌, ◌≤◌, ◌↔◌, IfErr, IfOk, IfSome, IsNone, IsTrue};
ghost use Rattle.wu_check.specs.Checking.{IsKnownVersion};
ghost use Rattle.wu_check.specs.Examining.{Examines};
ghost use Rattle.wu_check.specs.Findings.{IsRightWorld, Judges, TellsOf, TellsUnknown};
ghost use Rattle.wu_core.specs.declared.fault.Fault.TheVariants.{Memory};
ghost use Rattle.wu_machine.specs.Sound.{IsSound};
ghost use Rattle.wu_schema.specs.Refines.{Refines};
ghost use Rattle.wu_store.specs.Loading.{StaysUnlessFailed};
ghost use Rattle.wu_store.specs.StandsFor.{IsQueued};

use crate::finding::Finding;
use crate::keys::key_of_wrong;
use crate::marks::wrong_marks;
use sqlite::{Alter, Connection};
use sqlite_schema::schema::Schema;
use std::alloc::Global;
use wu_audit::{Loaded, audit};
use wu_core::{Fault, PRESENT_VERSION};
use wu_tables::queue_tree;

/// Returns whether this program knows the version.
pub fn is_known(version: u64) -> bool
    // It is true exactly for versions from 1 to the present one.
    ensures { IsTrue result ↔ IsKnownVersion version }
{
    1 <= version && version <= PRESENT_VERSION
}

/// Returns whether the world is of a version that has a queue.
fn is_queued(loaded: &Loaded) -> bool
    ensures { IsTrue result ↔ IsQueued loaded.now }
{
    2 <= loaded.version()
}

/// Returns what is wrong with the world, except for the rows of its queue, or `None` if nothing is.
fn wrong_world(schema: &Schema, alloc: Global, loaded: &Loaded) -> Result<Option<Finding>, Fault>
    // `None` means that the world is sound, of a known version, and that the schema has the queue
    // that this version has.
    ensures right { IfOk result (λ found. IsNone found → IsRightWorld schema.now loaded.now) }
    // A finding is the first that is true of each database with this schema that represents the
    // world.
    ensures told { IfOk result (λ found. IfSome found (TellsOf schema.now loaded.now)) }
    // A version that this program does not know is what is found of a world that has it.
    ensures unknown { IfOk result (TellsUnknown loaded.now) }
    // The only fault is out of memory.
    ensures memory { IfErr result (λ fault. fault ≡ Memory) }
{
    if !is_known(loaded.version()) {
        return Ok(Some(Finding::Version(loaded.version())));
    }
    if let Some(wrong) = audit(alloc, loaded)? {
        let key = key_of_wrong(loaded, wrong)?;
        return Ok(Some(Finding::World(wrong, key)));
    }
    if is_queued(loaded) && queue_tree(schema).is_none() {
        return Ok(Some(Finding::Queue));
    }
    Ok(None)
}

/// Returns what is wrong with the world that the tables represent, or with its queue, or `None` if nothing is.
pub fn judge_world<S: Alter>(
    conn: &mut Connection<S>,
    alloc: Global,
    loaded: &Loaded,
) -> Result<Option<Finding>, Fault>
    // Only reads. Over the world's tables, if questions show all of them, a finding is true, and
    // `None` means a sound world of a known version with each workunit's marks queued.
    ensures examines { Examines S.Store conn.old conn.new result
        (λ db found. Refines db loaded.now → Judges db loaded.now found) }
    // A connection that was open is open afterwards, except after `Memory` and `Broken`.
    ensures stays { StaysUnlessFailed S.Store conn.old conn.new result }
    // `None` means that the world is sound.
    ensures sound { IfOk result (λ found. IsNone found → IsSound loaded.now) }
    // A version that this program does not know is what is found of a world that has it.
    ensures unknown { IfOk result (TellsUnknown loaded.now) }
{
    if let Some(finding) = wrong_world(conn.schema(), alloc, loaded)? {
        return Ok(Some(finding));
    }
    if !is_queued(loaded) {
        return Ok(None);
    }
    match wrong_marks(conn, loaded)? {
        Some(place) => Ok(Some(Finding::Marks(place))),
        None => Ok(None),
    }
}
