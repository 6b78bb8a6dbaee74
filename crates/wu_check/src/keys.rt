//! The key of the row that a world's audit reports.

ghost use Rattle.std.specs.Prelude.{◌≡◌, ◌+◌, ◌<◌, length, Some};
ghost use Rattle.wu_core.specs.Reads.{OkOrWantsMemory};
ghost use Rattle.wu_audit.specs.Wrong.{StandsAgainst};
ghost use Rattle.wu_check.specs.Findings.{IsKeyAt, IsKeyOf};

use crate::finding::Key;
use wu_audit::{AuditTable, Loaded, Wrong};
use wu_core::Fault;

/// Returns the place, counted from 1, of one of so many rows.
fn place_from_one(place: usize, rows: usize) -> u64
    requires { place < rows }
    ensures { result ≡ place + 1 }
{
    place as u64 + 1
}

/// Returns the key of the import at this place.
fn import_key(loaded: &Loaded, place: usize) -> Result<Key, Fault>
    requires { place < length loaded.now.imports }
    // It is the kind and the name of the import at this place. The only fault is `Memory`.
    ensures { OkOrWantsMemory result (IsKeyAt loaded.now AuditTable.Import (Some place)) }
{
    let import = &loaded.imports()[place];
    Ok(Key::Import(import.kind(), import.name().copy()?))
}

/// Returns the key of the host at this place among those that have a class.
fn class_key(loaded: &Loaded, place: usize) -> Result<Key, Fault>
    requires { place < length loaded.now.classes }
    // It is the name of the host at this place. The only fault is `Memory`.
    ensures { OkOrWantsMemory result (IsKeyAt loaded.now AuditTable.HostClass (Some place)) }
{
    let one = &loaded.classes()[place];
    Ok(Key::HostClass(one.host.copy()?))
}

/// Returns the key of the row that is wrong. Returns `Memory` if out of memory.
pub fn key_of_wrong(loaded: &Loaded, wrong: Wrong) -> Result<Key, Fault>
    // The violation is the first of this world in the written order.
    requires { StandsAgainst loaded.now wrong }
    // The key is that of the reported row; grants and archived rows are counted from 1. The only
    // fault is `Memory`.
    ensures { OkOrWantsMemory result (IsKeyOf loaded.now wrong) }
{
    let Some(place) = wrong.place() else {
        return Ok(Key::Project);
    };
    match wrong.table() {
        AuditTable::Project => Ok(Key::Project),
        AuditTable::Workunit => Ok(Key::Workunit(loaded.workunits()[place].number)),
        AuditTable::Grant => Ok(Key::Grant(place_from_one(place, loaded.grants().len()))),
        AuditTable::Archived => Ok(Key::Archived(place_from_one(place, loaded.archived().len()))),
        AuditTable::Import => import_key(loaded, place),
        AuditTable::HostClass => class_key(loaded, place),
    }
}
