//! A connection through a crash: the machine crashes at any moment, and the two files are opened again.
//!
//! A disk may fail at any call and from then on, so a crash during a call is one of these crashes too.

ghost use Rattle.std.specs.Prelude.{IfSome, IsTrue};
ghost use Rattle.sqlite.specs.Files.{file_state};
ghost use Rattle.sqlite.specs.Held.{AreDatabases};
ghost use Rattle.sqlite_store.specs.FileStore.{faults, is_shielded, recovers, view};
ghost use Rattle.sqlite_trees.specs.View.{IsClean, IsQuiet, IsRolledBack};
ghost use Rattle.wu_stops.specs.Stopping.{FindsAgain, WasClean};

use sqlite::{Connection, FileStore, Files, Options};
use sqlite_disk::{Crash, Disk};
use std::alloc::Global;

/// Returns the store of a connection over two files, in which what was not committed is undone.
///
/// It is one function for all its callers, as `begin`.
pub fn store_of<D: Disk + Drop>(conn: Connection<FileStore<D>>) -> FileStore<D>
    // The trees of the store are numbered as its catalog says.
    ensures numbered { IsClean (view result) → IsTrue (view result).is_numbered }
    // What is recovered of the store is a sound database.
    ensures sound { IsClean (view result) → AreDatabases (recovers result) }
    // What the connection did not commit is undone in the store.
    ensures undone { IsRolledBack (view conn.store) (view result) }
    // The call adds no fault of the disk, and a crash leaves of the store what it would have left
    // of the connection.
    ensures quiet { IsQuiet view faults recovers is_shielded conn.store result }
{
    conn.into_store()
}

/// Crashes the machine, and opens the two files again.
///
/// What is found is what a crash could leave, and where the connection was open, exactly its last commit. Returns
/// `None` if the opening fails.
pub fn stop_and_open<D: Crash + Drop>(
    alloc: Global,
    conn: Connection<FileStore<D>>,
    options: Options,
) -> Option<Connection<FileStore<D>>>
    // What is found is open, sound and committed: what the crash could leave, or the last commit
    // where the connection was open.
    ensures reopened { IfSome result (λ again. FindsAgain (file_state conn) (file_state again)) }
    // A disk with no fault by now had none before the crash.
    ensures clean { IfSome result (λ again. WasClean (file_state conn) (file_state again)) }
{
    let Files { mut log, mut db } = store_of(conn).close();
    log.crash();
    db.crash();
    match Connection::open_files(alloc, Files { log, db }, options) {
        Ok(again) => Some(again),
        Err(_) => None,
    }
}
