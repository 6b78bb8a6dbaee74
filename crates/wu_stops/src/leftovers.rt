//! What an opening that failed leaves of its two files: after a crash it is opened again.
//!
//! A disk may fail at any call and from then on, so a crash during an opening is one of these crashes.

ghost use Rattle.std.specs.Prelude.{IfSome};
ghost use Rattle.wu_stops.specs.Leftovers.{BeginsAfter, GoesAfter};
ghost use Rattle.wu_stops.specs.Sessions.{OpensSession};

use crate::beginning::begin;
use sqlite::{Connection, FileStore, Files, Leftover, Options};
use sqlite_disk::Crash;
use std::alloc::Global;
use wu_passes::Project;

/// Crashes the machine after an opening that failed. Opens what that left of the two files again, and adopts the
/// project in them.
///
/// Over what is left of files that hold no database, a fresh project begins. Over what is left of files that hold a
/// world, in pages without sums, the session goes on from it. Where a store is left, this holds if its trees are
/// numbered as its catalog says, which `open_files` does not promise. Returns `None` if the second opening or the
/// adoption fails.
pub fn stop_and_open_left<D: Crash + Drop>(
    alloc: Global,
    left: Leftover<D>,
    options: Options,
) -> Option<Project<FileStore<D>>>
    // The session has not ended, its connection is open without a limit on steps, and it knows the
    // version of whatever world the tables represent. Where a crash leaves no byte in the database,
    // it begins from the empty world. Where a crash leaves files that hold a world, it goes on from
    // that, of a known version. A store that is left has to be numbered for both.
    ensures { IfSome result (λ project. OpensSession (BeginsAfter left project)
        (GoesAfter left project) project) }
{
    let Files { mut log, mut db } = left.into_files();
    log.crash();
    db.crash();
    match Connection::open_files(alloc, Files { log, db }, options) {
        Ok(conn) => begin(conn),
        Err(_) => None,
    }
}
