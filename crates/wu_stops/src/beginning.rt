//! Where a session starts: two files are opened, and the project in them is adopted.

ghost use Rattle.std.specs.Prelude.{IfSome, IsTrue};
ghost use Rattle.sqlite.specs.Files.{file_state, image_of, over_files};
ghost use Rattle.sqlite.specs.Held.{state};
ghost use Rattle.wu_passes.specs.Projects.{BeginsSession, state_of};
ghost use Rattle.wu_stops.specs.Beginning.{BeginsAgain, BeginsBlank, GoesFromTables, GoesAgain, LeavesAdopted};
ghost use Rattle.wu_stops.specs.Sessions.{OpensSession, ResumesSession};
ghost use Rattle.wu_stops.specs.Stopping.{WasClean};

use crate::stopping::stop_and_open;
use sqlite::{Alter, Connection, FileStore, Files, Options};
use sqlite_disk::{Crash, Disk};
use std::alloc::Global;
use wu_passes::Project;

/// Begins a session over the project in a database, whose version it then knows. Returns `None` if the adoption fails.
fn begin_session<S: Alter + Drop>(conn: Connection<S>) -> Option<Project<S>>
    ensures { IfSome result (BeginsSession S.Store conn) }
{
    match Project::adopt(conn) {
        Ok(project) => Some(project),
        Err(_) => None,
    }
}

/// Begins a session over the project in two files, whose version it then knows. Returns `None` if the adoption fails.
///
/// It is one function for all its callers: that two files serve as a store is proved again in each that begins a
/// session over any store.
pub fn begin<D: Disk + Drop>(conn: Connection<FileStore<D>>) -> Option<Project<FileStore<D>>>
    // The session has not ended, and knows the version of whatever world the tables represent. A
    // found project is kept untouched, else a fresh one is made. The connection was open and is,
    // without a limit on steps.
    ensures { IfSome result (BeginsSession over_files conn) }
{
    begin_session(conn)
}

/// Adopts the project of a database and gives the database back, whether it was adopted or not.
///
/// It is one call over any store, as `begin_session`.
fn adopt_and_release<S: Alter + Drop>(conn: Connection<S>) -> Connection<S>
    ensures { LeavesAdopted (state S.Store conn) (state S.Store result) }
{
    match Project::adopt(conn) {
        Ok(project) => project.release(),
        Err((conn, _)) => conn,
    }
}

/// Opens two files and begins a session over the project in them.
///
/// Over files without a byte in the database it is a fresh project, which represents the empty world. Over files that
/// hold the tables of a world it represents that world. Returns `None` if the opening or the adoption fails.
pub fn open_and_adopt<D: Disk + Drop>(
    alloc: Global,
    files: Files<D>,
    options: Options,
) -> Option<Project<FileStore<D>>>
    // The file of the log can be used.
    requires log { IsTrue (D.Disk.is_usable files.log) }
    // The file of the database can be used.
    requires db { IsTrue (D.Disk.is_usable files.db) }
    // The session has not ended, its connection is open without a limit on steps, and it knows the
    // version of whatever world the tables represent. Over a database without a byte it begins from
    // the empty world, and further commands go on from there. Over files that hold the tables of a
    // world it goes on from that, and knows its version.
    ensures { IfSome result (λ project. OpensSession
        (BeginsBlank (image_of D.Disk files) (state_of project))
        (GoesFromTables (image_of D.Disk files) (state_of project)) project) }
{
    match Connection::open_files(alloc, files, options) {
        Ok(conn) => begin(conn),
        Err(_) => None,
    }
}

/// Adopts the project of a database; then the machine crashes, the two files are opened again, and the project in them
/// is adopted.
///
/// A disk may fail at any call and from then on, so a crash during the first adoption is one of these too. Where no
/// project was, the session begins from the empty world; where one was, it goes on from its world. Returns `None` if
/// the opening or the second adoption fails.
pub fn adopt_stop_and_adopt<D: Crash + Drop>(
    alloc: Global,
    conn: Connection<FileStore<D>>,
    options: Options,
) -> Option<Project<FileStore<D>>>
    // The session has not ended, and knows the version of whatever world the tables represent. A disk
    // with no fault by now had none before the first adoption. Where no project was, the session
    // begins from the empty world. Where one was, it goes on from its world, and knows its version.
    ensures { IfSome result (λ project. ResumesSession
        (WasClean (file_state conn) (state_of project))
        (BeginsAgain conn project) (GoesAgain conn project) project) }
{
    match stop_and_open(alloc, adopt_and_release(conn), options) {
        Some(again) => begin(again),
        None => None,
    }
}
