//! The close of a connection, which copies its log into the file of the database: after a crash the two files are
//! opened again.
//!
//! A disk may fail at any call and from then on, so a crash during a close is one of these crashes.

ghost use Rattle.std.specs.Prelude.{IfSome};
ghost use Rattle.sqlite.specs.Files.{file_state};
ghost use Rattle.wu_passes.specs.Projects.{state_of};
ghost use Rattle.wu_stops.specs.Beginning.{BeginsAgain, GoesAgain};
ghost use Rattle.wu_stops.specs.Closing.{AfterClose, BeginsUnclosed, FindsClosed, FindsStopped, FindsUnclosed, GoesUnclosed, KeepsClosed, KeepsUnclosed, KeepsWorlds, WasCleanClosed, WasCleanUnclosed};
ghost use Rattle.wu_stops.specs.Sessions.{ResumesSession};
ghost use Rattle.wu_stops.specs.Stopping.{FindsAgain, WasClean};

use crate::beginning::begin;
use sqlite::{Connection, Error, FileStore, Files, Options};
use sqlite_disk::Crash;
use std::alloc::Global;
use wu_passes::Project;

/// Crashes the machine, and opens two files again.
///
/// What is found is open and committed, and is what the files hold after an outcome of the crash. Where a close gave
/// the files back, that is its connection's last commit, and the tables represent the world from before the close.
/// Returns `None` if the opening fails.
pub fn stop_and_open_files<D: Crash + Drop>(
    alloc: Global,
    files: Files<D>,
    options: Options,
) -> Option<Connection<FileStore<D>>>
    // What is found is open and committed, and is what the files hold after an outcome of the
    // crash.
    ensures outcome { IfSome result (FindsStopped D.Disk files) }
    // Where a close gave these files back, what is found is the last commit of its connection.
    ensures reopened { IfSome result (FindsClosed D.Disk files) }
    // Where a close gave these files back, a disk with no fault by now had none before the close.
    ensures clean { IfSome result (WasCleanClosed D.Disk files) }
    // Where a close gave these files back, the tables represent the world from before the close,
    // and a session goes on from it.
    ensures goes { IfSome result (KeepsClosed D.Disk files) }
{
    let Files { mut log, mut db } = files;
    log.crash();
    db.crash();
    match Connection::open_files(alloc, Files { log, db }, options) {
        Ok(again) => Some(again),
        Err(_) => None,
    }
}

/// Crashes the machine after a close that failed, and opens the two files of the store that it left again.
///
/// What is found is what the crash could leave of the connection before the close, and the tables represent the world
/// from before it. This holds if the trees of the store are numbered as its catalog says, which `close_files` does not
/// promise. Returns `None` if the opening fails.
pub fn stop_and_open_unclosed<D: Crash + Drop>(
    alloc: Global,
    left: FileStore<D>,
    options: Options,
) -> Option<Connection<FileStore<D>>>
    // A disk with no fault by now had none before the close.
    ensures clean { IfSome result (λ again. WasCleanUnclosed left (file_state again)) }
    // Where the store is numbered as its catalog says, what is found is what the crash could leave
    // of its connection.
    ensures reopened { IfSome result (FindsUnclosed left) }
    // Where the store is numbered as its catalog says, the tables represent the world from before
    // the close.
    ensures goes { IfSome result (KeepsUnclosed left) }
{
    stop_and_open_files(alloc, left.close(), options)
}

/// Closes a connection; then the machine crashes, and the two files are opened again. Returns how the close ended, and
/// the connection.
///
/// What is found is what the crash could leave of the connection: its last commit, where that was open. The tables
/// represent the world from before the close. After a close that failed this holds where the store that it left is
/// numbered as its catalog says. Returns `None` if the opening fails.
pub fn close_stop_and_open<D: Crash + Drop>(
    alloc: Global,
    conn: Connection<FileStore<D>>,
    options: Options,
) -> Option<(Result<(), Error>, Connection<FileStore<D>>)>
    // A disk with no fault by now had none before the close.
    ensures clean { IfSome result (λ r. WasClean (file_state conn) (file_state r.1)) }
    // What is found is what the crash could leave: the last commit of an open connection. After a
    // failed close its store has to be numbered.
    ensures reopened { IfSome result (λ r.
        AfterClose conn r.0 (FindsAgain (file_state conn) (file_state r.1))) }
    // The tables represent the world from before the close, committed, and a session goes on from
    // it. After a failed close its store has to be numbered.
    ensures goes { IfSome result (λ r.
        AfterClose conn r.0 (KeepsWorlds (file_state conn) (file_state r.1))) }
{
    match conn.close_files() {
        Ok(files) => {
            let again = stop_and_open_files(alloc, files, options)?;
            Some((Ok(()), again))
        }
        Err((error, left)) => {
            let again = stop_and_open_unclosed(alloc, left, options)?;
            Some((Err(error), again))
        }
    }
}

/// Crashes the machine after a close that failed. Opens the two files of the store that it left again, and adopts the
/// project in them.
///
/// The session goes on over the world from before the close, or begins from the empty world where no project was. This
/// holds if the trees of the store are numbered as its catalog says. Returns `None` if the opening or the adoption
/// fails.
pub fn stop_and_adopt_unclosed<D: Crash + Drop>(
    alloc: Global,
    left: FileStore<D>,
    options: Options,
) -> Option<Project<FileStore<D>>>
    // The session has not ended, and knows the version of whatever world the tables represent. A disk
    // with no fault by now had none before the close. If the store is numbered as its catalog says,
    // the session goes on from the world of the project, or begins from the empty world where none
    // was.
    ensures { IfSome result (λ project. ResumesSession (WasCleanUnclosed left (state_of project))
        (BeginsUnclosed left project) (GoesUnclosed left project) project) }
{
    let again = stop_and_open_unclosed(alloc, left, options)?;
    begin(again)
}

/// Closes a connection; then the machine crashes, the two files are opened again, and the project in them is adopted.
/// Returns how the close ended, and the session.
///
/// The session goes on over the world from before the close, or begins from the empty world where no project was. After
/// a close that failed this holds where the store that it left is numbered as its catalog says. Returns `None` if the
/// opening or the adoption fails.
pub fn close_stop_and_adopt<D: Crash + Drop>(
    alloc: Global,
    conn: Connection<FileStore<D>>,
    options: Options,
) -> Option<(Result<(), Error>, Project<FileStore<D>>)>
    // The session has not ended, and knows the version of whatever world the tables represent. A disk
    // with no fault by now had none before the close. The session goes on from the world of the
    // project from before the close, or begins from the empty world where none was. After a failed
    // close its store has to be numbered for that.
    ensures { IfSome result (λ r. ResumesSession (WasClean (file_state conn) (state_of r.1))
        (AfterClose conn r.0 (BeginsAgain conn r.1)) (AfterClose conn r.0 (GoesAgain conn r.1))
        r.1) }
{
    let (closed, again) = close_stop_and_open(alloc, conn, options)?;
    let project = begin(again)?;
    Some((closed, project))
}
