//! What a close leaves that fails partway.

use crate::files::{database_of, files_of};
use anyhow::{Result, bail, ensure};
use sqlite::{Connection, FileStore, Files, Options};
use sqlite_disk::{Crash, Disk};
use std::alloc::Global;
use wu_stops::{close_stop_and_adopt, open_and_adopt, stop_and_adopt_unclosed};

/// Returns the database of the project in two files; `None` if a call on them failed.
fn adopted<D: Disk + Drop>(
    alloc: Global,
    files: Files<D>,
) -> Result<Option<Connection<FileStore<D>>>> {
    ensure!(files.may_be_used(), "the files can't be used");
    match open_and_adopt(alloc, files, Options::new(1)) {
        Some(project) => Ok(Some(database_of(project))),
        None => Ok(None),
    }
}

/// Adopts the project in two files and closes it. Then the machine crashes, and the project in what is left is adopted.
/// Returns whether the close succeeded, and the files of the last session; `None` if a call failed before the close.
pub fn close_and_go_on<D: Crash + Drop>(
    alloc: Global,
    files: Files<D>,
) -> Result<Option<(bool, Files<D>)>> {
    let conn = match adopted(alloc, files)? {
        Some(conn) => conn,
        None => return Ok(None),
    };
    match close_stop_and_adopt(alloc, conn, Options::new(2)) {
        Some((closed, again)) => Ok(Some((closed.is_ok(), files_of(again)))),
        None => bail!("what a close left is not adopted"),
    }
}

/// Adopts the project in two files and closes it. If the close fails, the machine crashes, and the project in the store
/// that is left is adopted. Returns the files of the last session; `None` if the close succeeded or a call failed
/// before it.
pub fn close_left<D: Crash + Drop>(alloc: Global, files: Files<D>) -> Result<Option<Files<D>>> {
    let conn = match adopted(alloc, files)? {
        Some(conn) => conn,
        None => return Ok(None),
    };
    match conn.close_files() {
        Ok(_) => Ok(None),
        Err((_, left)) => match stop_and_adopt_unclosed(alloc, left, Options::new(2)) {
            Some(again) => Ok(Some(files_of(again))),
            None => bail!("what a close left is not adopted"),
        },
    }
}
