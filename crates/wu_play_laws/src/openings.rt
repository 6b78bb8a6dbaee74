//! What an opening leaves that fails partway.

use crate::files::files_of;
use anyhow::{Result, bail, ensure};
use sqlite::{Connection, Files, Options};
use sqlite_disk::Crash;
use std::alloc::Global;
use wu_stops::{stop_and_open_left, store_of};

/// Opens two files. If that fails, the machine crashes, what is left is opened again, and the project in it is adopted.
/// Returns the files of that session; `None` if the first opening succeeded.
pub fn open_left<D: Crash + Drop>(alloc: Global, files: Files<D>) -> Result<Option<Files<D>>> {
    ensure!(files.may_be_used(), "the files can't be used");
    match Connection::open_files(alloc, files, Options::new(1)) {
        Ok(conn) => {
            store_of(conn).close();
            Ok(None)
        }
        Err((_, left)) => match stop_and_open_left(alloc, left, Options::new(2)) {
            Some(project) => Ok(Some(files_of(project))),
            None => bail!("what an opening left is not opened again"),
        },
    }
}
