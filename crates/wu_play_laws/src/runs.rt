//! Runs of commands over files that do not fail.

use crate::files::files_of;
use anyhow::{Result, bail, ensure};
use sqlite::{FileFrom, Files, Options, Start};
use sqlite_disk::Disk;
use std::alloc::Global;
use wu_drive::Command;
use wu_lives::{begin_at, run_and_begin_again, run_and_close, run_and_leave};
use wu_stops::open_and_adopt;

/// Runs commands over two files and leaves these unclosed. Then runs the commands again over what was left, and closes
/// it. Writes the answers.
pub fn run_twice<D: Disk + Drop>(
    alloc: Global,
    files: Files<D>,
    commands: &[Command],
    transcript: &mut Vec<u8>,
) -> Result<Files<D>> {
    ensure!(files.may_be_used(), "the files can't be used");
    let left = match open_and_adopt(alloc, files, Options::new(1)) {
        Some(project) => run_and_leave(alloc, project, commands, transcript).1,
        None => bail!("no project begins"),
    };
    ensure!(left.may_be_used(), "the files can't be used again");
    let project = match open_and_adopt(alloc, left, Options::new(2)) {
        Some(project) => project,
        None => bail!("no project begins again"),
    };
    match run_and_close(alloc, project, commands, transcript) {
        (_, Ok(files)) => Ok(files),
        (_, Err(store)) => {
            store.close();
            bail!("the files are not closed")
        }
    }
}

/// Runs commands over the project in a database at a path, and begins a session there again. Writes the answers.
pub fn run_at<S: Start>(
    rt: &HostRuntime,
    path: &str,
    first: S,
    second: S,
    commands: &[Command],
    transcript: &mut Vec<u8>,
) -> Result<Files<FileFrom<S>>> {
    let project = match begin_at(rt, path, first) {
        Some(project) => project,
        None => bail!("no project begins at {path}"),
    };
    match run_and_begin_again(rt, project, commands, transcript, path, second) {
        Some((_, again)) => Ok(files_of(again)),
        None => bail!("no project begins again at {path}"),
    }
}
