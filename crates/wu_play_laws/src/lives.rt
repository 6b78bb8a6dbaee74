//! A history of sessions over one project.

use crate::files::{database_of, files_of};
use anyhow::{Result, bail, ensure};
use sqlite::{Files, Options};
use sqlite_disk::Crash;
use std::alloc::Global;
use std::io::Write;
use wu_drive::{Command, Run};
use wu_lives::live_all;
use wu_stops::{adopt_stop_and_adopt, open_and_adopt};

/// Writes the fault of each run that ended with one.
fn write_ends(runs: &[Run], transcript: &mut Vec<u8>) -> Result<()> {
    for run in runs {
        if let Some(fault) = &run.end {
            writeln!(transcript, "{fault}")?;
        }
    }
    Ok(())
}

/// Runs lists of commands over two files, one session after another. A crash ends each session, and the next one begins
/// from what it left; one more crash follows the last adoption. Writes the answers, and then the faults of the runs.
/// Returns the files of the last session.
pub fn live_on<D: Crash + Drop>(
    alloc: Global,
    files: Files<D>,
    lives: &[Vec<Command>],
    transcript: &mut Vec<u8>,
) -> Result<Files<D>> {
    ensure!(files.may_be_used(), "the files can't be used");
    let begun = match open_and_adopt(alloc, files, Options::new(1)) {
        Some(begun) => begun,
        None => bail!("no project begins"),
    };
    let (runs, project) = match live_all(alloc, begun, lives, transcript, Options::new(2)) {
        Some(lived) => lived,
        None => bail!("a life does not go on"),
    };
    let left = match adopt_stop_and_adopt(alloc, database_of(project), Options::new(3)) {
        Some(again) => files_of(again),
        None => bail!("the project is not adopted again"),
    };
    write_ends(runs.as_slice(), transcript)?;
    Ok(left)
}
