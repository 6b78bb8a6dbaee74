//! Scenarios of the functions of `wu_stops` and `wu_lives`.

use anyhow::{Context, Result, bail, ensure};
use sqlite::Files;
use sqlite_disk::Wary;
use std::alloc::Global;
use std::fs;
use std::io::Write;
use wu_core::{Bytes, Name};
use wu_drive::{Batch, Command};
use wu_play_files::{MOST_CALLS, PlayDisk, PlayFiles, Saved, Side};
use wu_play_laws::{close_and_go_on, close_left, live_on, open_left, run_at, run_twice};
use wu_plays::views_of;

/// Returns the batch that a line names, with the contents of its file.
fn batch(rt: &HostRuntime, line: &str) -> Result<Command> {
    let Some((name, path)) = line.split_once(' ') else {
        bail!("a batch has a name and a file");
    };
    let file = fs::read(rt, path).context(path)?;
    let Ok(name) = Name::read(rt.alloc(), name.as_bytes()) else {
        bail!("{name} is no name");
    };
    Ok(Command::Batch(Batch {
        name,
        template: Bytes::from_vec(Vec::new(rt.alloc())),
        file: Bytes::from_vec(file),
    }))
}

/// Returns the sessions of a script: one for each line, with the command of its batch.
fn lives(rt: &HostRuntime, text: &str) -> Result<Vec<Vec<Command>>> {
    let mut lives = Vec::new(rt.alloc());
    for line in text.lines() {
        lives.push(Vec::from_array(rt.alloc(), [batch(rt, line)?])?)?;
    }
    Ok(lives)
}

/// Returns all views of the project in two files.
fn views_in(alloc: Global, files: Files<PlayDisk>) -> Result<Vec<u8>> {
    let saved = PlayFiles::from_files(files).saved(alloc)?;
    views_of(alloc, &saved)
}

/// Lets the log fail after each number of calls of an opening of empty files, and checks that a fresh project is found
/// each time. Returns how often the opening failed.
fn stop_openings(alloc: Global) -> Result<u64> {
    let blank = Saved::empty(alloc);
    let fresh = views_of(alloc, &blank)?;
    for calls in 0..MOST_CALLS {
        let files = blank.stopping(alloc, Side::Log, calls)?;
        let Some(left) = open_left(alloc, files.into_files())? else {
            return Ok(calls);
        };
        ensure!(
            views_in(alloc, left)?.as_slice() == fresh.as_slice(),
            "another project"
        );
    }
    bail!("the calls go on")
}

/// Closes a project whose database file fails after `calls` calls, and checks that it is found after a crash. Returns
/// whether the close succeeded; `None` if a call failed before it.
fn stop_close(alloc: Global, saved: &Saved, calls: u64, seen: &[u8]) -> Result<Option<bool>> {
    let files = saved.stopping(alloc, Side::Database, calls)?;
    let Some((is_closed, left)) = close_and_go_on(alloc, files.into_files())? else {
        return Ok(None);
    };
    ensure!(views_in(alloc, left)?.as_slice() == seen, "another project");
    Ok(Some(is_closed))
}

/// Closes a project whose database file fails after `calls` calls, and checks that it is found in the store that is
/// left.
fn adopt_left(alloc: Global, saved: &Saved, calls: u64, seen: &[u8]) -> Result<()> {
    let files = saved.stopping(alloc, Side::Database, calls)?;
    let Some(left) = close_left(alloc, files.into_files())? else {
        bail!("the close leaves no store");
    };
    ensure!(views_in(alloc, left)?.as_slice() == seen, "another project");
    Ok(())
}

/// Lets the database file fail after each number of calls of a close. Returns the numbers after which the close failed.
fn stop_closes(alloc: Global, saved: &Saved, seen: &[u8]) -> Result<Vec<u64>> {
    let mut stops = Vec::new(alloc);
    for calls in 0..MOST_CALLS {
        match stop_close(alloc, saved, calls, seen)? {
            Some(true) => return Ok(stops),
            Some(false) => {
                adopt_left(alloc, saved, calls, seen)?;
                stops.push(calls)?;
            }
            None => {}
        }
    }
    bail!("the calls go on")
}

/// Lets openings and closes fail, and writes how often they did.
fn stop(alloc: Global, saved: &Saved, seen: &[u8], transcript: &mut Vec<u8>) -> Result<()> {
    let openings = stop_openings(alloc).context("an opening")?;
    writeln!(
        transcript,
        "an opening stops {openings} times: each time a fresh project is found"
    )?;
    let closes = stop_closes(alloc, saved, seen).context("a close")?.len();
    ensure!(closes > 0, "no close stops");
    writeln!(
        transcript,
        "a close stops {closes} times: each time this project is found, also in the store that it left"
    )?;
    Ok(())
}

/// Runs commands twice over two files, and once over a file of the current folder.
fn run(rt: &HostRuntime, commands: &[Command], transcript: &mut Vec<u8>) -> Result<()> {
    let files = Saved::empty(rt.alloc()).files(rt.alloc())?.into_files();
    let left = run_twice(rt.alloc(), files, commands, transcript)?;
    transcript.write_all(views_in(rt.alloc(), left)?.as_slice())?;
    run_at(rt, "laws.db", Wary, Wary, commands, transcript)?;
    Ok(())
}

/// Runs the sessions of a script one after another, and writes their answers and all views of the end. Then lets
/// openings and closes fail, and runs the commands of the first session without a crash.
pub fn play(rt: &HostRuntime, text: &str, transcript: &mut Vec<u8>) -> Result<()> {
    let alloc = rt.alloc();
    let lives = lives(rt, text)?;
    let files = Saved::empty(alloc).files(alloc)?.into_files();
    let left = live_on(alloc, files, lives.as_slice(), transcript)?;
    let saved = PlayFiles::from_files(left).saved(alloc)?;
    let seen = views_of(alloc, &saved)?;
    transcript.write_all(seen.as_slice())?;
    stop(alloc, &saved, seen.as_slice(), transcript)?;
    match lives.first() {
        Some(commands) => run(rt, commands.as_slice(), transcript),
        None => Ok(()),
    }
}
