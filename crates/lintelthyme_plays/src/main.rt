//! Runs the scenarios of the list `plays`: over databases in memory, over files that fail, into writers that fail, and
//! by whole command lines. Prints their transcripts. A scenario that goes wrong prints a line that begins with `FAILED:
//! `, and the program then ends with status 1.
#![tactic(auto)]

mod laws;
mod plays;
mod words;

use anyhow::{Context, Result};
use plays::Play;
use std::fs;
use std::io::Write;
use std::process::ExitCode;

/// Runs the scenario of a line of the list, and writes its transcript.
fn play(rt: &HostRuntime, line: &str, transcript: &mut Vec<u8>) -> Result<()> {
    Play::read(rt.alloc(), line)?.run(rt, transcript)
}

/// Runs the scenario of a line of the list, and prints its transcript. Returns whether nothing went wrong.
fn play_line(rt: &HostRuntime, line: &str) -> Result<bool> {
    let mut transcript = Vec::new(rt.alloc());
    writeln!(transcript, "== {line}")?;
    let played = play(rt, line, &mut transcript);
    let is_right = played.is_ok();
    if let Err(error) = played {
        writeln!(transcript, "FAILED: {error:#}")?;
    }
    writeln!(transcript)?;
    rt.stdout().write_all(transcript.as_slice())?;
    Ok(is_right)
}

/// Runs all scenarios of the list. Returns whether nothing went wrong.
fn play_all(rt: &HostRuntime) -> Result<bool> {
    let list = fs::read_to_string(rt, "plays").context("the list of plays")?;
    let mut are_right = true;
    for line in list.as_str().lines() {
        if !line.is_empty() && !line.starts_with('#') {
            are_right &= play_line(rt, line)?;
        }
    }
    Ok(are_right)
}

fn main(rt: HostRuntime) -> Result<ExitCode> {
    if play_all(&rt)? {
        Ok(ExitCode::SUCCESS)
    } else {
        Ok(ExitCode::FAILURE)
    }
}
