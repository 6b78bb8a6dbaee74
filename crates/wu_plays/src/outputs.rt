//! Scenarios into writers that fail. They fail after each number of bytes up to the length of all that the script
//! prints, or after each number of flushes. No writer is called again once it has failed.

use crate::scripts::steps;
use crate::sessions::adopt;
use anyhow::{Context, Result, ensure};
use sqlite::{Alter, Connection};
use std::alloc::Global;
use std::io::Write;
use wu_arguments::{LineFault, Step, exit_status, fault_status};
use wu_cli::perform_script;
use wu_core::Fault;
use wu_play_files::{Full, Narrow};

/// What prints into a writer, over a fresh project in memory.
pub trait Print {
    /// Prints into a writer. Returns the status that it ends with.
    fn print(&self, out: &mut Narrow) -> Result<u8>;
}

/// A script that prints its answers.
#[derive(Drop)]
struct Script<'a> {
    alloc: Global,
    steps: &'a [Step],
}

/// Runs the script over the project in a database into a writer. Returns its status and the fault that ended it.
fn run_over<S: Alter + Drop>(
    alloc: Global,
    conn: Connection<S>,
    steps: &[Step],
    out: &mut Narrow,
) -> Result<(u8, Option<LineFault>)> {
    let mut project = adopt(conn)?;
    Ok(perform_script(alloc, &mut project, steps, out))
}

/// Runs the script over a fresh project in memory.
fn run(alloc: Global, steps: &[Step], out: &mut Narrow) -> Result<(u8, Option<LineFault>)> {
    run_over(alloc, Connection::open_in_memory(alloc)?, steps, out)
}

impl Print for Script<'_> {
    fn print(&self, out: &mut Narrow) -> Result<u8> {
        let (status, end) = run(self.alloc, self.steps, out)?;
        let fault = match end {
            Some(end) => Some(end.fault),
            None => None,
        };
        ensure!(status == exit_status(fault), "another status");
        Ok(status)
    }
}

/// What is checked of each run whose output fails.
const CHECKED: &str = "F17 Output, status 5, and the bytes before";

/// What each kind of writer does when it is full, and the number of bytes that it takes in one call.
const WRITERS: [(Full, usize); 2] = [(Full::Fails, 1), (Full::TakesNone, usize::MAX)];

/// Checks that a run ended with the status of the fault `Output`, if its output was cut, and else with 0.
fn has_status(status: u8, is_cut: bool) -> Result<()> {
    let wanted = if is_cut {
        fault_status(Fault::Output)
    } else {
        0
    };
    ensure!(status == wanted, "status {status}");
    Ok(())
}

/// Checks that the first `count` bytes of the whole output went out, and that the writer was not called again after it
/// had failed.
pub fn went_out(out: &Narrow, whole: &[u8], count: usize) -> Result<()> {
    let is_same = Some(out.taken.as_slice()) == whole.get(..count);
    ensure!(is_same, "other bytes");
    ensure!(!out.is_called_again, "a call behind the fault");
    Ok(())
}

/// Prints into a writer with room for `room` bytes. Checks that those bytes of the whole output went out, and that an
/// output which was cut ends with the status of the fault `Output`.
fn cut<P: Print>(print: &P, whole: &[u8], room: usize, mut out: Narrow) -> Result<()> {
    let status = print.print(&mut out)?;
    went_out(&out, whole, room)?;
    has_status(status, room < whole.len())
}

/// Prints into each kind of writer with room for `room` bytes.
fn cut_each<P: Print>(alloc: Global, print: &P, whole: &[u8], room: usize) -> Result<()> {
    for (full, most) in WRITERS {
        let out = Narrow::new(alloc, room, most, full, usize::MAX);
        cut(print, whole, room, out).context(format_args!("after {room} bytes"))?;
    }
    Ok(())
}

/// Prints into a writer that takes all of it and never fails. Returns the writer.
fn print_whole<P: Print>(alloc: Global, print: &P) -> Result<Narrow> {
    let mut out = Narrow::wide(alloc);
    let status = print.print(&mut out)?;
    has_status(status, false)?;
    Ok(out)
}

/// Prints once for each flush, which fails then, and writes after how many bytes the flushes are.
fn fail_flushes<P: Print>(
    alloc: Global,
    print: &P,
    whole: &Narrow,
    checked: &str,
    transcript: &mut Vec<u8>,
) -> Result<()> {
    write!(transcript, "flushed behind so many bytes:")?;
    for (number, count) in whole.flushed.iter().enumerate() {
        let mut out = Narrow::new(alloc, usize::MAX, usize::MAX, Full::Fails, number);
        let status = print.print(&mut out)?;
        went_out(&out, whole.taken.as_slice(), *count)?;
        has_status(status, true)?;
        write!(transcript, " {count}")?;
    }
    writeln!(transcript, "\nwhere one of these flushes fails: {checked}")?;
    Ok(())
}

/// Writes what is printed whole, and then prints into writers that fail after each number of bytes, or at each flush.
/// `checked` says what is checked of each.
pub fn play_cuts<P: Print>(
    alloc: Global,
    print: &P,
    checked: &str,
    transcript: &mut Vec<u8>,
) -> Result<()> {
    let whole = print_whole(alloc, print)?;
    let taken = whole.taken.as_slice();
    transcript.write_all(taken)?;
    for room in 0..=taken.len() {
        cut_each(alloc, print, taken, room)?;
    }
    writeln!(
        transcript,
        "cut after each of {} bytes, by each writer: {checked}",
        taken.len()
    )?;
    fail_flushes(alloc, print, &whole, checked, transcript)
}

/// Runs a scenario over a fresh project in memory.
pub fn play(rt: &HostRuntime, text: &str, transcript: &mut Vec<u8>) -> Result<()> {
    let steps = steps(rt, text)?;
    let script = Script {
        alloc: rt.alloc(),
        steps: steps.as_slice(),
    };
    play_cuts(rt.alloc(), &script, CHECKED, transcript)
}
