//! Scenarios of several crashes in one history of sessions. Each named command is cut by a crash, found as it was
//! before or after it, and run again before the rest.

use crate::course::{Act, Between, Found, course};
use crate::runs::{Left, Reach, run_over, seen_of};
use anyhow::{Result, bail, ensure};
use std::alloc::Global;
use std::io::{self, Write};
use wu_core::Fault;
use wu_play_files::{MOST_CALLS, Pages, Saved, Side};

/// How an act ends that a crash cuts.
const CUT: Reach = Reach::Cut(Fault::Broken);

/// Returns what the files hold after a crash of an act that was not answered. If the act is to be found undone, that is
/// what was synced alone; if done, it is all that was written.
fn held(alloc: Global, left: Left, wanted: Found) -> io::Result<Saved> {
    match wanted {
        Found::Before => left.after_stop(alloc),
        Found::After => left.files.saved(alloc),
    }
}

/// Runs an act whose log fails after `calls` calls. Returns what the files hold after the crash, or `None` if the act
/// did not end with `Broken`; and whether the log has failed.
fn cut_after(
    alloc: Global,
    files: &Saved,
    act: &Act,
    wanted: Found,
    calls: u64,
) -> Result<(Option<Saved>, bool)> {
    let files = files.stopping(alloc, Side::Log, calls)?;
    let mut left = run_over(alloc, files, act.action.as_ref(), Pages::All)?;
    let is_stopped = left.files.are_stopped();
    let files = if left.end.reach == CUT {
        Some(held(alloc, left, wanted)?)
    } else {
        None
    };
    Ok((files, is_stopped))
}

/// Runs an act as `cut_after` does. Returns `None` for the files also if the crash left another state than the wanted
/// one.
fn stop_after(
    alloc: Global,
    files: &Saved,
    act: &Act,
    wanted: Found,
    calls: u64,
) -> Result<(Option<Saved>, bool)> {
    let (cut, is_stopped) = cut_after(alloc, files, act, wanted, calls)?;
    let Some(files) = cut else {
        return Ok((None, is_stopped));
    };
    if act.found(&seen_of(alloc, &files)?, CUT)? == wanted {
        Ok((Some(files), is_stopped))
    } else {
        Ok((None, is_stopped))
    }
}

/// Returns what the files hold after the first crash of an act that leaves the wanted state, and after how many calls
/// it is. Returns `None` if no crash leaves it.
fn first_stop(
    alloc: Global,
    files: &Saved,
    act: &Act,
    wanted: Found,
) -> Result<Option<(Saved, u64)>> {
    for calls in 0..MOST_CALLS {
        let (left, is_stopped) = stop_after(alloc, files, act, wanted, calls)?;
        if let Some(left) = left {
            return Ok(Some((left, calls)));
        }
        if !is_stopped {
            return Ok(None);
        }
    }
    bail!("{}: the calls go on", act.title)
}

/// Cuts an act by the first crash that leaves the wanted state, and writes after how many calls it is. The files become
/// what the crash left.
fn cut(
    alloc: Global,
    files: &mut Saved,
    act: &Act,
    wanted: Found,
    transcript: &mut Vec<u8>,
) -> Result<()> {
    writeln!(transcript, "> {}", act.title)?;
    let word = match wanted {
        Found::Before => "before",
        Found::After => "after, with all that was written",
    };
    match first_stop(alloc, files, act, wanted)? {
        Some((left, calls)) => {
            *files = left;
            writeln!(transcript, "stopped after {calls} calls on the log: {word}")?;
        }
        None => bail!("no stop leaves it so: {word}"),
    }
    Ok(())
}

/// Runs an act over files that do not fail, and checks that it leads to the state of the course. Returns what they hold
/// then.
fn go_on(alloc: Global, files: &Saved, act: &Act) -> Result<Saved> {
    let left = run_over(alloc, files.files(alloc)?, act.action.as_ref(), Pages::All)?;
    ensure!(left.end.reach.is_done(), "{} ends with a fault", act.title);
    let files = left.files.saved(alloc)?;
    let seen = seen_of(alloc, &files)?;
    ensure!(seen.is_same(&act.after), "{} ends otherwise", act.title);
    Ok(files)
}

/// Runs a history of sessions in which the commands of these numbers are cut.
fn live(
    alloc: Global,
    acts: &[Act],
    numbers: &[usize],
    wanted: Found,
    transcript: &mut Vec<u8>,
) -> Result<()> {
    let mut files = Saved::empty(alloc);
    for (number, act) in acts.iter().enumerate() {
        if numbers.contains(&number) {
            cut(alloc, &mut files, act, wanted, transcript)?;
        }
        files = go_on(alloc, &files, act)?;
    }
    writeln!(transcript, "the end is that of a run without a stop")?;
    Ok(())
}

/// Runs a scenario in two histories of sessions. The crashes of the first lose what was not synced, those of the second
/// keep all that was written.
pub fn play(
    rt: &HostRuntime,
    text: &str,
    numbers: &[usize],
    transcript: &mut Vec<u8>,
) -> Result<()> {
    let acts = course(rt, text, Between::Closed, None)?;
    let acts = acts.as_slice();
    live(rt.alloc(), acts, numbers, Found::Before, transcript)?;
    live(rt.alloc(), acts, numbers, Found::After, transcript)
}
