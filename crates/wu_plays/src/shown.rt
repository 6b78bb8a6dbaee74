//! Scenarios of one view over one project. It is printed into writers that take a few bytes a call and fail after each
//! number of bytes. After each failure it is printed whole.

use crate::outputs::went_out;
use crate::scripts::steps;
use crate::sessions::{adopt, do_action};
use anyhow::{Context, Result, bail, ensure};
use sqlite::{Alter, Connection};
use std::alloc::Global;
use std::io::Write;
use wu_arguments::{Action, Step, fault_status};
use wu_cli::perform;
use wu_core::Fault;
use wu_drive::Project;
use wu_play_files::{Full, Narrow};

/// The number of bytes that a writer takes in one call.
const MOST: usize = 7;

/// Returns what the view prints into a writer that takes all of it.
fn whole<S: Alter>(alloc: Global, project: &mut Project<S>, view: &Action) -> Result<Vec<u8>> {
    let mut text = Vec::new(alloc);
    if let Some(fault) = perform(alloc, project, view, &mut text).1 {
        bail!("the view: {fault}");
    }
    Ok(text)
}

/// Prints a view into a writer with room for `room` bytes. Checks that the first `room` bytes of the whole text went
/// out, and that a text which was cut ends with the fault `Output`.
fn show<S: Alter>(
    alloc: Global,
    project: &mut Project<S>,
    view: &Action,
    whole: &[u8],
    room: usize,
) -> Result<()> {
    let mut out = Narrow::new(alloc, room, MOST, Full::Fails, usize::MAX);
    let (status, end) = perform(alloc, project, view, &mut out);
    went_out(&out, whole, room)?;
    let (wanted, fault) = if room < whole.len() {
        (fault_status(Fault::Output), Some(Fault::Output))
    } else {
        (0, None)
    };
    ensure!(status == wanted && end == fault, "it ends otherwise");
    Ok(())
}

/// Prints the view with room for each number of bytes up to its length, and after each of them whole.
fn show_each<S: Alter>(
    alloc: Global,
    project: &mut Project<S>,
    view: &Action,
    whole: &[u8],
) -> Result<()> {
    for room in 0..=whole.len() {
        show(alloc, project, view, whole, room).context(format_args!("after {room} bytes"))?;
        show(alloc, project, view, whole, whole.len()).context(format_args!(
            "behind {room} bytes"
        ))?;
    }
    Ok(())
}

/// Runs these lines, none of which may end with a fault.
fn do_all<S: Alter>(alloc: Global, project: &mut Project<S>, steps: &[Step]) -> Result<()> {
    for step in steps {
        let end = do_action(alloc, project, Some(&step.action));
        ensure!(end.is_none(), "line {} ends with a fault", step.number);
    }
    Ok(())
}

/// Runs all lines except the last over the project in a database, and prints the view of the last line in each way.
fn play_over<S: Alter + Drop>(
    alloc: Global,
    conn: Connection<S>,
    steps: &[Step],
    transcript: &mut Vec<u8>,
) -> Result<()> {
    let mut project = adopt(conn)?;
    let Some((last, before)) = steps.split_last() else {
        bail!("no line");
    };
    do_all(alloc, &mut project, before)?;
    let text = whole(alloc, &mut project, &last.action)?;
    show_each(alloc, &mut project, &last.action, text.as_slice())?;
    transcript.write_all(text.as_slice())?;
    writeln!(
        transcript,
        "cut after each of {} bytes, by a writer that takes {MOST} a call: F17 Output, status 5, the bytes before; shown \
         again, it is whole",
        text.len()
    )?;
    Ok(())
}

/// Runs a scenario over a fresh project in memory.
pub fn play(rt: &HostRuntime, text: &str, transcript: &mut Vec<u8>) -> Result<()> {
    let alloc = rt.alloc();
    let steps = steps(rt, text)?;
    play_over(
        alloc,
        Connection::open_in_memory(alloc)?,
        steps.as_slice(),
        transcript,
    )
}
