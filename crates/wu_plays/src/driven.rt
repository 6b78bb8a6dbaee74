//! Scenarios of commands that run as one list into a writer that fails after a number of bytes. The transcript has the
//! bytes that went out, how many commands were acknowledged, and all views after the run.

use crate::scripts::steps;
use crate::sessions::{adopt, do_action, views};
use anyhow::{Result, bail, ensure};
use sqlite::{Alter, Connection};
use std::alloc::Global;
use std::io::Write;
use std::mem;
use wu_arguments::{Action, Step};
use wu_drive::{Command, Project, Run, drive};
use wu_feed::Rows;
use wu_play_files::{Full, Narrow};

/// Returns the commands of an action. Fails for a view.
fn commands(alloc: Global, mut action: Action) -> Result<Vec<Command>> {
    match &mut action {
        Action::Commands(commands) => {
            Ok(mem::replace(commands, Rows::from_vec(Vec::new(alloc))).into_vec())
        }
        Action::Look(_) => bail!("a view is not driven"),
        Action::Refused(_) => bail!("a refused line is not driven"),
    }
}

/// Runs the lines before line `first`. Returns the commands of the other lines in their order.
fn begin<S: Alter>(
    alloc: Global,
    project: &mut Project<S>,
    steps: Vec<Step>,
    first: u64,
) -> Result<Vec<Command>> {
    let mut list = Vec::new(alloc);
    for step in steps {
        if step.number >= first {
            list.append(&mut commands(alloc, step.into_action())?)?;
        } else if let Some(fault) = do_action(alloc, project, Some(&step.action)) {
            bail!("line {}: {fault}", step.number);
        }
    }
    Ok(list)
}

/// Writes the bytes that went out, how many commands were acknowledged, and the fault that ended the list. Fails if the
/// writer was called again after it had failed.
fn write_run(out: &Narrow, run: &Run, transcript: &mut Vec<u8>) -> Result<()> {
    ensure!(!out.is_called_again, "a call behind the fault");
    transcript.write_all(out.taken.as_slice())?;
    write!(transcript, "\nacknowledged {}", run.acknowledged)?;
    if let Some(fault) = run.end {
        write!(transcript, ", {fault}")?;
    }
    writeln!(transcript)?;
    Ok(())
}

/// Runs the lines before line `first` over the project in a database, and then the others as one list into `out`.
fn play_over<S: Alter + Drop>(
    alloc: Global,
    conn: Connection<S>,
    steps: Vec<Step>,
    first: u64,
    mut out: Narrow,
    transcript: &mut Vec<u8>,
) -> Result<()> {
    let mut project = adopt(conn)?;
    let list = begin(alloc, &mut project, steps, first)?;
    let run = drive(alloc, &mut project, list.as_slice(), &mut out);
    write_run(&out, &run, transcript)?;
    transcript.write_all(views(alloc, &mut project)?.as_slice())?;
    Ok(())
}

/// Runs a scenario over a fresh project in memory. Its lines from line `first` on run as one list into a writer with
/// room for `room` bytes.
pub fn play(
    rt: &HostRuntime,
    text: &str,
    first: u64,
    room: usize,
    transcript: &mut Vec<u8>,
) -> Result<()> {
    let alloc = rt.alloc();
    let steps = steps(rt, text)?.into_vec();
    let out = Narrow::new(alloc, room, usize::MAX, Full::Fails, usize::MAX);
    play_over(
        alloc,
        Connection::open_in_memory(alloc)?,
        steps,
        first,
        out,
        transcript,
    )
}
