//! Scenarios over a database in memory. Each line of the script is a command of its own, and the script goes on after a
//! line that is refused.

use crate::scripts::{action, write_bad_line, write_comment, write_status};
use crate::sessions::adopt;
use anyhow::Result;
use sqlite::{Alter, Connection};
use std::io::Write;
use wu_cli::{perform, write_fault};
use wu_drive::Project;
use wu_feed::{ScriptLine, read_script};

/// Runs a line, writes its answer and its fault, and returns its status.
fn answer<S: Alter>(
    rt: &HostRuntime,
    project: &mut Project<S>,
    line: ScriptLine,
    transcript: &mut Vec<u8>,
) -> u8 {
    let action = match action(rt, line) {
        Ok(action) => action,
        Err(bad) => return write_bad_line(bad, transcript),
    };
    let (status, end) = perform(rt.alloc(), project, &action, transcript);
    if let Some(fault) = end {
        let _ = write_fault(&fault, transcript);
    }
    status
}

/// Runs a line of the script, and writes it with its answer.
pub fn play_line<S: Alter>(
    rt: &HostRuntime,
    project: &mut Project<S>,
    line: &str,
    transcript: &mut Vec<u8>,
) -> Result<()> {
    write_comment(line, transcript)?;
    for its in read_script(rt.alloc(), line.as_bytes())?.into_vec() {
        writeln!(transcript, "> {line}")?;
        let status = answer(rt, project, its, transcript);
        write_status(status, transcript)?;
    }
    Ok(())
}

/// Runs a script over the project in a database. If a session has ended, another begins.
fn play_over<S: Alter + Drop>(
    rt: &HostRuntime,
    conn: Connection<S>,
    text: &str,
    transcript: &mut Vec<u8>,
) -> Result<()> {
    let mut project = adopt(conn)?;
    for line in text.lines() {
        play_line(rt, &mut project, line, transcript)?;
        if project.ended() {
            project = adopt(project.release())?;
        }
    }
    Ok(())
}

/// Runs a scenario over a fresh project in memory.
pub fn play(rt: &HostRuntime, text: &str, transcript: &mut Vec<u8>) -> Result<()> {
    play_over(
        rt,
        Connection::open_in_memory(rt.alloc())?,
        text,
        transcript,
    )
}
