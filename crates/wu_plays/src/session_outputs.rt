//! Scenarios of a session into writers that fail. After each failure the project is that after the lines whose answers
//! went out, and at most the next line.

use crate::outputs::{Print, play_cuts};
use crate::scripts::serve;
use crate::seen::{Seen, look};
use anyhow::{Result, bail, ensure};
use sqlite::{Alter, Connection};
use std::io::Write;
use wu_play_files::Narrow;

/// How many bytes a session has printed after a line, and a snapshot of the project then.
struct Mark {
    length: usize,
    seen: Seen,
}

// It is written out, so that a caller does not prove again how each part is dropped.
impl Drop for Mark {
    fn drop(self) {
        let Mark {
            length: _length,
            seen: _seen,
        } = self;
    }
}

/// Answers the lines of a text over the project in a database. Returns the status, and a snapshot of the project.
fn serve_and_look<S: Alter + Drop>(
    rt: &HostRuntime,
    conn: Connection<S>,
    text: &str,
    out: &mut Narrow,
) -> Result<(u8, Seen)> {
    let (conn, served) = serve(rt, conn, text, out);
    let (_, seen) = look(rt.alloc(), conn)?;
    match served {
        Ok(status) => Ok((status, seen)),
        Err(_) => bail!("no session begins"),
    }
}

/// Answers the lines of a text over a fresh project in memory. Returns the status, and a snapshot of the project.
fn serve_fresh(rt: &HostRuntime, text: &str, out: &mut Narrow) -> Result<(u8, Seen)> {
    serve_and_look(rt, Connection::open_in_memory(rt.alloc())?, text, out)
}

/// Returns the mark after the lines of a text.
fn mark_after(rt: &HostRuntime, text: &str) -> Result<Mark> {
    let mut out = Narrow::wide(rt.alloc());
    let (status, seen) = serve_fresh(rt, text, &mut out)?;
    ensure!(status == 0, "status {status}");
    Ok(Mark {
        length: out.taken.len(),
        seen,
    })
}

/// Returns the marks before the first line of a script and after each line.
fn marks(rt: &HostRuntime, text: &str) -> Result<Vec<Mark>> {
    let mut front = String::new(rt.alloc());
    let mut marks = Vec::from_array(rt.alloc(), [mark_after(rt, "")?])?;
    for line in text.lines() {
        front.push_str(line)?;
        front.push_str("\n")?;
        marks.push(mark_after(rt, front.as_str())?)?;
    }
    Ok(marks)
}

/// Returns whether a snapshot is of the project after the lines whose answers are in the first `length` bytes, or after
/// these and the next line.
fn is_held(marks: &[Mark], length: usize, seen: &Seen) -> bool {
    let mut is_answered = false;
    for mark in marks {
        let is_same = mark.seen.is_same(seen);
        if mark.length > length {
            return is_answered || is_same;
        }
        is_answered = is_same;
    }
    is_answered
}

/// A session whose lines are a script.
#[derive(Drop)]
struct Session<'a> {
    rt: &'a HostRuntime,
    text: &'a str,
    marks: &'a [Mark],
}

impl Print for Session<'_> {
    fn print(&self, out: &mut Narrow) -> Result<u8> {
        let (status, seen) = serve_fresh(self.rt, self.text, out)?;
        let is_held = is_held(self.marks, out.taken.len(), &seen);
        ensure!(is_held, "another project");
        Ok(status)
    }
}

/// What is checked of each run whose output fails.
const CHECKED: &str =
    "status 5, the bytes before, and the lines that they answer are done, at most one more";

/// Runs a scenario over a fresh project in memory.
pub fn play(rt: &HostRuntime, text: &str, transcript: &mut Vec<u8>) -> Result<()> {
    let marks = marks(rt, text)?;
    let session = Session {
        rt,
        text,
        marks: marks.as_slice(),
    };
    play_cuts(rt.alloc(), &session, CHECKED, transcript)
}
