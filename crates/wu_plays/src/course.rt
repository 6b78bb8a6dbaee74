//! The course of a script: what each of its acts leads to over two files that do not fail.

use crate::runs::{Reach, run_over, seen_of};
use crate::scripts::steps;
use crate::seen::Seen;
use anyhow::{Context, Result, bail, ensure};
use std::alloc::{AllocError, Global};
use wu_arguments::Action;
use wu_play_files::{MOST_CALLS, Pages, Saved, Side};

/// Which state of a project was found after a crash.
#[derive(Clone, Copy, PartialEq, Eq)]
pub enum Found {
    /// The state before the act.
    Before,
    /// The state after the act.
    After,
}

/// The contents of the files between two acts, and a snapshot of the project in them.
pub struct Stage {
    pub files: Saved,
    pub seen: Seen,
}

// It is written out, so that a caller does not prove again how each part is dropped.
impl Drop for Stage {
    fn drop(self) {
        let Stage {
            files: _files,
            seen: _seen,
        } = self;
    }
}

impl Stage {
    /// Returns the stage of files with these contents.
    fn of(alloc: Global, files: Saved) -> Result<Stage> {
        let seen = seen_of(alloc, &files)?;
        Ok(Stage { files, seen })
    }

    /// Returns the stage of empty files.
    fn blank(alloc: Global) -> Stage {
        Stage {
            files: Saved::empty(alloc),
            seen: Seen::blank(alloc),
        }
    }
}

/// An act of a course: the adoption of empty files, or a line of the script.
pub struct Act {
    /// The line of the script, or `(an adoption of empty files)`.
    pub title: String,
    /// The action of the line; `None` for the adoption.
    pub action: Option<Action>,
    pub before: Stage,
    /// The snapshot after the act.
    pub after: Seen,
}

// It is written out, so that a caller does not prove again how each part is dropped.
impl Drop for Act {
    fn drop(self) {
        let Act {
            title: _title,
            action: _action,
            before: _before,
            after: _after,
        } = self;
    }
}

impl Act {
    /// Returns which state a snapshot is that was taken after a crash. If the act was answered, only the state after it
    /// will do. Fails for any other snapshot.
    pub fn found(&self, seen: &Seen, reach: Reach) -> Result<Found> {
        let is_before = seen.is_same(&self.before.seen);
        if is_before && !reach.is_done() {
            return Ok(Found::Before);
        }
        if seen.is_same(&self.after) {
            return Ok(Found::After);
        }
        let why = if is_before {
            "an answered command is not there"
        } else {
            "neither the state before nor the one after"
        };
        bail!("{why}")
    }
}

/// How an act leaves its files to the next one.
#[derive(Clone, Copy)]
pub enum Between {
    /// Closed: the log is copied into the database.
    Closed,
    /// Not closed: the next opening finds a log.
    Unclosed,
}

/// Runs an act over files that do not fail, and returns their contents after the close.
fn closed_after(alloc: Global, files: &Saved, action: Option<&Action>) -> Result<Saved> {
    let left = run_over(alloc, files.files(alloc)?, action, Pages::All)?;
    ensure!(left.end.reach.is_done(), "it ends with a fault");
    ensure!(left.is_closed, "it is not closed");
    Ok(left.files.saved(alloc)?)
}

/// Runs an act whose database file fails after `calls` calls. Returns what was synced; `None` if the act was not
/// answered.
fn answered_after(
    alloc: Global,
    files: &Saved,
    action: Option<&Action>,
    calls: u64,
) -> Result<Option<Saved>> {
    let files = files.stopping(alloc, Side::Database, calls)?;
    let left = run_over(alloc, files, action, Pages::All)?;
    if !left.end.reach.is_done() {
        return Ok(None);
    }
    ensure!(!left.is_closed, "it is closed");
    Ok(Some(left.after_stop(alloc)?))
}

/// Returns what was synced after an act that is answered, and whose close fails at its first call on the database file.
fn unclosed_after(alloc: Global, files: &Saved, action: Option<&Action>) -> Result<Saved> {
    for calls in 0..MOST_CALLS {
        if let Some(files) = answered_after(alloc, files, action, calls)? {
            return Ok(files);
        }
    }
    bail!("it is not answered")
}

/// Returns the stage that an act leads to.
fn stage_after(
    alloc: Global,
    files: &Saved,
    action: Option<&Action>,
    between: Between,
) -> Result<Stage> {
    let files = match between {
        Between::Closed => closed_after(alloc, files, action)?,
        Between::Unclosed => unclosed_after(alloc, files, action)?,
    };
    Stage::of(alloc, files)
}

/// Returns copies of a title and of a snapshot.
fn copied(alloc: Global, title: &str, seen: &Seen) -> Result<(String, Seen), AllocError> {
    let title = String::from_str(alloc, title)?;
    Ok((title, seen.copy(alloc)?))
}

/// Returns the act that begins at a stage, and the stage that it leads to.
fn act_from(
    alloc: Global,
    stage: Stage,
    title: &str,
    action: Option<Action>,
    between: Between,
) -> Result<(Act, Stage)> {
    let next = stage_after(alloc, &stage.files, action.as_ref(), between).context(title)?;
    let (title, after) = copied(alloc, title, &next.seen)?;
    let act = Act {
        title,
        action,
        before: stage,
        after,
    };
    Ok((act, next))
}

/// Returns the line of this number, counted from 1; an empty text if there is no such line.
fn line_at(text: &str, number: u64) -> &str {
    let mut at = 0u64;
    for line in text.lines() {
        at = at.saturating_add(1);
        if at == number {
            return line;
        }
    }
    ""
}

/// Returns the stage of the files `start`. If there are none, adds the adoption of empty files as the first act, and
/// returns the stage after it.
fn first_stage(
    alloc: Global,
    start: Option<Saved>,
    between: Between,
    acts: &mut Vec<Act>,
) -> Result<Stage> {
    match start {
        Some(files) => Stage::of(alloc, files),
        None => {
            let title = "(an adoption of empty files)";
            let (act, stage) = act_from(alloc, Stage::blank(alloc), title, None, between)?;
            acts.push(act)?;
            Ok(stage)
        }
    }
}

/// Returns the acts of a script over the files `start`. If there are none, the first act is the adoption of empty
/// files.
pub fn course(
    rt: &HostRuntime,
    text: &str,
    between: Between,
    start: Option<Saved>,
) -> Result<Vec<Act>> {
    let alloc = rt.alloc();
    let mut acts = Vec::new(alloc);
    let mut stage = first_stage(alloc, start, between, &mut acts)?;
    for step in steps(rt, text)?.into_vec() {
        let title = line_at(text, step.number);
        let (act, next) = act_from(alloc, stage, title, Some(step.into_action()), between)?;
        acts.push(act)?;
        stage = next;
    }
    Ok(acts)
}
