//! Sessions over two files, one of which may fail: each line of a script is a line of the session.

use crate::runs::{End, Left, Reach, told_over};
use crate::scripts::serve;
use anyhow::{Result, bail, ensure};
use sqlite::{Alter, Connection};
use std::alloc::Global;
use std::str;
use wu_arguments::fault_status;
use wu_cli::Trouble;
use wu_core::Fault;
use wu_play_files::{Pages, PlayFiles, Saved, Visit, options, visit_play};

/// The line that ends a session whose file has failed.
const BROKEN: &str = "= 3 F15 Broken\n";

/// What a session printed, and how it ended.
#[derive(Drop)]
struct Served {
    printed: Vec<u8>,
    end: Result<u8, Trouble>,
}

/// A visitor that answers the lines of a script as those of a session.
#[derive(Drop)]
struct Serving<'a> {
    rt: &'a HostRuntime,
    text: &'a str,
}

impl<'a> Visit for Serving<'a> {
    type Told = Served;

    fn visit<S: Alter + Drop>(
        self,
        alloc: Global,
        conn: Connection<S>,
    ) -> Result<(Connection<S>, Served)> {
        let mut printed = Vec::new(alloc);
        let (conn, end) = serve(self.rt, conn, self.text, &mut printed);
        Ok((conn, Served { printed, end }))
    }
}

/// Returns what a session prints over empty files that do not fail.
pub fn whole_session(rt: &HostRuntime, text: &str) -> Result<String> {
    let files = Saved::empty(rt.alloc());
    let Served { printed, end } = told_over(rt.alloc(), &files, Serving { rt, text })?;
    ensure!(matches!(end, Ok(0)), "the session ends with a fault");
    Ok(String::from_utf8(printed)?)
}

/// Returns how many acts a session has answered that printed this: the adoption, and each line that was done.
fn answers(printed: &str) -> usize {
    let mut count = 0usize;
    for line in printed.lines() {
        if line == "= 0" || line.starts_with("= ready ") {
            count = count.saturating_add(1);
        }
    }
    count
}

/// A session: the script of its lines, and what it prints over files that do not fail.
#[derive(Clone, Copy)]
pub struct Session<'a> {
    pub rt: &'a HostRuntime,
    pub text: &'a str,
    pub whole: &'a str,
}

impl Session<'_> {
    /// Returns whether the session answers so many acts over files that do not fail.
    pub fn answers_all(&self, count: usize) -> bool {
        answers(self.whole) == count
    }

    /// Returns how many acts were answered before a file failed. Fails if anything was printed except what the session
    /// prints up to there, and the line of the fault.
    fn answered(&self, printed: &str) -> Result<usize> {
        let Some(before) = printed.strip_suffix(BROKEN) else {
            bail!("the session ends with another line");
        };
        let is_cut = self.whole.starts_with(before) && before.len() < self.whole.len();
        ensure!(is_cut, "other answers");
        Ok(answers(before))
    }

    /// Returns how far the session came, and how many acts were answered.
    fn reach(&self, served: &Served) -> Result<(Reach, usize)> {
        let printed = str::from_utf8(served.printed.as_slice())?;
        match &served.end {
            Ok(0) => {
                ensure!(printed == self.whole, "other answers");
                Ok((Reach::Done, answers(printed)))
            }
            Ok(status) => {
                ensure!(*status == fault_status(Fault::Broken), "status {status}");
                Ok((Reach::Cut(Fault::Broken), self.answered(printed)?))
            }
            Err(Trouble::Fault(Fault::Broken)) => {
                ensure!(printed.is_empty(), "an answer without a session");
                Ok((Reach::Unbegun, 0))
            }
            Err(_) => bail!("another trouble"),
        }
    }

    /// Opens files, runs the session over them, and closes them. If a call on the files fails, the run ends early.
    /// Returns what it left, and how many acts were answered.
    pub fn run(&self, files: PlayFiles, pages: Pages) -> Result<(Left, usize)> {
        let Session { rt, text, .. } = *self;
        let left = visit_play(rt.alloc(), files, options(1, pages), Serving { rt, text })?;
        let (files, told, is_closed) = left.into_parts();
        let (reach, answered) = match &told {
            Some(served) => self.reach(served)?,
            None => (Reach::Unbegun, 0),
        };
        let end = End { reach, again: None };
        let left = Left {
            files,
            end,
            is_closed,
        };
        Ok((left, answered))
    }
}
