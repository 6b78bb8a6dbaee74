//! The counts over the crashes of an act.

use crate::course::{Act, Found};
use crate::runs::{End, Reach};
use std::io::{self, Write};
use wu_play_files::{Saved, Side};

/// What a crash left of an act, and the state that was found there.
#[derive(Drop)]
pub struct Find {
    pub files: Saved,
    pub reach: Reach,
    /// How many acts follow the one that was cut.
    pub rest: usize,
    pub found: Found,
}

/// How often each state was found after the crashes of an act.
#[derive(Drop)]
pub struct Finds {
    pub before: u64,
    pub after: u64,
    /// The latest find. If the next crash leaves the same files, its result is taken and the rest of the script does
    /// not run again.
    latest: Option<Find>,
}

impl Finds {
    fn new() -> Finds {
        Finds {
            before: 0,
            after: 0,
            latest: None,
        }
    }

    /// Returns what the latest find found, if it was of the same files after the same act that came as far.
    pub fn known(&self, files: &Saved, reach: Reach, rest: usize) -> Option<Found> {
        match &self.latest {
            Some(find) if find.reach == reach && find.rest == rest => {
                if find.files.is_same(files) {
                    Some(find.found)
                } else {
                    None
                }
            }
            _ => None,
        }
    }

    /// Counts a find, and keeps it as the latest one.
    pub fn count(&mut self, find: Find) {
        match find.found {
            Found::Before => self.before = self.before.saturating_add(1),
            Found::After => self.after = self.after.saturating_add(1),
        }
        self.latest = Some(find);
    }
}

/// How the act ended, over all its crashes.
#[derive(Drop)]
pub struct Ends {
    /// No session began.
    unbegun: u64,
    /// The act ended with a fault.
    cut: u64,
    /// After such a fault a session began again over the same database.
    again: u64,
    /// The act was answered.
    answered: u64,
    /// The file of the database had the bytes that it had before.
    same: u64,
}

impl Ends {
    fn new() -> Ends {
        Ends {
            unbegun: 0,
            cut: 0,
            again: 0,
            answered: 0,
            same: 0,
        }
    }

    /// Counts an end, and whether the file of the database has the bytes that it had before.
    pub fn count(&mut self, end: &End, has_bytes: bool) {
        match end.reach {
            Reach::Unbegun => self.unbegun = self.unbegun.saturating_add(1),
            Reach::Cut(_) => self.cut = self.cut.saturating_add(1),
            Reach::Done => self.answered = self.answered.saturating_add(1),
        }
        if end.again.is_some() {
            self.again = self.again.saturating_add(1);
        }
        if has_bytes {
            self.same = self.same.saturating_add(1);
        }
    }
}

/// The counts over the crashes of an act.
pub struct Tally {
    pub ends: Ends,
    /// What was found if the crash lost what was not synced.
    pub lost: Finds,
    /// What was found if the crash kept all that was written.
    pub kept: Finds,
}

// It is written out, so that a caller does not prove again how each part is dropped.
impl Drop for Tally {
    fn drop(self) {
        let Tally {
            ends: _ends,
            lost: _lost,
            kept: _kept,
        } = self;
    }
}

impl Tally {
    pub fn new() -> Tally {
        Tally {
            ends: Ends::new(),
            lost: Finds::new(),
            kept: Finds::new(),
        }
    }

    /// Writes the counts of an act for crashes by this file. All faults were `Broken`.
    pub fn write(&self, act: &Act, side: Side, transcript: &mut Vec<u8>) -> io::Result<()> {
        let Tally { ends, lost, kept } = self;
        write!(
            transcript,
            "{side}: {} without a session, {} Broken",
            ends.unbegun, ends.cut
        )?;
        if ends.again > 0 {
            write!(transcript, " ({} begun again)", ends.again)?;
        }
        write!(
            transcript,
            ", {} answered; {} before, {} after; with all that was written {} before, {} after",
            ends.answered, lost.before, lost.after, kept.before, kept.after
        )?;
        if act.before.seen.is_same(&act.after) {
            return writeln!(transcript, "; {} with the same database file", ends.same);
        }
        writeln!(transcript)
    }
}
