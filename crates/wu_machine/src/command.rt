//! Commands to a project, and its answers.

use wu_core::{Bytes, ImportKind, Moment, Name};
use wu_rules::Pass;

/// A file of jobs and the template of their parameters, under the name of the batch.
#[derive(Drop)]
pub struct Batch {
    pub name: Name,
    pub template: Bytes,
    pub file: Bytes,
}

/// A file of rows that are applied one by one, or skipped, under the name of its import.
#[derive(Drop)]
pub struct RowsFile {
    pub name: Name,
    pub file: Bytes,
}

/// A command to a project. Each is done whole or not at all.
///
/// A pass changes the first workunits of the world's list for which it is due, up to its limit of 1 to 1000. In a sound
/// world they are the first by number. The least age of a purge is at most 31,536,000 seconds, 365 days.
pub enum Command {
    /// Adds the jobs of a batch.
    Batch(Batch),
    /// Applies the rows of a file of sends.
    Sent(RowsFile),
    /// Applies the rows of a file of reports.
    Reported(RowsFile),
    /// Sets the classes of hosts by the rows of a file, a later row over an earlier one.
    Classes(RowsFile),
    /// Ends overdue instances, makes the instances that are needed, closes workunits that are given up, and marks files
    /// for deletion. Sets the class of workunits without an active instance to 0.
    Transition {
        now: Moment,
        limit: u64,
    },
    /// Validates results, and grants credit.
    Validate {
        limit: u64,
    },
    /// Archives the workunits that are READY, with their canonical outputs, permanently.
    Assimilate {
        now: Moment,
        limit: u64,
    },
    /// Deletes the inputs and outputs that are marked for deletion.
    Delete {
        limit: u64,
    },
    /// Removes the workunits that were assimilated at least this many seconds ago, with all instances over and all
    /// files deleted.
    Purge {
        now: Moment,
        limit: u64,
        min_age: u64,
    },
    /// Gives up an undecided workunit.
    Cancel {
        workunit: Name,
    },
    /// Brings the schema to the present version.
    Upgrade,
}

// It is written out, so that a caller does not prove again how each part is dropped.
impl Drop for Command {
    fn drop(self) {
        match self {
            Command::Batch(_batch) => {}
            Command::Sent(_file) | Command::Reported(_file) | Command::Classes(_file) => {}
            Command::Transition {
                now: _now,
                limit: _limit,
            }
            | Command::Assimilate {
                now: _now,
                limit: _limit,
            } => {}
            Command::Validate { limit: _limit } | Command::Delete { limit: _limit } => {}
            Command::Purge {
                now: _now,
                limit: _limit,
                min_age: _min_age,
            } => {}
            Command::Cancel {
                workunit: _workunit,
            } => {}
            Command::Upgrade => {}
        }
    }
}

/// A project's answer to a command that it accepted.
pub enum Answer {
    /// A file was imported, now or at an earlier command.
    Imported {
        kind: ImportKind,
        name: Name,
        /// The first number of a batch; 0 if no workunit was made.
        first: u64,
        /// One for each row: 0 if it was applied, otherwise the number of the verdict that skips it.
        verdicts: Bytes,
    },
    /// A pass changed so many workunits.
    Passed {
        pass: Pass,
        handled: u32,
    },
    /// The workunit of this name was given up.
    Cancelled {
        workunit: Name,
    },
    /// The schema had one version, and has the other now.
    Upgraded {
        from: u64,
        to: u64,
    },
}

// It is written out, so that a caller does not prove again how each part is dropped.
impl Drop for Answer {
    fn drop(self) {
        match self {
            Answer::Imported {
                kind: _kind,
                name: _name,
                first: _first,
                verdicts: _verdicts,
            } => {}
            Answer::Passed {
                pass: _pass,
                handled: _handled,
            } => {}
            Answer::Cancelled {
                workunit: _workunit,
            } => {}
            Answer::Upgraded {
                from: _from,
                to: _to,
            } => {}
        }
    }
}
