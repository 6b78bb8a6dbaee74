//! What is open in a project, within its session.

ghost use Rattle.wu_core.specs.Storable.{AreStorable};
ghost use Rattle.wu_store.specs.Reads.{WithQueue};
ghost use Rattle.wu_views.specs.Waiting.{FindsStatusLines};

use crate::project::Project;
use sqlite::Alter;
use std::alloc::Global;
use wu_core::{Fault, Moment};
use wu_views::{StatusLine, status_lines};

impl<S: Alter> Project<S> {
    ghost use Rattle.wu_passes.specs.Projects.{Looks};

    /// Returns what is open at this moment: for each pass how many workunits it would change, if it had no limit; how
    /// many workunits are undecided and given up; how many instances in progress are overdue, and the earliest deadline of
    /// the others. A purge is taken to have the least age 0. It changes no table; `Broken` ends the session.
    ///
    /// `NotAProject` means that a row is invalid. Over an older version the answer is `OldSchema`, and nothing is read.
    pub fn status_lines(&mut self, alloc: Global, now: Moment) -> Result<Vec<StatusLine>, Fault>
        // With Ok these are the lines of each world with classes that the tables and the queue
        // represent. Over such a world with values in range it is not refused.
        ensures { Looks self.old self.new result WithQueue (FindsStatusLines now) AreStorable }
    {
        if self.has_ended {
            return Err(Fault::Ended);
        }
        if let Some(version) = self.older {
            return Err(Fault::OldSchema(version));
        }
        match status_lines(&mut self.conn, alloc, now) {
            Ok(lines) => Ok(lines),
            Err(fault) => {
                if fault == Fault::Broken {
                    self.has_ended = true;
                }
                Err(fault)
            }
        }
    }
}
