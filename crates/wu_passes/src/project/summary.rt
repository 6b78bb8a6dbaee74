//! The summary of a project, within its session.

ghost use Rattle.wu_store.specs.Reads.{FindsAt, WithClasses};
ghost use Rattle.wu_views.specs.Lines.{summary_of};
ghost use Rattle.wu_views.specs.Summaries.{IsCountable};

use crate::project::Project;
use sqlite::Alter;
use wu_core::Fault;
use wu_views::{Summary, summary};

impl<S: Alter> Project<S> {
    ghost use Rattle.wu_passes.specs.Projects.{CountsRows, Looks};

    /// Returns how much the project holds. It changes no table; `Broken` ends the session.
    ///
    /// `NotAProject` means that a row is invalid, or that the credit of all grants is not below 2^64. Over an older
    /// version the answer is `OldSchema`, and nothing is read.
    pub fn summary(&mut self) -> Result<Summary, Fault>
        // With Ok the numbers are those of each world with classes that the tables represent. Over one
        // whose numbers can be read it is not refused.
        ensures looks { Looks self.old self.new result WithClasses (FindsAt summary_of)
            IsCountable }
        // Whatever the tables hold, the summary counts every row of instances and of grants.
        ensures counted { CountsRows self.old self.new result }
    {
        if self.has_ended {
            return Err(Fault::Ended);
        }
        if let Some(version) = self.older {
            return Err(Fault::OldSchema(version));
        }
        match summary(&mut self.conn) {
            Ok(summary) => Ok(summary),
            Err(fault) => {
                if fault == Fault::Broken {
                    self.has_ended = true;
                }
                Err(fault)
            }
        }
    }
}
