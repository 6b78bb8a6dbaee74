//! Lists of commands over a project, with the texts of their answers, and the demonstration.
//!
//! The comments over clauses leave out two premises. The disk is clean: it returns what was written, and nobody else
//! writes the file. And the tables represented a world that commands run over, of the version that the session is over.
#![tactic(auto)]

pub mod examples;
pub mod laws;
mod replies;
mod runs;

pub use runs::{Run, demo, drive, drive_and_count};
pub use wu_machine::cycle;
pub use wu_passes::{Answer, Batch, Command, Pass, Project, RowsFile};
pub use wu_report::{View, show};
