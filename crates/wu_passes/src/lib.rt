//! A project over a database: a session, its commands, each one transaction, and the machine that they follow.
//!
//! The comments over clauses on a database leave out a premise: the disk is clean. It returns what was written, and
//! nobody else writes the file. What they say of a world holds of each world that the tables represented and that
//! commands run over (`IsProject`). Its version is one that this program knows, its names differ, and its values can be
//! read.
#![tactic(auto)]

mod commit;
mod project;
mod upgrading;
mod version;

pub use project::Project;
pub use upgrading::upgrade;
pub use wu_machine::{Answer, Batch, Command, RowsFile};
pub use wu_rules::Pass;
pub use wu_views::{DueLine, ResultLine, StatusLine, Summary, Takes, WorkunitLine};
