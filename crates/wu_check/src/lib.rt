//! Whether an open database holds a sound project, and what keeps it from being one or from being upgraded.
//!
//! *Kept* tables have their rows in order of their rowids, and no row of a workunit or of the queue ends before its
//! last column. The comments over clauses on a database leave out a premise that all of these clauses have: the disk is
//! clean. It returns what was written, and nobody else writes the file.
#![tactic(auto)]

mod checking;
mod counts;
mod finding;
mod judging;
mod keys;
mod marks;
mod version;

pub use checking::check;
pub use finding::{Counts, Finding, Key, Verdict};
