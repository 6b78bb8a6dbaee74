//! A world that is made again, of an empty one, by changes: the new file of a backup is filled so, and has nothing that
//! was removed.
//!
//! The comments over clauses on a database leave out a premise that all of these clauses have: the disk is clean. It
//! returns what was written, and nobody else writes the file.
#![tactic(auto)]

mod filling;
pub mod laws;
mod loading;
mod making;
mod readiness;

pub use filling::changes_of;
pub use loading::{load_alone, load_refillable};
pub use making::{create_filled, refill};
pub use readiness::may_be_refilled;
