//! The rows of a project's tables, read whole, as a world.
//!
//! A world is *readable* if each of its values is in its range. The comments over clauses on a database leave out a
//! premise that all of these clauses have: the disk is clean. It returns what was written, and nobody else writes the
//! file. Clauses on a reported row say nothing of out of memory.
#![tactic(auto)]

mod classes;
mod dealing;
pub mod finding;
mod hosts;
mod loading;
pub mod rows;
pub mod tables;
mod texts;
pub mod totals;
mod whole;
mod works;
pub mod world;

pub use loading::load_world;
pub use texts::SELECT_PROJECT;
pub use totals::other_sums;
