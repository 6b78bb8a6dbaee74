//! What scenarios run over: files in memory that fail after a number of calls, databases that are opened over them and
//! closed, and writers that fail.
#![tactic(auto)]

mod disks;
mod files;
mod narrow;

pub use disks::{MOST_CALLS, PlayDisk, PlayFiles, Saved, Side};
pub use files::{Left, Pages, Visit, options, visit_play};
pub use narrow::{Full, Narrow};
