//! The machine, the abstract back end: commands, answers and their effect on a project's world, without tables.
#![tactic(auto)]

mod command;
mod cycles;
pub mod examples;
pub mod laws;
mod view;

pub use command::{Answer, Batch, Command, RowsFile};
pub use cycles::cycle;
pub use view::View;
