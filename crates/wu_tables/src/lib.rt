//! Whether the tables of a project are in a schema as the program makes them, and whether an upgrade can make more, or
//! the program a new project.
#![tactic(auto)]

mod compare;
mod forms;
mod known;
mod lookup;
mod others;
mod project;
mod queue;
mod upgrades;

pub use known::form_of;
pub use others::has_only_a_project;
pub use project::{Misfit, know_tables};
pub use queue::queue_tree;
pub use upgrades::{taken_from_new, taken_name};
