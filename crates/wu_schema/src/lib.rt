//! The schema of a project's database: its texts, its creation, its version, when its tables represent a world, and one
//! transaction.
//!
//! A world is the abstract state of a project. The comments over clauses on a database leave out a premise that all of
//! these clauses have: the disk is clean. It returns what was written, and nobody else writes the file.
#![tactic(auto)]

mod asking;
mod classes;
mod columns;
mod creation;
mod fault;
pub mod laws;
mod lists;
mod queue;
pub mod rows;
mod table;
mod texts;
mod transaction;
mod version;

pub use asking::query;
pub use classes::make_classes;
pub use columns::{number_at, read_column};
pub use creation::create;
pub use fault::fault_of;
pub use queue::make_queue;
pub use table::ProjectTable;
pub use transaction::{TransactionWork, execute, transact};
pub use version::{check_version, version_of};
