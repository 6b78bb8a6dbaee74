//! The plan of each command over a database: what it will answer and what it changes, before anything is changed.
#![tactic(auto)]

mod batch;
mod cancel;
mod classes;
mod copies;
mod files;
mod imports;
mod passes;
mod plan;
mod sums;
mod touched;
mod upgrade;

pub use batch::plan_batch;
pub use cancel::plan_cancel;
pub use classes::plan_classes;
pub use copies::copy_of;
pub use files::{plan_reported, plan_sent};
pub use passes::{Ask, plan_pass, with_archived, with_grants};
pub use plan::Plan;
pub use upgrade::plan_upgrade;
