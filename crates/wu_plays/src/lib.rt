//! Scenarios: scripts that run over databases in memory, over files that fail and into writers that fail. Each writes a
//! transcript of its answers.
#![tactic(auto)]

mod course;
mod driven;
mod lives;
mod memory;
mod outputs;
mod runs;
mod scripts;
mod seen;
mod session_outputs;
mod session_stops;
mod sessions;
mod shown;
mod stops;
mod tables;
mod tally;
mod upgrades;
mod way;

pub use runs::views_of;
pub use scripts::{write_comment, write_status};
pub use way::Way;
