//! Runs of the functions of `wu_stops` and `wu_lives`. Their contracts say what these functions leave if they succeed,
//! and not that they do.
#![tactic(auto)]

mod closings;
mod files;
mod lives;
mod openings;
mod runs;

pub use closings::{close_and_go_on, close_left};
pub use lives::live_on;
pub use openings::open_left;
pub use runs::{run_at, run_twice};
