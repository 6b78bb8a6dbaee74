//! The laws of histories of sessions: lists of commands, crashes, and the sessions that go on over what is found.
//!
//! The comments over clauses leave out two premises. The disk is clean: it returns what was written, and nobody else
//! writes the file. And the session that a call is given is over a world: its tables represent one that commands run
//! over, and a crash could leave only tables of this world.
#![tactic(auto)]

mod driving;
mod reopening;
mod runs;
mod soundness;

pub use reopening::{drive_stop_and_open, live, live_all};
pub use runs::{begin_at, run_and_begin_again, run_and_close, run_and_leave};
pub use soundness::leaves_sound;
