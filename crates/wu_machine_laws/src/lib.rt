//! Laws of passes, of sound worlds, and of what lasts over lists of requests.
#![tactic(auto)]

pub mod files;
pub mod lasting;
pub mod laws;
pub mod leaving;
pub mod sound;
