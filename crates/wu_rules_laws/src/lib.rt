//! Laws of the rules on one workunit, and worked examples of them.
#![tactic(auto)]

pub mod consistent;
pub mod examples;
pub mod laws;
pub mod rows;
pub mod transitions;
