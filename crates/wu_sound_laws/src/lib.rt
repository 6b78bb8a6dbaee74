//! What soundness gives to those who run a project: each function's contract is a law.
#![tactic(auto)]

pub mod laws;
