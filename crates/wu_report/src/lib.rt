//! The views of a project, as exact bytes: what each line is made of, and how text reaches a writer.
#![tactic(auto)]

pub mod examples;
pub mod laws;
mod lines;
mod output;
mod skips;
mod views;

pub use lines::{applied_count, number_or_dash, pass_word};
pub use output::{Piece, flush, write_pieces};
pub use skips::write_skips;
pub use views::show;
pub use wu_machine::View;
