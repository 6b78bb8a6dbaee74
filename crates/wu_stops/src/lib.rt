//! The laws of a project through crashes: what an opening finds after a crash, also during an adoption, an opening or a
//! close.
#![tactic(auto)]

mod beginning;
mod closing;
mod leftovers;
mod stopping;

pub use beginning::{adopt_stop_and_adopt, begin, open_and_adopt};
pub use closing::{
    close_stop_and_adopt, close_stop_and_open, stop_and_adopt_unclosed, stop_and_open_files,
    stop_and_open_unclosed,
};
pub use leftovers::stop_and_open_left;
pub use stopping::{stop_and_open, store_of};
