//! What the host shows: what lies at the path of a database and beside it, what headers say, and the progress line of a
//! terminal. No clause can say what files there are, nor what a terminal shows.
#![tactic(auto)]

mod beside;
mod expected;
mod file;
mod header;
mod signs;

pub use beside::{
    has_content_beside, has_foreign_log, has_linked_log, has_log, is_emptied, is_foreign,
    is_no_file, is_taken_beside, may_have_log, take_log_back,
};
pub use expected::{Expected, expected_of};
pub use file::read_file;
pub use header::{has_many_free_pages, is_other_kind};
pub use signs::{Cleared, Signs, Watched};
