//! The rows of a project's views, one after another, and the numbers of its summary.
//!
//! The comments over clauses on a database leave out a premise that all of these clauses have: the disk is clean. It
//! returns what was written, and nobody else writes the file.
#![tactic(auto)]

mod counts;
mod failures;
mod lines;
mod listings;
mod named;
mod questions;
mod tallies;
mod texts;
mod waiting;
mod walking;

pub use counts::summary;
pub use failures::HostFailures;
pub use lines::{ImportLine, ResultLine, Summary, WorkunitLine};
pub use listings::{
    ArchiveListing, ClassListing, HostListing, ImportListing, Listing, ResultListing,
    WorkunitListing,
};
pub use named::import_lines_named;
pub use waiting::{DueLine, StatusLine, status_lines};
pub use walking::{Takes, walk};
