//! What the view of results lists.

use crate::lines::ResultLine;
use crate::listings::Listing;
use crate::texts::LIST_RESULTS;
use sqlite::{Alter, Row};
use std::alloc::Global;
use wu_core::Fault;

/// The instances, in order of their workunits' numbers and their own.
pub struct ResultListing;

impl Listing for ResultListing {
    ghost use Rattle.wu_core.specs.Storable.{AreStorable};
    ghost use Rattle.wu_views.specs.Lines.{result_lines};
    ghost use Rattle.wu_views.specs.Listings.{IsRowOfResult};

    type Item = ResultLine;

    ghost lines = { result_lines };

    ghost is_row_of = { IsRowOfResult };

    ghost is_readable = { AreStorable };

    fn question<S: Alter>() -> &'static str {
        LIST_RESULTS
    }

    fn read(alloc: Global, row: &Row) -> Result<ResultLine, Fault> {
        ResultLine::read(alloc, row)
    }
}
