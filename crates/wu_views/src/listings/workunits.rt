//! What the view of workunits lists.

use crate::lines::WorkunitLine;
use crate::listings::Listing;
use crate::texts::LIST_WORKUNITS;
use sqlite::{Alter, Row};
use std::alloc::Global;
use wu_core::Fault;

/// The workunits with their classes, in order of number.
pub struct WorkunitListing;

impl Listing for WorkunitListing {
    ghost use Rattle.wu_core.specs.Storable.{AreStorable};
    ghost use Rattle.wu_views.specs.Lines.{workunit_lines};
    ghost use Rattle.wu_views.specs.Listings.{IsRowOfWorkunit};

    type Item = WorkunitLine;

    ghost lines = { workunit_lines };

    ghost is_row_of = { IsRowOfWorkunit };

    ghost is_readable = { AreStorable };

    fn question<S: Alter>() -> &'static str {
        LIST_WORKUNITS
    }

    fn read(alloc: Global, row: &Row) -> Result<WorkunitLine, Fault> {
        WorkunitLine::read(alloc, row)
    }
}
