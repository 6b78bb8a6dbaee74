//! What the view of hosts lists.

use crate::listings::Listing;
use crate::texts::LIST_HOSTS;
use sqlite::{Alter, Row};
use std::alloc::Global;
use wu_core::Fault;
use wu_schema::rows::{HostSum, host_from};

/// The hosts that have grants, in order of their names' bytes.
pub struct HostListing;

impl Listing for HostListing {
    ghost use Rattle.wu_views.specs.Lines.{AreHostsNamed, host_lines};
    ghost use Rattle.wu_views.specs.Listings.{IsRowOfHost};

    type Item = HostSum;

    ghost lines = { host_lines };

    ghost is_row_of = { IsRowOfHost };

    ghost is_readable = { AreHostsNamed };

    fn question<S: Alter>() -> &'static str {
        LIST_HOSTS
    }

    fn read(alloc: Global, row: &Row) -> Result<HostSum, Fault> {
        host_from(alloc, row)
    }
}
