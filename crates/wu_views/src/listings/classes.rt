//! What the view of the classes of hosts lists.

use crate::listings::Listing;
use crate::texts::LIST_CLASSES;
use sqlite::{Alter, Row};
use std::alloc::Global;
use wu_core::{Fault, HostClass};
use wu_schema::rows::host_class_from;

/// The hosts that a file named, each with its class, in order of their names' bytes.
pub struct ClassListing;

impl Listing for ClassListing {
    ghost use Rattle.wu_core.specs.Classes.{AreClassed};
    ghost use Rattle.wu_views.specs.Lines.{class_lines};
    ghost use Rattle.wu_views.specs.Listings.{IsRowOfClass};

    type Item = HostClass;

    ghost lines = { class_lines };

    ghost is_row_of = { IsRowOfClass };

    ghost is_readable = { λ world. AreClassed world.classes };

    fn question<S: Alter>() -> &'static str {
        LIST_CLASSES
    }

    fn read(alloc: Global, row: &Row) -> Result<HostClass, Fault> {
        host_class_from(alloc, row)
    }
}
