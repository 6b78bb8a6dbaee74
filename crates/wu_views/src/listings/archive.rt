//! What the view of the archive lists.

use crate::listings::Listing;
use crate::texts::LIST_ARCHIVE;
use sqlite::{Alter, Row};
use std::alloc::Global;
use wu_core::{Archived, Fault};
use wu_schema::rows::placed_archived_from;

/// The archived workunits, in order of archiving.
pub struct ArchiveListing;

impl Listing for ArchiveListing {
    ghost use Rattle.wu_core.specs.Storable.{IsArchiveStorable};
    ghost use Rattle.wu_views.specs.Lines.{archived_lines};
    ghost use Rattle.wu_views.specs.Listings.{IsRowOfArchived};

    type Item = Archived;

    ghost lines = { archived_lines };

    ghost is_row_of = { IsRowOfArchived };

    ghost is_readable = { IsArchiveStorable };

    fn question<S: Alter>() -> &'static str {
        LIST_ARCHIVE
    }

    fn read(alloc: Global, row: &Row) -> Result<Archived, Fault> {
        if row.column_count() != 7 {
            return Err(Fault::NotAProject);
        }
        placed_archived_from(alloc, row)
    }
}
