//! What the view of imports lists.

use crate::lines::{ImportLine, import_line_from};
use crate::listings::Listing;
use crate::texts::LIST_IMPORTS;
use sqlite::{Alter, Row};
use std::alloc::Global;
use wu_core::Fault;

/// The imports, in order of kind and of the bytes of their names.
pub struct ImportListing;

impl Listing for ImportListing {
    ghost use Rattle.wu_views.specs.Lines.{AreImportsStorable, import_lines};
    ghost use Rattle.wu_views.specs.Listings.{IsRowOfImport};

    type Item = ImportLine;

    ghost lines = { import_lines };

    ghost is_row_of = { IsRowOfImport };

    ghost is_readable = { AreImportsStorable };

    fn question<S: Alter>() -> &'static str {
        LIST_IMPORTS
    }

    fn read(alloc: Global, row: &Row) -> Result<ImportLine, Fault> {
        import_line_from(alloc, row)
    }
}
