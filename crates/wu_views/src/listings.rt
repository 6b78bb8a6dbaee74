//! What the views list, each by one question.

mod archive;
mod classes;
mod hosts;
mod imports;
mod results;
mod workunits;

pub use archive::ArchiveListing;
pub use classes::ClassListing;
pub use hosts::HostListing;
pub use imports::ImportListing;
pub use results::ResultListing;
use sqlite::{Alter, Row};
use std::alloc::Global;
pub use workunits::WorkunitListing;
use wu_core::Fault;

/// What a view lists: its question, and how a row of the answer is read as a line.
pub trait Listing {
    ghost use Rattle.std.specs.Prelude.{◌≡◌, ◌≢◌, List, IfErr, IfOk};
    ghost use Rattle.sqlite.specs.Order.{Row as Cells};
    ghost use Rattle.wu_core.specs.World.{World};
    ghost use Rattle.wu_core.specs.declared.fault.Fault.TheVariants.{NotAProject};
    ghost use Rattle.wu_views.specs.Listings.{Lists};
    ghost use Rattle.wu_schema.specs.Reading.{IsReadFault};

    /// What the view shows on a line of its own.
    type Item: Drop;

    /// The lines of a world, in order.
    ghost lines: { World → List Self.Item };

    /// A row of the answer is that of this line of a world.
    ghost is_row_of: { World → Cells → Self.Item → Type 0 };

    /// The lines of such a world can be read.
    ghost is_readable: { World → Type 0 };

    /// Returns the question, which has no parameters.
    fn question<S: Alter>() -> &'static str
        // Over a represented world with classes the SELECT has a row for each line, in order; with
        // no limit on steps only failures refuse it.
        ensures { Lists S.Store result.now is_row_of lines };

    /// Reads the line of a row of the answer. Returns `NotAProject` if the row is that of no line.
    fn read(alloc: Global, row: &Row) -> Result<Self::Item, Fault>
        // The row of a line of a world is read as that line, where reading succeeds.
        ensures line { (world : World) (line : Self.Item) → is_row_of world row.now line
            → IfOk result (λ read. read ≡ line) }
        // The row of a line of a readable world is never refused as `NotAProject`.
        ensures unrefused { (world : World) (line : Self.Item) → is_row_of world row.now line
            → is_readable world → IfErr result (λ fault. fault ≢ NotAProject) }
        // A fault is `Memory` or `NotAProject`.
        ensures fault { IfErr result IsReadFault };
}
