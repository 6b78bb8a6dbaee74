//! Whether a world held in memory is sound, and what is wrong with it if not.
#![tactic(auto)]

mod against;
mod auditing;
pub mod examples;
mod firsts;
mod instances;
mod lacks;
pub mod laws;
mod loaded;
mod once;
mod records;
mod rows;
mod workunits;
mod wrong;

pub use auditing::audit;
pub use loaded::{Imported, Loaded, LoadedParts};
pub use wrong::{AuditTable, Wrong};
