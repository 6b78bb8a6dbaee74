//! The marks by which the passes select a workunit.

use crate::moment::Moment;

/// The marks of a workunit: for each pass, whether it is due, or from when.
#[derive(Clone, Copy)]
pub struct Marks {
    /// The first second at which a transition is due; `None` if the workunit waits for nothing.
    pub wake: Option<u64>,
    pub to_validate: bool,
    pub to_assimilate: bool,
    pub to_delete: bool,
    /// When it was assimilated, if it waits only for its purge.
    pub purge_from: Option<Moment>,
}
