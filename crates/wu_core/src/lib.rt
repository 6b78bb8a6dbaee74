//! The values of a BOINC project's back end: states, names, moments, parameters, workunits and faults.
#![tactic(auto)]

mod bytes;
mod fault;
mod import;
mod limits;
mod marks;
mod mask;
mod moment;
mod name;
mod params;
mod states;
mod workunit;

pub use bytes::Bytes;
pub use fault::{Fault, FileCause, TemplateKey};
pub use import::ImportKind;
pub use limits::{
    CLASS_VERSION, HIGHEST_CLASS, HIGHEST_LIMIT, HIGHEST_QUORUM, HIGHEST_TARGET, LAST_DEADLINE,
    LAST_MOMENT, LONGEST_AGE, LONGEST_DELAY, LONGEST_INPUT, LONGEST_NAME, LONGEST_OUTPUT,
    MOST_CREDIT, MOST_INSTANCES, MOST_WORKUNITS, PRESENT_VERSION, QUEUE_VERSION,
};
pub use marks::Marks;
pub use mask::ErrorMask;
pub use moment::{Deadline, Moment};
pub use name::{Name, ResultName};
pub use params::Params;
pub use states::{Assimilate, FileDelete, Outcome, ServerState, Status, ValidateState};
pub use workunit::{Archived, Grant, HostClass, Instance, Instances, Workunit};
