//! The rules on one workunit: transitioner, validator, assimilator, file deleter, purge, cancel, sends and reports.
#![tactic(auto)]

mod assimilator;
mod canceller;
mod change;
mod count;
mod deleter;
mod due;
mod instance;
mod marks;
mod purge;
mod scheduler;
mod transitioner;
mod validator;
mod verdicts;
mod waking;

pub use assimilator::assimilate;
pub use canceller::cancel;
pub use count::{is_clear, is_undecided, wants_validation};
pub use deleter::{delete_files, wants_deletion};
pub use due::{Pass, changes};
pub use instance::is_success;
pub use marks::marks_of;
pub use purge::purgeable;
pub use scheduler::{report, send};
pub use transitioner::transition;
pub use validator::validate;
pub use verdicts::{ReportVerdict, SendVerdict};
pub use waking::{has_unsent, wake_of};
pub use wu_core::Marks;
