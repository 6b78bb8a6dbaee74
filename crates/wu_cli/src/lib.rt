//! The command line: what its words do over a project, the status that it ends with, and the lines of faults.
#![tactic(auto)]

mod backup;
mod checking;
mod explaining;
mod export;
mod findings;
mod hearing;
mod line_trouble;
mod linting;
mod log_names;
mod outputs;
mod performing;
mod reason;
mod repeating;
mod row_lines;
mod serving;
mod session;
mod texts;
mod trouble;
mod work;

pub use backup::{Unmade, count_sound};
pub use checking::check_over;
pub use explaining::explain;
pub use export::{Exported, MakeExport, export_each, report_made};
pub use line_trouble::LineTrouble;
pub use linting::lint;
pub use log_names::names_log;
pub use outputs::{KeepFile, Kept, KeptCounts, LostOutput, keep_sound};
pub use performing::{perform, perform_script};
pub use reason::Reason;
pub use serving::serve_over;
pub use texts::{write_fault, write_refusal};
pub use trouble::{Trouble, unheard, unopened};
pub use work::Work;
pub use wu_check::Counts;
