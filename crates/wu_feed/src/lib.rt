//! The readers of a BOINC project's inputs: moments, templates, files of jobs, sends, reports and classes of hosts, and
//! scripts.
#![tactic(auto)]

mod classes;
mod examples;
mod inputs;
mod jobs;
mod limits;
mod moment;
mod records;
mod reports;
mod rows;
mod script;
mod sends;
mod shown;
mod template;
mod told;
mod words;

pub use classes::{Classes, read_classes};
pub use examples::{reads_a_script, reads_classes, reads_faulty_lines, reads_no_line};
pub use jobs::{Job, Jobs, read_jobs};
pub use limits::{LAST_ROW, LONGEST_FILE, LONGEST_TEMPLATE, MOST_LINES, MOST_RECORDS, MOST_ROWS};
pub use moment::read_moment;
pub use reports::{ReportRow, Reports, read_reports};
pub use rows::Rows;
pub use script::{LineCause, ScriptLine, read_script};
pub use sends::{SendRow, Sends, read_sends};
pub use shown::shown_field;
pub use template::read_template;
pub use told::both;
pub use words::Words;
