//! The arguments of the command line: which words ask for what, what a line or a script asks of a project, and the
//! statuses of the program.
#![tactic(auto)]

mod action;
mod command;
mod files;
mod line;
mod option;
mod order;
mod parse;
mod reading;
mod refusal;
mod script;
mod status;
mod step;
mod subcommand;
mod usage;
mod values;
mod view;
mod word;
mod words;

pub use action::{Action, prepare, read_and_prepare};
pub use files::ReadFile;
pub use line::{Asking, Line};
pub use option::{LineOption, OptionForm, OptionValue};
pub use order::{Export, ExportOrder, LintOrder, Order, OutputFiles, ScriptFile, Topic};
pub use reading::{read_up_to, text_of_script, unread};
pub use refusal::{Outsider, Refusal};
pub use script::Mode;
pub use status::{UNOPENED, exit_status, fault_status};
pub use step::{BadLine, LineFault, Script, Step, script_of_lines};
pub use subcommand::{Subcommand, SubcommandForm};
pub use usage::Usage;
pub use word::Word;
pub use words::read_words;
