//! The program: runs an operator's command line over a project in a database file; without a word after its name, the
//! demonstration.
#![tactic(auto)]

use std::process::ExitCode;

fn main(rt: HostRuntime) -> ExitCode {
    ExitCode::from(wu_process::run(&rt))
}
