//! Laws of the machine and of its worlds: each function's contract is one.

ghost use Rattle.wu_machine.specs.Commands.{request_of};
ghost use Rattle.wu_machine.specs.Laws.{ImportsActOnce, KeepsProjects, RequestsKeepProjects};
ghost use Rattle.wu_machine.specs.Machine.{HasValues};

use crate::command::Command;

/// Proves that a repeated import is harmless.
pub fn imports_act_once()
    // An import that is repeated, after any requests, answers its first answer and changes nothing.
    ensures { ImportsActOnce }
{}

/// Proves that commands still run after each request.
pub fn requests_keep_projects()
    // A request with values in range makes of a world that commands run over such a world.
    ensures { RequestsKeepProjects }
{}

/// Proves that the values of each command are in range.
pub fn has_values(command: &Command)
    // An import's name is a name, and a pass's moment is at most 2099-12-31T23:59:59Z.
    ensures { HasValues (request_of command.now) }
{
    match command {
        Command::Batch(batch) => {
            batch.name.as_bytes();
        }
        Command::Sent(file) => {
            file.name.as_bytes();
        }
        Command::Reported(file) => {
            file.name.as_bytes();
        }
        Command::Classes(file) => {
            file.name.as_bytes();
        }
        Command::Transition { now, limit: _ } => {
            now.seconds();
        }
        Command::Assimilate { now, limit: _ } => {
            now.seconds();
        }
        Command::Purge {
            now,
            limit: _,
            min_age: _,
        } => {
            now.seconds();
        }
        _ => {}
    }
}

/// Proves that commands still run after each command.
pub fn commands_keep_projects(command: &Command)
    // A command makes of a world that commands run over such a world.
    ensures { KeepsProjects (request_of command.now) }
{
    has_values(command);
    requests_keep_projects();
}
