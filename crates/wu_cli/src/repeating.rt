//! How often a step of a script is done.

ghost use Rattle.std.specs.Prelude.{◌≡◌};
ghost use Rattle.wu_cli.specs.Performing.{Performs};
ghost use Rattle.wu_cli.specs.Repeating.{fill_limit, is_at_limit, limit_of};
ghost use Rattle.wu_cli.specs.Scripting.{line_fault, PerformsStep, Repeats, TellsFull};
ghost use Rattle.wu_cli.specs.Trying.{Attempts, is_refusal, PassesOver};
ghost use Rattle.wu_machine.specs.Commands.{request_of};
ghost use Rattle.wu_arguments.specs.Statuses.{status_of_line};

use crate::texts::write_fault;
use sqlite::Alter;
use std::alloc::Global;
use std::io::Write;
use wu_arguments::{Action, LineFault, Mode, Step, fault_status};
use wu_core::Fault;
use wu_drive::{Command, Project, drive_and_count, show};

/// Returns how many workunits a pass may handle; `None` for any other command.
fn limit_of(command: &Command) -> Option<u64>
    ensures { result ≡ limit_of (request_of command.now) }
{
    match command {
        Command::Transition { limit, .. }
        | Command::Validate { limit }
        | Command::Assimilate { limit, .. }
        | Command::Delete { limit }
        | Command::Purge { limit, .. } => Some(*limit),
        _ => None,
    }
}

/// Returns whether the number handled is the limit.
fn is_at_limit(limit: Option<u64>, handled: Option<u32>) -> bool
    ensures { result ≡ is_at_limit limit handled }
{
    match (limit, handled) {
        (Some(limit), Some(handled)) => limit == u64::from(handled),
        _ => false,
    }
}

/// Returns whether these commands are one pass, which handled as many workunits as its limit.
fn fill_limit(commands: &[Command], handled: Option<u32>) -> bool
    ensures { result ≡ fill_limit commands.now handled }
{
    match commands {
        [command] => is_at_limit(limit_of(command), handled),
        _ => false,
    }
}

/// Runs the commands of an action, or shows its view. Returns the fault that ended it, and whether there may be more to
/// do: it is one pass, which handled as many workunits as its limit.
pub fn act<S: Alter, W: Write>(
    alloc: Global,
    project: &mut Project<S>,
    action: &Action,
    out: &mut W,
) -> (Option<Fault>, bool)
    // The commands of the action are run as by `drive`, or its view is shown as by `show`, and the
    // fault is that one's.
    ensures does { Performs W.contents project.old project.new out.old out.new
        action.now result.0 }
    // Over a world and without a fault, there may be more to do exactly where the action is one pass
    // that handles as many workunits as its limit.
    ensures full { TellsFull project.old project.new action.now result.0 result.1 }
{
    match action {
        Action::Commands(commands) => {
            let (run, handled) = drive_and_count(alloc, project, commands.as_slice(), out);
            (run.end, fill_limit(commands.as_slice(), handled))
        }
        Action::Look(view) => match show(alloc, project, view, out) {
            Ok(()) => (None, false),
            Err(fault) => (Some(fault), false),
        },
        Action::Refused(fault) => (Some(*fault), false),
    }
}

/// Returns whether the machine may refuse a command with this fault. Then the session goes on, and the project is as it
/// was.
fn is_refusal(fault: Fault) -> bool
    ensures { result ≡ is_refusal fault }
{
    match fault {
        Fault::NotAProject | Fault::Memory | Fault::Broken | Fault::Ended | Fault::Output => false,
        _ => true,
    }
}

/// Writes the line of a refusal, and flushes. Returns the fault of the output.
fn pass_over<W: Write>(out: &mut W, refused: Fault) -> Option<Fault>
    ensures { PassesOver W.contents out.old out.new refused result }
{
    if write_fault(&refused, out) {
        None
    } else {
        Some(Fault::Output)
    }
}

/// Does an action as `act`, and passes over its refusal: the line of the refusal goes out. Also where the store refused
/// one of its commands or stopped its view. Returns any other fault.
fn attempt<S: Alter, W: Write>(
    alloc: Global,
    project: &mut Project<S>,
    action: &Action,
    out: &mut W,
) -> Option<Fault>
    // The action is done as by `act`. What the machine or the store refuses of it is passed over.
    ensures { Attempts W.contents project.old project.new out.old out.new action.now result }
{
    let (end, _) = act(alloc, project, action, out);
    match end {
        Some(fault) => match fault {
            Fault::NotAProject => pass_over(out, fault),
            _ => {
                if is_refusal(fault) {
                    pass_over(out, fault)
                } else {
                    Some(fault)
                }
            }
        },
        None => None,
    }
}

/// How often a repeated step is done at most.
pub const MOST_ROUNDS: u32 = 1_000_000;

/// Does an action again until its pass handles less than its limit, at most a million times. Returns the fault that
/// ended it.
fn repeat<S: Alter, W: Write>(
    alloc: Global,
    project: &mut Project<S>,
    action: &Action,
    out: &mut W,
) -> Option<Fault>
    // The action is done once, and again after each answer that is its limit, and after no other.
    ensures { Repeats W.contents project.old project.new out.old out.new action.now result }
{
    'each: for _ in 0..MOST_ROUNDS {
        let (end, is_full) = act(alloc, project, action, out);
        match end {
            Some(fault) => return Some(fault),
            None => {}
        }
        if !is_full {
            return None;
        }
    }
    None
}

/// Does what a step of a script asks for: once, repeated or tried. Returns the fault that ended it.
fn perform_by_mode<S: Alter, W: Write>(
    alloc: Global,
    project: &mut Project<S>,
    step: &Step,
    out: &mut W,
) -> Option<Fault>
    ensures { PerformsStep W.contents project.old project.new out.old out.new
        step.now (line_fault step.now.number result) }
{
    match step.mode {
        Mode::Once => act(alloc, project, &step.action, out).0,
        Mode::Repeated => repeat(alloc, project, &step.action, out),
        Mode::Tried => attempt(alloc, project, &step.action, out),
    }
}

/// Does what a step of a script asks for. A repeated step is done again until its pass handles less than its limit, at
/// most a million times. What the machine or the store refuses of a tried one is passed over, and its line goes out.
/// Returns the status of the program, and the fault that ended the step with its line.
pub fn perform_step<S: Alter, W: Write>(
    alloc: Global,
    project: &mut Project<S>,
    step: &Step,
    out: &mut W,
) -> (u8, Option<LineFault>)
    // A step is done once, and a repeated one at most a million times: over a world, again after
    // each answer that is its limit, and after no other. A refusal of a tried step is passed over.
    ensures does { PerformsStep W.contents project.old project.new out.old out.new
        step.now result.1 }
    // The status is 0 without a fault, and else that of the fault.
    ensures status { result.0 ≡ status_of_line result.1 }
{
    match perform_by_mode(alloc, project, step, out) {
        Some(fault) => {
            let number = step.number;
            (fault_status(fault), Some(LineFault { number, fault }))
        }
        None => (0, None),
    }
}
