//! What is done for a line or a script over a project, and the status that it ends with.

ghost use Rattle.std.specs.Prelude.{◌≡◌};
ghost use Rattle.wu_cli.specs.Performing.{Performs};
ghost use Rattle.wu_cli.specs.Printing.{PrintsAction, PrintsSteps};
ghost use Rattle.wu_cli.specs.Scripting.{PerformsScript};
ghost use Rattle.wu_cli.specs.Telling.{DrivesSteps, LengthensBySteps};
ghost use Rattle.wu_arguments.specs.Statuses.{exit_status, status_of_line};

use crate::repeating::{act, perform_step};
use sqlite::Alter;
use std::alloc::Global;
use std::io::Write;
use wu_arguments::{Action, LineFault, Step, exit_status};
use wu_core::Fault;
use wu_drive::Project;

/// Runs the commands of an action, or shows its view. Returns the status of the program, and the fault that ended it.
pub fn perform<S: Alter, W: Write>(
    alloc: Global,
    project: &mut Project<S>,
    action: &Action,
    out: &mut W,
) -> (u8, Option<Fault>)
    // The commands of the action are run as by `drive`, or its view is shown as by `show`, and the
    // fault is that one's.
    ensures does { Performs W.contents project.old project.new out.old out.new
        action.now result.1 }
    // The status is 0 without a fault, and else that of the fault.
    ensures status { result.0 ≡ exit_status result.1 }
    // Over a world exactly the machine's answers, or the view, go out, and with a fault a prefix of
    // them.
    ensures prints { PrintsAction W.contents project.old project.new out.old out.new
        action.now result.1 }
{
    let (end, _) = act(alloc, project, action, out);
    (exit_status(end), end)
}

/// Does what the steps of a script ask for, in order, up to the first fault. Returns the status of the program, and the
/// fault that ended it with its line.
///
/// A repeated step is done until its pass handles less than its limit, at most a million times. Of a tried one the
/// commands are done up to the first that the machine or the store refuses, and then the next step. So over a world a
/// script is the list of commands that the machine's answers make of the steps as they ran.
pub fn perform_script<S: Alter, W: Write>(
    alloc: Global,
    project: &mut Project<S>,
    steps: &[Step],
    out: &mut W,
) -> (u8, Option<LineFault>)
    // The steps are done in order, each over what the one before left, up to the first fault. A
    // step is done once, and a repeated one at most a million times: over a world, again after each
    // answer that is its limit, and after no other. A refusal of a tried step is passed over.
    ensures does { PerformsScript W.contents project.old project.new out.old out.new
        steps.now result.1 }
    // The status is 0 without a fault, and else that of the fault.
    ensures status { result.0 ≡ status_of_line result.1 }
    // A prefix of the script's commands is done, each with the machine's reply; without a fault
    // all. A tried command that the machine or the store refuses is none of them. Where the session
    // ended within a command, a crash may leave that one done; else it goes on over the world after
    // the prefix. What went out reports just as many commands as were done.
    ensures drives { DrivesSteps W.contents project.old project.new out.old out.new
        steps.now result.1 }
    // Where a crash could leave one world alone, after the script each world that it may leave is
    // that of the longer history. The cut command is in it or not.
    ensures lives { LengthensBySteps W.contents project.old project.new out.old out.new
        steps.now result.1 }
    // Over a world exactly what the steps print goes out, in order, and with a fault a prefix of
    // it. The line of a refusal that was passed over stands in the place of the answer.
    ensures prints { PrintsSteps W.contents project.old project.new out.old out.new
        steps.now result.1 }
{
    for step in steps {
        let (status, end) = perform_step(alloc, project, step, out);
        match end {
            Some(end) => return (status, Some(end)),
            None => {}
        }
    }
    (0, None)
}
