//! Lists of commands, and the demonstration.

ghost use Rattle.std.specs.Prelude.{◌≡◌, IfNone, IfOk, Ok, OnOk};
ghost use Rattle.wu_drive.specs.Counting.{CountsLast, handled_by};
ghost use Rattle.wu_drive.specs.Demonstration.{demonstration, IsDemonstrated};
ghost use Rattle.wu_drive.specs.Running.{RunsList};
ghost use Rattle.wu_machine.specs.Commands.{reply_of_answer, request_of};

use crate::replies::write_answer;
use sqlite::{Alter, Connection};
use std::alloc::Global;
use std::io::Write;
use wu_core::{Bytes, Fault, Name};
use wu_machine::laws::commands_keep_projects;
use wu_passes::{Answer, Batch, Command, Project};
use wu_report::{View, show};

/// How far a list of commands went.
#[derive(Clone, Copy, PartialEq, Eq)]
pub struct Run {
    /// How many commands were done, also one whose text could not be written.
    pub acknowledged: usize,
    /// The fault that ended the run, if the list did not end it.
    pub end: Option<Fault>,
}

/// Returns how many workunits a pass handled, by its answer; `None` if the answer is of no pass.
fn handled_by(answer: &Answer) -> Option<u32>
    ensures { result ≡ handled_by (Ok (reply_of_answer answer.now)) }
{
    match answer {
        Answer::Passed { handled, .. } => Some(*handled),
        _ => None,
    }
}

/// Runs the commands as `drive`. Returns also how many workunits the last command that was done handled; `None` if it
/// is no pass, or none was done.
pub fn drive_and_count<S: Alter, W: Write>(
    alloc: Global,
    project: &mut Project<S>,
    commands: &[Command],
    out: &mut W,
) -> (Run, Option<u32>)
    // The commands are run in order up to the first fault; all that is promised of `drive` holds.
    ensures runs { RunsList W.contents project.old project.new out.old out.new
        commands.now result.0 }
    // The count is that of the machine's reply to the last command done, `None` if it is no pass or
    // none was done.
    ensures counts { CountsLast project.old project.new commands.now result.0 result.1 }
{
    let mut acknowledged = 0;
    let mut handled = None;
    for command in commands {
        commands_keep_projects(command);
        let answer = match project.run(alloc, command) {
            Ok(answer) => answer,
            Err(fault) => {
                let end = Some(fault);
                return (Run { acknowledged, end }, handled);
            }
        };
        acknowledged += 1;
        handled = handled_by(&answer);
        if let Err(fault) = write_answer(out, &answer) {
            let end = Some(fault);
            return (Run { acknowledged, end }, handled);
        }
    }
    let end = None;
    (Run { acknowledged, end }, handled)
}

/// Runs the commands in order and writes the text of each answer, up to the first fault.
///
/// An acknowledged command is one that was answered, also if its text could not be written. Over a session that had
/// ended the run ends with `Ended` at once. Over a project of an older version it ends with `OldSchema` at a first
/// command that is no upgrade.
pub fn drive<S: Alter, W: Write>(
    alloc: Global,
    project: &mut Project<S>,
    commands: &[Command],
    out: &mut W,
) -> Run
    // A prefix of the list is acknowledged, each command with the machine's reply, whose text goes
    // out. The tables then represent the world after it. The run ends early with the machine's
    // refusal of the next command, a fault of the store, or `Output` of the last text, which may be
    // cut. Without a limit on steps, `NotAProject` ends it only at a command of which the machine
    // makes something. The session ends only with `Memory` or `Broken`, and always with `Broken`.
    // If a crash could leave only one world before the run, it leaves only the world after that
    // prefix. If the session ended, it may also leave the world after one command more. So the run
    // adds one session to any history that led to the first world. Only a disk that fails in this
    // call closes an open connection, and nothing opens a closed one. If no command was done, or
    // the machine makes nothing by those done, every table stays, except after `Memory` and
    // `Broken`. Over a session that had ended, nothing is done or written, and a fault is `Ended`.
    ensures { RunsList W.contents project.old project.new out.old out.new commands.now result }
{
    drive_and_count(alloc, project, commands, out).0
}

/// Returns the batch of the demonstration: one job of two bytes.
fn demo_batch(alloc: Global) -> Result<Command, Fault>
    ensures { IfOk result (λ command. request_of command ≡ demonstration) }
{
    let file = Vec::from_slice(alloc, b"name,input\njob_1,00ff\n")?;
    Ok(Command::Batch(Batch {
        name: Name::read(alloc, b"b1")?,
        template: Bytes::new(alloc),
        file: Bytes::from_vec(file),
    }))
}

/// Runs the demonstration, up to its first fault.
fn run_demo<W: Write>(alloc: Global, out: &mut W) -> Result<(), Fault>
    ensures { OnOk result (IsDemonstrated (W.contents out.old) (W.contents out.new)) }
{
    let conn = Connection::open_in_memory(alloc)?;
    let mut project = match Project::adopt(conn) {
        Ok(project) => project,
        Err((_, fault)) => return Err(fault),
    };
    let commands = [demo_batch(alloc)?];
    match drive(alloc, &mut project, &commands, out).end {
        Some(fault) => Err(fault),
        None => show(alloc, &mut project, &View::Workunits, out),
    }
}

/// Runs the demonstration: a batch of one job in a database in memory, and the view of workunits. Returns its first
/// fault.
pub fn demo<W: Write>(alloc: Global, out: &mut W) -> Option<Fault>
    // Without a fault the machine's reply to the batch over a fresh project went out, and the
    // workunits of the world it makes.
    ensures { IfNone result (IsDemonstrated (W.contents out.old) (W.contents out.new)) }
{
    run_demo(alloc, out).err()
}
