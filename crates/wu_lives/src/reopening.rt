//! A project through crashes: the machine crashes at any moment, and the two files are opened again.
//!
//! A disk may fail at any call and from then on, so a crash during a list of commands is one of these crashes too.

ghost use Rattle.std.specs.Prelude.{IfSome};
ghost use Rattle.sqlite.specs.Files.{file_state};
ghost use Rattle.wu_passes.specs.Projects.{state_of};
ghost use Rattle.wu_lives.specs.Lives.{EachDoesAll, GoesOnAfter, RunsEach, TellsLives};
ghost use Rattle.wu_lives.specs.Reopening.{AdoptsLeft, DoesAll, TellsEnded, FindsBeginning, FindsLeft, IsBegun, TellsEnd, TellsReplies};
ghost use Rattle.wu_stops.specs.Stopping.{WasClean};

use crate::driving::drive_and_release;
use sqlite::{Connection, FileStore, Options};
use sqlite_disk::Crash;
use std::alloc::Global;
use std::io::Write;
use wu_drive::{Command, Project, Run};
use wu_stops::{begin, stop_and_open};

/// Runs a list of commands; then the machine crashes, and the two files are opened again. Returns how far the run went,
/// and the connection.
///
/// What is found represents the world after a prefix of the list: every acknowledged command, and one more only if the
/// run ended with `Memory` or `Broken` during it. It is open, and all of it is committed. It is what the crash could
/// leave of the session after the run; if the connection was open then, its last commit. Why the run ended is as in
/// `drive`. Returns `None` if the opening fails.
pub fn drive_stop_and_open<D: Crash + Drop, W: Write>(
    alloc: Global,
    project: Project<FileStore<D>>,
    commands: &[Command],
    out: &mut W,
    options: Options,
) -> Option<(Run, Connection<FileStore<D>>)>
    // A disk that is clean afterwards was clean before the run.
    ensures clean { IfSome result (λ r. WasClean (state_of project) (file_state r.1)) }
    // The texts of the answers went out, each the machine's reply to an acknowledged command; after
    // `Output` the last one may be cut.
    ensures answers { IfSome result (λ r.
        TellsReplies (W.contents out.old) (W.contents out.new) project
        commands.now r.0 (file_state r.1)) }
    // The tables represent the world after a prefix of the list: each acknowledged command, and one
    // more only after `Memory` or `Broken`.
    ensures found { IfSome result (λ r.
        FindsBeginning project commands.now r.0 (file_state r.1)) }
    // The run acknowledges at most the commands of the list, and all of them if no fault ended it.
    ensures all { IfSome result (λ r. DoesAll commands.now r.0) }
    // Over a session that had ended, nothing is done or written, and a fault of the run is `Ended`.
    ensures ended { IfSome result (λ r. TellsEnded project out.old out.new r.0) }
    // Over a session that had not ended, a run ends early with the machine's refusal of the next
    // command, a fault of the store, or `Output`.
    ensures ends { IfSome result (λ r. TellsEnd project commands.now r.0 (file_state r.1)) }
    // The connection is open over a well-formed database, all of it committed, that the crash could
    // leave after the run. If the session's connection was open then, this is its last commit.
    ensures reopened { IfSome result (λ r. FindsLeft project commands.now r.0 (file_state r.1)) }
{
    let (run, conn) = drive_and_release(alloc, project, commands, out);
    match stop_and_open(alloc, conn, options) {
        Some(again) => Some((run, again)),
        None => None,
    }
}

/// Runs a list of commands, crashes the machine, and begins the next session over what is found. Returns how far the
/// run went, and the next session.
///
/// The next session goes on from the world after a prefix of the list, which has every acknowledged command. A project
/// that is found after the crash is adopted unchanged. Why the run ended is as in `drive`. Returns `None` if the
/// opening or the adoption fails.
pub fn live<D: Crash + Drop, W: Write>(
    alloc: Global,
    project: Project<FileStore<D>>,
    commands: &[Command],
    out: &mut W,
    options: Options,
) -> Option<(Run, Project<FileStore<D>>)>
    // A disk that is clean afterwards was clean before the run.
    ensures clean { IfSome result (λ r.
        WasClean (state_of project) (state_of r.1)) }
    // The next session has not ended, and knows the version of its tables.
    ensures begins { IfSome result (λ r. IsBegun r.1) }
    // The texts of the answers went out, each the machine's reply to an acknowledged command; after
    // `Output` the last one may be cut.
    ensures answers { IfSome result (λ r.
        TellsReplies (W.contents out.old) (W.contents out.new) project
        commands.now r.0 (state_of r.1)) }
    // The session goes on after a prefix of the list: each acknowledged command, and one more only
    // after `Memory` or `Broken`.
    ensures found { IfSome result (λ r.
        FindsBeginning project commands.now r.0 (state_of r.1)) }
    // The run acknowledges at most the commands of the list, and all of them if no fault ended it.
    ensures all { IfSome result (λ r. DoesAll commands.now r.0) }
    // Over a session that had ended, nothing is done or written, and a fault of the run is `Ended`.
    ensures ended { IfSome result (λ r. TellsEnded project out.old out.new r.0) }
    // Over a session that had not ended, a run ends early with the machine's refusal of the next
    // command, a fault of the store, or `Output`.
    ensures ends { IfSome result (λ r.
        TellsEnd project commands.now r.0 (state_of r.1)) }
    // What is found is a database that the crash could leave after the run. The next session adopts
    // it: a project in it stays as it is.
    ensures reopened { IfSome result (λ r. AdoptsLeft project commands.now r.0 r.1) }
{
    match drive_stop_and_open(alloc, project, commands, out, options) {
        Some((run, conn)) => match begin(conn) {
            Some(again) => Some((run, again)),
            None => None,
        },
        None => None,
    }
}

/// Runs lists of commands, one session after another: each list ends with a crash, and the next session goes on from
/// what that left. Returns a run for each list, and the last session.
///
/// The texts of the answers are written, session by session; each answer is the machine's reply. What is found is the
/// world after a history of these sessions, each cut command in or out. After at least one list the session goes on,
/// also if the first one had ended. Returns `None` if an opening or an adoption fails, or memory for the runs is
/// refused.
pub fn live_all<D: Crash + Drop, W: Write>(
    alloc: Global,
    mut project: Project<FileStore<D>>,
    lives: &[Vec<Command>],
    out: &mut W,
    options: Options,
) -> Option<(Vec<Run>, Project<FileStore<D>>)>
    // A disk that is clean afterwards was clean at the beginning.
    ensures clean { IfSome result (λ r.
        WasClean (state_of project) (state_of r.1)) }
    // The last session goes on, if the first one had not ended or there was at least one list.
    ensures begins { IfSome result (λ r. GoesOnAfter project lives.now r.1) }
    // There is one run for each list.
    ensures count { IfSome result (λ r. RunsEach lives.now r.0.items) }
    // Each run acknowledges at most the commands of its list, and all of them if no fault ended it.
    ensures all { IfSome result (λ r. EachDoesAll lives.now r.0.items) }
    // The texts of the answers went out session by session, each the machine's reply; after
    // `Output` the last one of a session may be cut. The tables represent the world of a history of
    // these sessions, each cut command in or out, and one is cut only after `Memory` or `Broken`.
    // Each session over one that had not ended ends early with the machine's refusal of the next
    // command, a fault of the store, or `Output`.
    ensures found { IfSome result (λ r.
        TellsLives (W.contents out.old) (W.contents out.new) project
        lives.now r.0.items r.1) }
{
    let mut runs = Vec::new(alloc);
    for commands in lives {
        let (run, again) = match live(alloc, project, commands.as_slice(), out, options) {
            Some(lived) => lived,
            None => return None,
        };
        project = again;
        match runs.push(run) {
            Ok(()) => {}
            Err(_) => return None,
        }
    }
    Some((runs, project))
}
