//! Two runs of the program over one file: a crash ends the first, and the second opens what it left.
//!
//! A disk may fail at any call and from then on, so a crash during a command is one of these crashes. No code can say
//! what a file holds, so the second run is one over whatever bytes `S` supposes of it.

ghost use Rattle.std.specs.Prelude.{IfErr, IfOk, IfSome};
ghost use Rattle.sqlite_wal.specs.Files.{image_at};
ghost use Rattle.wu_passes.specs.Projects.{state_of};
ghost use Rattle.wu_lives.specs.Reopening.{DoesAll, IsBegun, TellsEnded};
ghost use Rattle.wu_stops.specs.Beginning.{BeginsBlank};
ghost use Rattle.wu_lives.specs.Runs.{BeginsOver, LeavesFiles, LeavesStore, LivesOver};

use crate::driving::drive_and_release;
use sqlite::{Connection, FileFrom, FileStore, Files, Start};
use sqlite_disk::Disk;
use std::alloc::Global;
use std::io::Write;
use wu_drive::{Command, Project, Run};
use wu_stops::{begin, store_of};

/// Runs a list of commands over a project, and lets its two files go. Returns how far the run went, and the files.
///
/// Each image that a crash may leave of these files holds the world after a prefix of the list. It has every
/// acknowledged command, and one more only if the run ended with `Memory` or `Broken` during it. Why the run ended is
/// as in `drive`.
pub fn run_and_leave<D: Disk + Drop, W: Write>(
    alloc: Global,
    project: Project<FileStore<D>>,
    commands: &[Command],
    out: &mut W,
) -> (Run, Files<D>)
    // The texts of the answers went out, each the machine's reply to an acknowledged command; after
    // `Output` the last one may be cut. The files are those that the released session left. Each
    // image that a crash may leave of them holds the world after a prefix: each acknowledged
    // command, and one more only after `Memory` or `Broken`. Over a session that had not ended, a
    // run ends early with the machine's refusal of the next command, a fault of the store, or
    // `Output`.
    ensures leaves { LeavesFiles project commands.now result.0
        (W.contents out.old) (W.contents out.new) result.1 }
    // The run acknowledges at most the commands of the list, and all of them if no fault ended it.
    ensures all { DoesAll commands.now result.0 }
    // Over a session that had ended, nothing is done or written, and a fault of the run is `Ended`.
    ensures ended { TellsEnded project out.old out.new result.0 }
{
    let (run, conn) = drive_and_release(alloc, project, commands, out);
    (run, store_of(conn).close())
}

/// Runs a list of commands over a project, and closes its database, as the program does. Returns how far the run went,
/// and the files or, after a close that failed, the store.
///
/// After a close that succeeded, each image that a crash may leave of the files holds the world after a prefix of the
/// list, as in `run_and_leave`. After a close that failed, the same holds of the files of its store, if each tree of
/// the store has the number that its catalog says. So `begin_at` goes on from there.
pub fn run_and_close<D: Disk + Drop, W: Write>(
    alloc: Global,
    project: Project<FileStore<D>>,
    commands: &[Command],
    out: &mut W,
) -> (Run, Result<Files<D>, FileStore<D>>)
    // After a close that succeeded, the files are those that the released session left, and the
    // texts of the answers went out, each the machine's reply. After `Output` the last one may be
    // cut. Each crash image holds the world after a prefix: each acknowledged command, and one more
    // only after `Memory` or `Broken`. Over a session that had not ended, a run ends early with the
    // machine's refusal of the next command, a fault of the store, or `Output`.
    ensures leaves { IfOk result.1 (LeavesFiles project commands.now result.0
        (W.contents out.old) (W.contents out.new)) }
    // After a close that failed, the texts went out too, and the store is that of the session. The
    // rest holds of the files of its store, if each tree of the store has the number that its
    // catalog says.
    ensures unclosed { IfErr result.1 (LeavesStore project commands.now result.0
        (W.contents out.old) (W.contents out.new)) }
    // The run acknowledges at most the commands of the list, and all of them if no fault ended it.
    ensures all { DoesAll commands.now result.0 }
    // Over a session that had ended, nothing is done or written, and a fault of the run is `Ended`.
    ensures ended { TellsEnded project out.old out.new result.0 }
{
    let (run, conn) = drive_and_release(alloc, project, commands, out);
    match conn.close_files() {
        Ok(files) => (run, Ok(files)),
        Err((_, store)) => (run, Err(store)),
    }
}

/// Opens the file at a path and begins a session over the project in it. No code can say what the file holds; the
/// clauses take what `S` says of it.
///
/// If its database has no byte, it is a fresh project, which represents the empty world. If the file holds the tables
/// of a world, it goes on from that world. Returns `None` if the opening or the adoption fails.
pub fn begin_at<S: Start>(
    rt: &HostRuntime,
    path: &str,
    start: S,
) -> Option<Project<FileStore<FileFrom<S>>>>
    // The session has not ended, and knows the version of its tables.
    ensures begins { IfSome result IsBegun }
    // Over a database without a byte the session begins from the empty world.
    ensures blank { IfSome result (λ project. BeginsBlank (image_at S.Start) (state_of project)) }
    // Over files that hold the tables of a world, the session goes on from that world, whose
    // version this program knows.
    ensures found { IfSome result (λ project. BeginsOver (image_at S.Start) (state_of project)) }
{
    match Connection::open_from(rt, path, false, start) {
        Ok(conn) => begin(conn),
        Err(_) => None,
    }
}

/// Runs the program twice. The first run does a list of commands over an adopted project, and a crash ends it. The
/// second opens the file and adopts the project in it. No code can say what that file holds; the clauses take what `S`
/// says of it.
///
/// Each image that the crash may leave holds the world after a prefix of the list, which has every acknowledged
/// command. If the second run found such an image, it goes on from that world, and the tables represent the world of
/// the history over both runs. Why the first ended is as in `drive`. Returns `None` if the opening or the adoption
/// fails.
pub fn run_and_begin_again<D: Disk + Drop, S: Start, W: Write>(
    rt: &HostRuntime,
    project: Project<FileStore<D>>,
    commands: &[Command],
    out: &mut W,
    path: &str,
    start: S,
) -> Option<(Run, Project<FileStore<FileFrom<S>>>)>
    // The second session has not ended, and knows the version of its tables.
    ensures begins { IfSome result (λ r. IsBegun r.1) }
    // Over files that hold the tables of a world, the second session goes on from that world, whose
    // version this program knows.
    ensures found { IfSome result (λ r. BeginsOver (image_at S.Start) (state_of r.1)) }
    // The texts of the first run's answers went out, each the machine's reply to an acknowledged
    // command; after `Output` the last one may be cut. Each image that a crash may leave of its
    // files holds the world after a prefix: each acknowledged command, and one more only after
    // `Memory` or `Broken`. If the second run found such an image, its tables represent the world
    // of the history over both runs. Over a session that had not ended, the first run ends early
    // with the machine's refusal of the next command, a fault of the store, or `Output`.
    ensures lives { IfSome result (λ r. LivesOver project commands.now r.0
        (W.contents out.old) (W.contents out.new) (image_at S.Start) r.1) }
    // The first run acknowledges at most the commands of the list, and all of them if no fault
    // ended it.
    ensures all { IfSome result (λ r. DoesAll commands.now r.0) }
    // Over a session that had ended, the first run does and writes nothing, and a fault of it is
    // `Ended`.
    ensures ended { IfSome result (λ r. TellsEnded project out.old out.new r.0) }
{
    let (run, files) = run_and_leave(rt.alloc(), project, commands, out);
    drop(files);
    let again = begin_at(rt, path, start)?;
    Some((run, again))
}
