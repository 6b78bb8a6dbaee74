//! A list of commands is run over a project, and its session released.

ghost use Rattle.wu_lives.specs.Reopening.{DrivesAndReleases};

use sqlite::{Alter, Connection, FileStore};
use sqlite_disk::Disk;
use std::alloc::Global;
use std::io::Write;
use wu_drive::{Command, Project, Run, drive};

/// Runs a list of commands, and releases the session.
fn drive_session<S: Alter, W: Write>(
    alloc: Global,
    mut project: Project<S>,
    commands: &[Command],
    out: &mut W,
) -> (Run, Connection<S>)
    ensures { DrivesAndReleases W.contents project
        out.old out.new commands.now result.0 result.1 }
{
    let run = drive(alloc, &mut project, commands, out);
    (run, project.release())
}

/// Runs a list of commands over a project in two files, and releases the session.
///
/// It is one function for all its callers: that two files serve as a store is proved again in each that calls one over
/// any store.
pub fn drive_and_release<D: Disk + Drop, W: Write>(
    alloc: Global,
    project: Project<FileStore<D>>,
    commands: &[Command],
    out: &mut W,
) -> (Run, Connection<FileStore<D>>)
    // The list runs as by `drive`, and the session's connection comes back.
    ensures { DrivesAndReleases W.contents project
        out.old out.new commands.now result.0 result.1 }
{
    drive_session(alloc, project, commands, out)
}
