//! The laws of whole runs of the program: each function's contract is one, of every run that ended so.
#![tactic(auto)]

ghost use Rattle.wu_process.specs.Processes.{RunsProcess};
ghost use Rattle.wu_process_laws.specs.BackedUp.{EachBackupHolds};
ghost use Rattle.wu_process_laws.specs.Checked.{EachCheckIsTrue};
ghost use Rattle.wu_process_laws.specs.KeptOutputs.{EachNameHasItsFile, EachOutputBeforeHasItsFile, EachOutputHasItsFile};
ghost use Rattle.wu_process_laws.specs.Runs.{LeavesItsWork, LeavesItsWorkUnclosed};
ghost use Rattle.wu_process_laws.specs.SessionRuns.{BeginsWhereOneEnded, LeavesItsLines, LeavesItsLinesUnclosed};

use sqlite::{FileFrom, Start};
use std::io::{self, BufRead, Write};
use wu_cli::KeepFile;
use wu_process::{End, run_with};

/// Shows that a run that closed its database leaves the world after a prefix of its commands, and that no crash changes
/// that.
pub fn a_run_leaves_a_beginning<S: Start, O: Write, E: Write>(end: &End<FileFrom<S>>)
    // Each crash image holds the world after the commands done, each with the machine's reply; with
    // status 0 all are done, and all of their texts went out. What went out reports as many commands
    // as were done. Or nothing was adopted: the status is that of such a fault, nothing went out,
    // and the files still hold their world.
    ensures { LeavesItsWork O.contents E.contents end.now }
{}

/// Shows the same of a run whose close failed, as where the disk failed during the run; the command that was cut may
/// be in it.
pub fn a_stopped_run_leaves_a_beginning<S: Start, O: Write, E: Write>(end: &End<FileFrom<S>>)
    // The same holds where the close failed and its store is numbered as its catalog says; the
    // command that was cut may be done too.
    ensures { LeavesItsWorkUnclosed O.contents E.contents end.now }
{}

/// Shows that a session that closed its database leaves the world after what its lines did, and that no crash changes
/// that.
pub fn a_session_leaves_a_beginning<S: Start, O: Write, E: Write>(end: &End<FileFrom<S>>)
    // Each crash image holds the world after the commands that the lines of the input did, in order,
    // each with the machine's reply. A line that was answered with `= 0` did all of its commands,
    // and each other a prefix of its own. Or nothing was adopted: the status is that of such a
    // fault, nothing went out, and the files still hold their world.
    ensures { LeavesItsLines O.contents E.contents end.now }
{}

/// Shows the same of a session whose close failed, as where the disk failed or the power went during a line; the command
/// that was cut may be in it.
pub fn a_stopped_session_leaves_a_beginning<S: Start, O: Write, E: Write>(end: &End<FileFrom<S>>)
    // The same holds where the close failed and its store is numbered as its catalog says. Each
    // crash image may then hold one command more: the next one of the line that was heard last.
    ensures { LeavesItsLinesUnclosed O.contents E.contents end.now }
{}

/// Shows that a run whose database holds what a crash left of another's goes on from the world that the other left: a
/// line, a script or a session after any of these, also after one whose close failed.
pub fn a_run_begins_where_one_ended<S: Start, T: Start, O: Write, E: Write>(
    first: &End<FileFrom<S>>,
    second: &End<FileFrom<T>>,
)
    // A second run over what a crash left of a first one does its work over the world that the
    // first left, whichever of them is a session. After one whose close failed, the world may have
    // the command that was cut.
    ensures { BeginsWhereOneEnded O.contents E.contents first.now second.now }
{}

/// Does what the words of a process ask for, as `run_with`. Where it closed its database, that holds the world after a
/// prefix of the commands.
pub fn run_and_leave<S: Start, R: BufRead, O: Write, E: Write>(
    rt: &HostRuntime,
    words: io::Result<Vec<String>>,
    input: &mut R,
    start: S,
    out: &mut O,
    err: &mut E,
) -> End<FileFrom<S>>
    // What the words ask for is done, up to the first trouble, which is reported with its status.
    ensures runs { RunsProcess O.contents E.contents out.old out.new err.old err.new
        (R.remaining input.old) (R.remaining input.new) result words }
    // Each crash image holds the world after the commands done, each with the machine's reply; with
    // status 0 all are done, and all of their texts went out. Or nothing was adopted, nothing went
    // out, and the files still hold their world.
    ensures left { LeavesItsWork O.contents E.contents result }
    // Of a session, they hold the world after the commands that its lines did. A line that was
    // answered with `= 0` did all of its commands.
    ensures sessions { LeavesItsLines O.contents E.contents result }
{
    let end = run_with(rt, words, input, start, out, err);
    a_run_leaves_a_beginning::<S, O, E>(&end);
    a_session_leaves_a_beginning::<S, O, E>(&end);
    end
}

/// Shows that what a check reports is true of the files that it read: `ok` of a sound project, and else what is
/// reported to be wrong. Of a sound project nothing is reported but a name that keeps it from an upgrade.
pub fn a_check_is_true<O: Write>()
    // `ok` means that the files hold a sound project of a known version, with the printed numbers.
    // Of a sound project a check reports only `ok`, out of memory, a failed copy or output, or a name
    // that its upgrade gives. What it reports to be wrong is wrong, where no row is shorter than its
    // table.
    ensures { EachCheckIsTrue O.contents }
{}

/// Shows that the new file of a backup holds, without a log, the world of the files that it was made of: a sound project
/// with the reported numbers. So it is also of a backup that a session makes.
pub fn a_backup_holds_the_project()
    // The new file holds each world that the files held which were read. It holds all of their
    // tables, or they held nothing but a project's. They held a sound project of a known version,
    // with the reported numbers, where no row is shorter than its table.
    ensures { EachBackupHolds }
{}

/// Shows that each output that was counted has its file: the canonical outputs that were asked for, of the archive that
/// the copied files held. So it is also of the outputs that a session writes.
pub fn each_output_has_its_file<F: KeepFile>()
    // The files that were read hold a sound project, where no row is shorter than its table. Of
    // each world with classes that they hold, each output that was asked for has its file, with
    // exactly its bytes, and the counts are the number of these.
    ensures files { EachOutputHasItsFile F.KeepFile.keeps }
    // Where an output has no file, which is reported with its workunit, those before it have
    // theirs.
    ensures before { EachOutputBeforeHasItsFile F.KeepFile.keeps }
    // The outputs of two workunits never have one file.
    ensures apart { EachNameHasItsFile }
{}
