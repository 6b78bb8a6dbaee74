//! Scenarios of the function that upgrades a project on a connection, without a session over it.

use crate::runs::{seen_of, told_over};
use crate::scripts::write_comment;
use crate::seen::{Seen, look};
use anyhow::{Context, Result, bail, ensure};
use sqlite::{Alter, Connection};
use std::alloc::Global;
use std::io::{self, Write};
use std::{fmt, fs};
use wu_core::Fault;
use wu_passes::upgrade;
use wu_play_files::{MOST_CALLS, Pages, PlayFiles, Saved, Side, Visit, options, visit_play};

/// How an upgrade ended.
#[derive(Clone, Copy)]
enum UpgradeEnd {
    /// The files could not be opened.
    Unopened,
    /// With this fault, before its transaction.
    Unbegun(Fault),
    /// With this fault, after its transaction had begun.
    Begun(Fault),
    Done,
}

impl UpgradeEnd {
    /// Returns the fault of the upgrade.
    fn fault(self) -> Option<Fault> {
        match self {
            UpgradeEnd::Unbegun(fault) | UpgradeEnd::Begun(fault) => Some(fault),
            UpgradeEnd::Unopened | UpgradeEnd::Done => None,
        }
    }

    /// Returns whether the project may be found so afterwards: upgraded, or as it was.
    fn may_leave(self, is_upgraded: bool) -> bool {
        match self {
            UpgradeEnd::Unopened | UpgradeEnd::Unbegun(_) => !is_upgraded,
            UpgradeEnd::Begun(_) => true,
            UpgradeEnd::Done => is_upgraded,
        }
    }
}

impl fmt::Display for UpgradeEnd {
    fn fmt<W: fmt::Write>(&self, f: &mut fmt::Formatter<W>) -> fmt::Result {
        match self {
            UpgradeEnd::Unopened => f.write_str("not opened"),
            UpgradeEnd::Unbegun(fault) => write!(f, "{fault} before the transaction"),
            UpgradeEnd::Begun(fault) => write!(f, "{fault} in the transaction"),
            UpgradeEnd::Done => f.write_str("done"),
        }
    }
}

/// Upgrades the project in a database, and returns how that ended.
fn upgrade_in<S: Alter>(alloc: Global, conn: &mut Connection<S>) -> Result<UpgradeEnd> {
    ensure!(conn.is_autocommit(), "a transaction is open");
    let end = match upgrade(conn, alloc) {
        Ok(()) => UpgradeEnd::Done,
        Err((fault, false)) => UpgradeEnd::Unbegun(fault),
        Err((fault, true)) => UpgradeEnd::Begun(fault),
    };
    Ok(end)
}

/// A visitor that upgrades the project in a database.
#[derive(Drop)]
struct Upgrading;

impl Visit for Upgrading {
    type Told = UpgradeEnd;

    fn visit<S: Alter + Drop>(
        self,
        alloc: Global,
        mut conn: Connection<S>,
    ) -> Result<(Connection<S>, UpgradeEnd)> {
        let end = upgrade_in(alloc, &mut conn)?;
        Ok((conn, end))
    }
}

/// Opens files, upgrades the project in them, and closes them as far as their calls succeed. Returns the files, how the
/// upgrade ended, and whether the close succeeded.
fn run(alloc: Global, files: PlayFiles) -> Result<(PlayFiles, UpgradeEnd, bool)> {
    let left = visit_play(alloc, files, options(1, Pages::Few), Upgrading)?;
    let (files, told, is_closed) = left.into_parts();
    let end = match told {
        Some(end) => end,
        None => UpgradeEnd::Unopened,
    };
    Ok((files, end, is_closed))
}

/// Upgrades a database over files that do not fail. Returns their contents after the close, and how the upgrade ended.
fn run_whole(alloc: Global, saved: &Saved) -> Result<(Saved, UpgradeEnd)> {
    let (files, end, is_closed) = run(alloc, saved.files(alloc)?)?;
    ensure!(is_closed, "it is not closed");
    Ok((files.saved(alloc)?, end))
}

/// A database, the project in it, and that project upgraded.
#[derive(Clone, Copy)]
struct Case<'a> {
    saved: &'a Saved,
    before: &'a Seen,
    after: &'a Seen,
}

impl Case<'_> {
    /// Returns whether a snapshot is of the upgraded project. Fails if it is neither of that nor of the one before.
    fn is_upgraded(&self, seen: &Seen) -> Result<bool> {
        if seen.is_same(self.after) {
            return Ok(true);
        }
        ensure!(
            seen.is_same(self.before),
            "neither the project from before nor the upgraded one"
        );
        Ok(false)
    }
}

/// Checks what a crash left, upgrades the project again, and checks that it is the upgraded one. Returns whether it was
/// so before that.
fn go_on<S: Alter + Drop>(
    alloc: Global,
    conn: Connection<S>,
    case: Case<'_>,
) -> Result<(Connection<S>, bool)> {
    let (mut conn, found) = look(alloc, conn)?;
    let is_upgraded = case.is_upgraded(&found)?;
    let end = upgrade_in(alloc, &mut conn)?;
    ensure!(matches!(end, UpgradeEnd::Done), "{end} at the next upgrade");
    let (conn, found) = look(alloc, conn)?;
    ensure!(found.is_same(case.after), "another end");
    Ok((conn, is_upgraded))
}

/// A visitor that checks what a crash left, and upgrades the project again.
#[derive(Drop)]
struct GoingOn<'a> {
    case: Case<'a>,
}

impl<'a> Visit for GoingOn<'a> {
    type Told = bool;

    fn visit<S: Alter + Drop>(
        self,
        alloc: Global,
        conn: Connection<S>,
    ) -> Result<(Connection<S>, bool)> {
        go_on(alloc, conn, self.case)
    }
}

/// What was found after the crashes of an upgrade.
#[derive(Drop)]
struct Finds {
    before: u64,
    after: u64,
    /// The latest files, and whether the project in them was upgraded. If the next crash leaves the same, they are not
    /// opened again.
    latest: Option<(Saved, bool)>,
}

impl Finds {
    fn new() -> Finds {
        Finds {
            before: 0,
            after: 0,
            latest: None,
        }
    }

    /// Returns whether the project in these files is upgraded.
    fn is_upgraded(&self, alloc: Global, case: Case<'_>, files: &Saved) -> Result<bool> {
        match &self.latest {
            Some((latest, is_upgraded)) if latest.is_same(files) => Ok(*is_upgraded),
            _ => told_over(alloc, files, GoingOn { case }),
        }
    }

    /// Checks what an upgrade left that ended so, and counts what was found.
    fn find(&mut self, alloc: Global, case: Case<'_>, files: Saved, end: UpgradeEnd) -> Result<()> {
        let is_upgraded = self.is_upgraded(alloc, case, &files)?;
        ensure!(end.may_leave(is_upgraded), "it tells otherwise");
        if is_upgraded {
            self.after = self.after.saturating_add(1);
        } else {
            self.before = self.before.saturating_add(1);
        }
        self.latest = Some((files, is_upgraded));
        Ok(())
    }
}

/// The counts over the crashes of an upgrade.
#[derive(Drop)]
struct Tally {
    unopened: u64,
    unbegun: u64,
    begun: u64,
    done: u64,
    /// What was found if the crash lost what was not synced.
    lost: Finds,
    /// What was found if the crash kept all that was written.
    kept: Finds,
}

impl Tally {
    fn new() -> Tally {
        Tally {
            unopened: 0,
            unbegun: 0,
            begun: 0,
            done: 0,
            lost: Finds::new(),
            kept: Finds::new(),
        }
    }

    fn count(&mut self, end: UpgradeEnd) {
        let count = match end {
            UpgradeEnd::Unopened => &mut self.unopened,
            UpgradeEnd::Unbegun(_) => &mut self.unbegun,
            UpgradeEnd::Begun(_) => &mut self.begun,
            UpgradeEnd::Done => &mut self.done,
        };
        *count = count.saturating_add(1);
    }

    /// Writes the counts for crashes by this file. All faults were `Broken`.
    fn write(&self, side: Side, transcript: &mut Vec<u8>) -> io::Result<()> {
        let Tally { lost, kept, .. } = self;
        writeln!(
            transcript,
            "{side}: {} not opened, {} Broken before the transaction, {} in it, {} done; {} before, {} after; with all that was written {} before, {} after",
            self.unopened,
            self.unbegun,
            self.begun,
            self.done,
            lost.before,
            lost.after,
            kept.before,
            kept.after
        )
    }
}

/// Runs an upgrade whose file fails after `calls` calls, and checks what a crash leaves that keeps or loses unsynced
/// writes. Returns whether the file has failed.
fn stop(alloc: Global, case: Case<'_>, side: Side, calls: u64, tally: &mut Tally) -> Result<bool> {
    let (mut files, end, is_closed) = run(alloc, case.saved.stopping(alloc, side, calls)?)?;
    if !files.are_stopped() {
        ensure!(
            is_closed && matches!(end, UpgradeEnd::Done),
            "a fault without a stop"
        );
        return Ok(false);
    }
    if let Some(fault) = end.fault() {
        ensure!(fault == Fault::Broken, "{fault}");
    }
    tally.count(end);
    tally.kept.find(alloc, case, files.saved(alloc)?, end)?;
    tally.lost.find(alloc, case, files.after_stop(alloc)?, end)?;
    Ok(true)
}

/// Lets a file fail after each number of calls, up to one that the upgrade does not reach. Returns the counts.
fn stop_each(alloc: Global, case: Case<'_>, side: Side) -> Result<Tally> {
    let mut tally = Tally::new();
    for calls in 0..MOST_CALLS {
        let is_stopped = stop(alloc, case, side, calls, &mut tally).context(format_args!(
            "after {calls} calls on the {side}"
        ))?;
        if !is_stopped {
            return Ok(tally);
        }
    }
    bail!("the calls on the {side} go on")
}

/// Lets each of the two files fail after each number of calls of an upgrade, and writes the counts.
fn play_stops(alloc: Global, case: Case<'_>, transcript: &mut Vec<u8>) -> Result<()> {
    for side in [Side::Log, Side::Database] {
        stop_each(alloc, case, side)?.write(side, transcript)?;
    }
    Ok(())
}

/// Writes what the upgrade of a project changed. Upgrades it again, which changes nothing, and then runs the crashes.
fn play_change(alloc: Global, saved: &Saved, left: &Saved, transcript: &mut Vec<u8>) -> Result<()> {
    let before = seen_of(alloc, saved)?;
    let after = seen_of(alloc, left)?;
    before.write_changes(&after, transcript)?;
    let (again, end) = run_whole(alloc, left)?;
    ensure!(again.has_database_of(left), "the next upgrade writes");
    writeln!(transcript, "again: {end}, nothing changes")?;
    let case = Case {
        saved,
        before: &before,
        after: &after,
    };
    play_stops(alloc, case, transcript)
}

/// Runs the upgrade of the project in a database.
fn play_database(alloc: Global, saved: &Saved, transcript: &mut Vec<u8>) -> Result<()> {
    let (left, end) = run_whole(alloc, saved)?;
    if left.has_database_of(saved) {
        writeln!(transcript, "{end}, nothing changes")?;
        return Ok(());
    }
    ensure!(matches!(end, UpgradeEnd::Done), "{end}, and it writes");
    play_change(alloc, saved, &left, transcript)
}

/// Runs the upgrades of the databases that a script names.
pub fn play(rt: &HostRuntime, text: &str, transcript: &mut Vec<u8>) -> Result<()> {
    for line in text.lines() {
        if line.starts_with('#') {
            write_comment(line, transcript)?;
            continue;
        }
        writeln!(transcript, "> {line}")?;
        let bytes = fs::read(rt, line).context(line)?;
        play_database(rt.alloc(), &Saved::database(rt.alloc(), bytes), transcript)?;
    }
    Ok(())
}
