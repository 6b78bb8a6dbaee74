//! Scenarios of crashes: one of two files fails after 0, 1, 2, .. calls. What is left is opened again and compared in
//! every view and table. Then the rest of the script runs over it. What runs is one act, or a session of all of them.

use crate::course::{Act, Between, Found, course};
use crate::runs::{Left, Reach, run_over, told_over};
use crate::seen::{look, see};
use crate::session_stops::{Session, whole_session};
use crate::sessions::{adopt, do_action};
use crate::tally::{Find, Finds, Tally};
use anyhow::{Context, Result, bail, ensure};
use sqlite::{Alter, Connection};
use std::alloc::Global;
use std::fs;
use std::io::Write;
use wu_core::Fault;
use wu_drive::Project;
use wu_play_files::{MOST_CALLS, Pages, PlayFiles, Saved, Side, Visit};

/// Runs an act over files that do not fail. Fails if it is not answered, unless it was done before and is refused now.
fn do_act<S: Alter>(
    alloc: Global,
    project: &mut Project<S>,
    act: &Act,
    was_done: bool,
) -> Result<()> {
    if let Some(fault) = do_action(alloc, project, act.action.as_ref()) {
        let is_refusal = !matches!(fault, Fault::Memory | Fault::Broken | Fault::Ended);
        ensure!(was_done && is_refusal, "{fault} at {}", act.title);
    }
    Ok(())
}

/// An act whose file fails, and the acts after it.
#[derive(Clone, Copy)]
struct Case<'a> {
    act: &'a Act,
    rest: &'a [Act],
    /// The session that runs all of these acts, instead of the first one by itself.
    session: Option<Session<'a>>,
    side: Side,
    pages: Pages,
}

impl<'a> Case<'a> {
    /// Returns the case of the act that follows so many acts; of the last act if there are no more.
    fn after(self, count: usize) -> Case<'a> {
        let mut case = self;
        for _ in 0..count {
            let [act, rest @ ..] = case.rest else {
                break;
            };
            case = Case { act, rest, ..case };
        }
        case
    }
}

/// Runs the act of a case again, whether or not it was done, and then the acts after it.
fn go_on<S: Alter>(
    alloc: Global,
    project: &mut Project<S>,
    case: Case<'_>,
    was_done: bool,
) -> Result<()> {
    do_act(alloc, project, case.act, was_done)?;
    for act in case.rest {
        do_act(alloc, project, act, false)?;
    }
    Ok(())
}

/// Returns which state a crash left. Then runs the act again and those after it, and checks that the last state is that
/// of the course.
fn find<S: Alter + Drop>(
    alloc: Global,
    conn: Connection<S>,
    case: Case<'_>,
    reach: Reach,
) -> Result<(Connection<S>, Found)> {
    let (conn, left) = look(alloc, conn)?;
    let found = case.act.found(&left, reach)?;
    let mut project = adopt(conn)?;
    go_on(alloc, &mut project, case, matches!(found, Found::After))?;
    let (conn, end) = see(alloc, project);
    let last = case.rest.last().unwrap_or(case.act);
    ensure!(end?.is_same(&last.after), "another end");
    Ok((conn, found))
}

/// A visitor that checks what a crash left and runs the rest of the script.
#[derive(Drop)]
struct GoingOn<'a> {
    case: Case<'a>,
    reach: Reach,
}

impl<'a> Visit for GoingOn<'a> {
    type Told = Found;

    fn visit<S: Alter + Drop>(
        self,
        alloc: Global,
        conn: Connection<S>,
    ) -> Result<(Connection<S>, Found)> {
        find(alloc, conn, self.case, self.reach)
    }
}

/// Returns the find of the files that a crash left. If the latest find was of the same files, its result is taken.
fn play_on(
    alloc: Global,
    case: Case<'_>,
    files: Saved,
    reach: Reach,
    finds: &Finds,
) -> Result<Find> {
    let rest = case.rest.len();
    let found = match finds.known(&files, reach, rest) {
        Some(found) => found,
        None => told_over(alloc, &files, GoingOn { case, reach })?,
    };
    Ok(Find {
        files,
        reach,
        rest,
        found,
    })
}

/// Checks how an act ended. Without a failed call it is answered and closed. It ends with no fault except `Broken`. A
/// session that began again saw the state before it.
fn is_right(case: Case<'_>, left: &Left, is_stopped: bool) -> Result<()> {
    let is_whole = left.end.reach.is_done() && left.is_closed;
    ensure!(is_stopped || is_whole, "a fault without a stop");
    if let Reach::Cut(fault) = left.end.reach {
        ensure!(fault == Fault::Broken, "{fault}");
    }
    if let Some(seen) = &left.end.again {
        ensure!(
            seen.is_same(&case.act.before.seen),
            "a session begins again over another state"
        );
    }
    Ok(())
}

/// Runs the act of a case, or its session. Returns what the run left, and the case of the act that was cut.
fn run(alloc: Global, case: Case<'_>, files: PlayFiles) -> Result<(Left, Case<'_>)> {
    match case.session {
        Some(session) => {
            let (left, answered) = session.run(files, case.pages)?;
            Ok((left, case.after(answered)))
        }
        None => {
            let left = run_over(alloc, files, case.act.action.as_ref(), case.pages)?;
            Ok((left, case))
        }
    }
}

/// Runs a case whose file fails after `calls` calls. Returns what the run left, the case of the act that was cut, and
/// whether the file has failed.
fn run_stopped(alloc: Global, case: Case<'_>, calls: u64) -> Result<(Left, Case<'_>, bool)> {
    let files = case.act.before.files.stopping(alloc, case.side, calls)?;
    let (mut left, cut) = run(alloc, case, files)?;
    let is_stopped = left.files.are_stopped();
    is_right(cut, &left, is_stopped)?;
    Ok((left, cut, is_stopped))
}

/// Checks the files with all that was written, and counts what was found if the file has failed.
fn keep(
    alloc: Global,
    case: Case<'_>,
    left: &Left,
    is_stopped: bool,
    tally: &mut Tally,
) -> Result<()> {
    let written = left.files.saved(alloc)?;
    let has_bytes = written.has_database_of(&case.act.before.files);
    let find = play_on(alloc, case, written, left.end.reach, &tally.kept)?;
    if is_stopped {
        tally.ends.count(&left.end, has_bytes);
        tally.kept.count(find);
    }
    Ok(())
}

/// Checks the files with what was synced alone, and counts what was found if the file has failed.
fn lose(
    alloc: Global,
    case: Case<'_>,
    left: Left,
    is_stopped: bool,
    tally: &mut Tally,
) -> Result<()> {
    let reach = left.end.reach;
    let synced = left.after_stop(alloc)?;
    let find = play_on(alloc, case, synced, reach, &tally.lost)?;
    if is_stopped {
        tally.lost.count(find);
    }
    Ok(())
}

/// Runs a case whose file fails after `calls` calls, and checks what a crash leaves that keeps or loses unsynced
/// writes. Returns whether the file has failed.
fn stop(alloc: Global, case: Case<'_>, calls: u64, tally: &mut Tally) -> Result<bool> {
    let (left, cut, is_stopped) = run_stopped(alloc, case, calls)?;
    keep(alloc, cut, &left, is_stopped, tally)?;
    lose(alloc, cut, left, is_stopped, tally)?;
    Ok(is_stopped)
}

/// Lets a file fail after each number of calls, up to one that the case does not reach. Returns the counts.
fn stop_each(alloc: Global, case: Case<'_>) -> Result<Tally> {
    let mut tally = Tally::new();
    for calls in 0..MOST_CALLS {
        let is_stopped = stop(alloc, case, calls, &mut tally).context(format_args!(
            "after {calls} calls on the {}",
            case.side
        ))?;
        if !is_stopped {
            return Ok(tally);
        }
    }
    bail!("the calls on the {} go on", case.side)
}

/// Returns the files that a scenario begins with: those of the database at a path, or `None` without a path.
fn start(rt: &HostRuntime, path: Option<&str>) -> Result<Option<Saved>> {
    let Some(path) = path else {
        return Ok(None);
    };
    let bytes = fs::read(rt, path).context(path)?;
    Ok(Some(Saved::database(rt.alloc(), bytes)))
}

/// Lets one file fail after each number of calls of a case, and writes the counts.
fn play_side(alloc: Global, case: Case<'_>, transcript: &mut Vec<u8>) -> Result<()> {
    let tally = stop_each(alloc, case)?;
    ensure!(tally.lost.before > 0 && tally.kept.before > 0, "no stop");
    tally.write(case.act, case.side, transcript)?;
    Ok(())
}

/// Runs the crashes of an act, or of a session of it and the rest, by either file.
fn play_case(
    alloc: Global,
    act: &Act,
    rest: &[Act],
    session: Option<Session<'_>>,
    pages: Pages,
    transcript: &mut Vec<u8>,
) -> Result<()> {
    let log = Case {
        act,
        rest,
        session,
        side: Side::Log,
        pages,
    };
    play_side(alloc, log, transcript)?;
    let database = Case {
        side: Side::Database,
        ..log
    };
    play_side(alloc, database, transcript)
}

/// Writes what an act changes, and runs its crashes by either file.
fn play_act(
    alloc: Global,
    act: &Act,
    rest: &[Act],
    pages: Pages,
    transcript: &mut Vec<u8>,
) -> Result<()> {
    writeln!(transcript, "> {}", act.title)?;
    act.before.seen.write_changes(&act.after, transcript)?;
    play_case(alloc, act, rest, None, pages, transcript)
}

/// Runs the crashes of each act.
fn play_acts(alloc: Global, acts: &[Act], pages: Pages, transcript: &mut Vec<u8>) -> Result<()> {
    for at in 0..acts.len() {
        let Some([act, rest @ ..]) = acts.get(at..) else {
            break;
        };
        play_act(alloc, act, rest, pages, transcript)?;
    }
    Ok(())
}

/// Runs a scenario, over the database at a path or over empty files.
pub fn play(
    rt: &HostRuntime,
    text: &str,
    path: Option<&str>,
    between: Between,
    pages: Pages,
    transcript: &mut Vec<u8>,
) -> Result<()> {
    let acts = course(rt, text, between, start(rt, path)?)?;
    play_acts(rt.alloc(), acts.as_slice(), pages, transcript)
}

/// Runs a scenario of one session over empty files. Writes what it prints, and runs its crashes by either file.
pub fn play_session(
    rt: &HostRuntime,
    text: &str,
    pages: Pages,
    transcript: &mut Vec<u8>,
) -> Result<()> {
    let acts = course(rt, text, Between::Closed, None)?;
    let [act, rest @ ..] = acts.as_slice() else {
        bail!("no act");
    };
    let whole = whole_session(rt, text)?;
    let session = Session {
        rt,
        text,
        whole: whole.as_str(),
    };
    ensure!(session.answers_all(acts.len()), "a line is not done");
    transcript.write_all(whole.as_str().as_bytes())?;
    play_case(rt.alloc(), act, rest, Some(session), pages, transcript)
}
