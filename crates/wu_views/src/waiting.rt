//! What waits for the passes of a project.

ghost use Rattle.std.specs.Prelude.{◌≡◌, ◌++◌, IfOk, map, ⊤};
ghost use Rattle.wu_core.specs.Reads.{OkOrWantsMemory};
ghost use Rattle.wu_core.specs.declared.fault.Fault.TheVariants.{Memory};
ghost use Rattle.wu_core.specs.Storable.{AreStorable};
ghost use Rattle.wu_views.specs.Waiting.{count_lines, due_count, FindsDueLines, FindsStatusLines};
ghost use Rattle.wu_views.specs.declared.waiting.StatusLine.TheVariants.{Host};
ghost use Rattle.wu_store.specs.Reads.{FindsAt, ReadsQueued};

use crate::failures::{HostFailures, worst_hosts};
use crate::tallies::{Deadlines, Decisions, count_deadlines, count_decisions};
use sqlite::{Alter, Connection};
use std::alloc::{AllocError, Global};
use wu_core::{Deadline, Fault, Moment};
use wu_rules::Pass;
use wu_store::due_numbers;

/// How many workunits wait for a pass.
#[derive(Clone, Copy)]
pub struct DueLine {
    pub pass: Pass,
    pub count: u64,
}

/// A line on what is open in a project at a moment.
#[derive(Drop)]
pub enum StatusLine {
    /// How many workunits wait for a pass.
    Due(DueLine),
    /// How many workunits have neither a canonical instance nor an error.
    Undecided(u64),
    /// How many present workunits have an error.
    GivenUp(u64),
    /// How many instances in progress are past their deadline.
    Overdue(u64),
    /// The earliest deadline of the other instances in progress; `None` if there is none.
    NextDeadline(Option<Deadline>),
    /// A host of which many present instances ended with an error or without a reply.
    Host(HostFailures),
}

/// All passes, in the order in which a cycle first runs them.
const PASSES: [Pass; 5] = [
    Pass::Transition,
    Pass::Validate,
    Pass::Assimilate,
    Pass::Delete,
    Pass::Purge,
];

/// More workunits than the store has numbers for.
const MANY: u64 = i64::MAX as u64;

/// Returns how many workunits a pass would change at a moment, if it had no limit. A purge is taken to have the least
/// age 0. The queue is read, and no workunit.
///
/// Returns `Memory` for 2^63 - 1 workunits or more.
fn count_due<S: Alter>(
    conn: &mut Connection<S>,
    alloc: Global,
    pass: Pass,
    now: Moment,
) -> Result<u64, Fault>
    ensures reads { ReadsQueued S.Store conn.old conn.new result
        (FindsAt (λ world. due_count now world pass)) (λ _. ⊤) }
{
    let due = due_numbers(conn, alloc, pass, now, 0, MANY)?;
    let count = due.len() as u64;
    if count < MANY {
        Ok(count)
    } else {
        Err(Fault::Memory)
    }
}

/// Returns for each pass how many workunits it would change at a moment, if it had no limit, in the order in which a
/// cycle first runs them. A purge is taken to have the least age 0.
///
/// Reads the queue, and loads no workunit. Returns `NotAProject` if a row of the queue is invalid.
fn due_lines<S: Alter>(
    conn: &mut Connection<S>,
    alloc: Global,
    now: Moment,
) -> Result<Vec<StatusLine>, Fault>
    ensures reads { ReadsQueued S.Store conn.old conn.new result (FindsDueLines now) (λ _. ⊤) }
{
    let mut lines = Vec::new(alloc);
    for pass in PASSES {
        let count = count_due(conn, alloc, pass, now)?;
        lines.push(StatusLine::Due(DueLine { pass, count }))?;
    }
    Ok(lines)
}

/// Adds a line for each of these hosts.
fn with_hosts(
    lines: Vec<StatusLine>,
    hosts: Vec<HostFailures>,
) -> Result<Vec<StatusLine>, AllocError>
    ensures { IfOk result (λ found. found.items ≡ lines.items ++ map Host hosts.items) }
{
    let mut lines = lines;
    for host in hosts {
        lines.push(StatusLine::Host(host))?;
    }
    Ok(lines)
}

/// Adds the lines of these numbers and hosts.
fn with_counts(
    lines: Vec<StatusLine>,
    decisions: Decisions,
    deadlines: Deadlines,
    hosts: Vec<HostFailures>,
) -> Result<Vec<StatusLine>, Fault>
    ensures { OkOrWantsMemory result (λ found. found.items ≡ lines.items ++ count_lines decisions
        deadlines ++ map Host hosts.items) }
{
    let mut lines = lines;
    lines.push(StatusLine::Undecided(decisions.undecided))?;
    lines.push(StatusLine::GivenUp(decisions.given_up))?;
    lines.push(StatusLine::Overdue(deadlines.overdue))?;
    lines.push(StatusLine::NextDeadline(deadlines.next))?;
    let lines = with_hosts(lines, hosts)?;
    Ok(lines)
}

/// Returns what is open in a project at a moment: for each pass how many workunits it would change, if it had no limit, in
/// the order in which a cycle first runs them; how many workunits are undecided, and how many were given up; how many
/// instances in progress are overdue, and the earliest deadline of the others; at most ten hosts of which most instances
/// ended with an error or without a reply. A purge is taken to have the least age 0.
///
/// Walks over all workunits and instances, and holds a list of the hosts with such an instance alone. Returns
/// `NotAProject` if a row is invalid.
pub fn status_lines<S: Alter>(
    conn: &mut Connection<S>,
    alloc: Global,
    now: Moment,
) -> Result<Vec<StatusLine>, Fault>
    // The connection is open afterwards, except after `Memory` and `Broken`.
    // It only reads, and a fault is `Memory`, `Broken` or `NotAProject`.
    // In each represented world with classes and its queue these are its lines.
    // Over such a world with values in range, with no limit on steps, `NotAProject` is not returned.
    ensures reads { ReadsQueued S.Store conn.old conn.new result (FindsStatusLines now)
        AreStorable }
{
    let due = due_lines(conn, alloc, now)?;
    let decisions = count_decisions(conn, alloc)?;
    let deadlines = count_deadlines(conn, alloc, now)?;
    let hosts = worst_hosts(conn, alloc)?;
    with_counts(due, decisions, deadlines, hosts)
}
