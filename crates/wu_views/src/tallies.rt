//! How the workunits and the instances of a project stand, counted line by line.

ghost use Rattle.std.specs.Prelude.{◌≡◌, ◌+◌, IfOk, IsOkUnless};
ghost use Rattle.wu_core.specs.declared.fault.Fault.TheVariants.{Output};
ghost use Rattle.wu_core.specs.Storable.{AreStorable};
ghost use Rattle.wu_store.specs.Reads.{FindsAt, ReadsClassed};
ghost use Rattle.wu_views.specs.Tallies.{deadline_in_progress, deadlines_of, decisions_of, earlier, fault_of_count, is_undecided_line, one_more};

use crate::lines::{ResultLine, WorkunitLine};
use crate::listings::{ResultListing, WorkunitListing};
use crate::walking::{Takes, walk};
use sqlite::{Alter, Connection};
use std::alloc::Global;
use wu_core::{Deadline, Fault, Moment, ServerState};

/// Returns the sum of two numbers. Returns `Output` if it does not fit, since no more lines are taken then.
pub(crate) fn sum(one: u64, other: u64) -> Result<u64, Fault>
    ensures ok { IfOk result (λ n. n ≡ one + other) }
    ensures fault { IsOkUnless result Output }
{
    match one.checked_add(other) {
        Some(sum) => Ok(sum),
        None => Err(Fault::Output),
    }
}

/// Returns the number, and one more if `counts`. Returns `Output` at 2^64, since no more lines are taken then.
fn one_more(number: u64, counts: bool) -> Result<u64, Fault>
    ensures ok { IfOk result (λ n. n ≡ one_more number counts) }
    ensures fault { IsOkUnless result Output }
{
    if counts { sum(number, 1) } else { Ok(number) }
}

/// Returns the fault of a count: lines that are too many to be counted are told as out of memory.
pub(crate) fn fault_of_count(fault: Fault) -> Fault
    ensures { result ≡ fault_of_count fault }
{
    match fault {
        Fault::Output => Fault::Memory,
        other => other,
    }
}

/// How many present workunits are undecided, and how many were given up.
#[derive(Clone, Copy)]
pub struct Decisions {
    pub undecided: u64,
    pub given_up: u64,
}

/// Returns whether the workunit of a line has neither a canonical instance nor an error.
fn is_undecided(line: &WorkunitLine) -> bool
    ensures { result ≡ is_undecided_line line.now }
{
    line.canonical.is_none() && line.error_mask.code() == 0
}

impl Takes<WorkunitLine> for Decisions {
    ghost use Rattle.std.specs.Prelude.{⊤};
    ghost use Rattle.wu_views.specs.Tallies.{with_line};

    ghost takes = { λ old new line. new ≡ with_line old line };

    ghost refuses = { λ old new line. ⊤ };

    fn take(&mut self, line: &WorkunitLine) -> Result<(), Fault> {
        let undecided = one_more(self.undecided, is_undecided(line))?;
        let given_up = one_more(self.given_up, line.error_mask.code() != 0)?;
        *self = Decisions {
            undecided,
            given_up,
        };
        Ok(())
    }
}

/// Returns how many present workunits are undecided, and how many were given up. Walks over all workunits, and holds one
/// line of them.
///
/// Returns `NotAProject` if a row is no workunit, and `Memory` for 2^64 workunits or more.
pub fn count_decisions<S: Alter>(
    conn: &mut Connection<S>,
    alloc: Global,
) -> Result<Decisions, Fault>
    // The connection is open afterwards, except after `Memory` and `Broken`.
    // In each represented world with classes these are the numbers of the workunits that are
    // undecided and of those that have an error. Over such a world with values in range, with no
    // limit on steps, `NotAProject` is not returned.
    ensures reads { ReadsClassed S.Store conn.old conn.new result (FindsAt decisions_of)
        AreStorable }
{
    let mut decisions = Decisions {
        undecided: 0,
        given_up: 0,
    };
    match walk::<S, WorkunitListing, Decisions>(conn, alloc, &mut decisions) {
        Ok(()) => Ok(decisions),
        Err(fault) => Err(fault_of_count(fault)),
    }
}

/// How many instances in progress are overdue at a moment, and the earliest deadline of the others.
#[derive(Clone, Copy)]
pub struct Deadlines {
    now: Moment,
    pub overdue: u64,
    pub next: Option<Deadline>,
}

/// Returns the deadline of the instance of a line, if it is in progress.
fn deadline_in_progress(line: &ResultLine) -> Option<Deadline>
    ensures { result ≡ deadline_in_progress line.now }
{
    match line.server_state {
        ServerState::InProgress => line.deadline,
        _ => None,
    }
}

/// Returns the earlier of two deadlines, of which the first may be missing.
fn earlier(first: Option<Deadline>, other: Deadline) -> Deadline
    ensures { result ≡ earlier first other }
{
    match first {
        Some(first) if first.seconds() < other.seconds() => first,
        _ => other,
    }
}

impl Takes<ResultLine> for Deadlines {
    ghost use Rattle.std.specs.Prelude.{⊤};
    ghost use Rattle.wu_views.specs.Tallies.{with_result};

    ghost takes = { λ old new line. new ≡ with_result old line };

    ghost refuses = { λ old new line. ⊤ };

    fn take(&mut self, line: &ResultLine) -> Result<(), Fault> {
        let Some(deadline) = deadline_in_progress(line) else {
            return Ok(());
        };
        if deadline.is_before(self.now) {
            self.overdue = one_more(self.overdue, true)?;
        } else {
            self.next = Some(earlier(self.next, deadline));
        }
        Ok(())
    }
}

/// Returns how many instances in progress are overdue at a moment, and the earliest deadline of the others. Walks over all
/// instances, and holds one line of them.
///
/// Returns `NotAProject` if a row is no instance, and `Memory` for 2^64 instances or more.
pub fn count_deadlines<S: Alter>(
    conn: &mut Connection<S>,
    alloc: Global,
    now: Moment,
) -> Result<Deadlines, Fault>
    // The connection is open afterwards, except after `Memory` and `Broken`.
    // In each represented world with classes these are the number of its instances that are overdue
    // and the earliest deadline of the others in progress. Over such a world with values in range,
    // with no limit on steps, `NotAProject` is not returned.
    ensures reads { ReadsClassed S.Store conn.old conn.new result (FindsAt (deadlines_of now))
        AreStorable }
{
    let mut deadlines = Deadlines {
        now,
        overdue: 0,
        next: None,
    };
    match walk::<S, ResultListing, Deadlines>(conn, alloc, &mut deadlines) {
        Ok(()) => Ok(deadlines),
        Err(fault) => Err(fault_of_count(fault)),
    }
}
