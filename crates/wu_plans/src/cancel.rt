//! Giving a workunit up: what it answers and what it changes, before anything is changed.

ghost use Rattle.std.specs.Prelude.{IfErr, IfOk};
ghost use Rattle.wu_plans.specs.Planning.{IsCancelPlan, IsPresentProject, PlansNow, RefusesCancel, PlansWorld};
ghost use Rattle.wu_machine.specs.Requests.{AskCancel};

use crate::copies::copy_of;
use crate::plan::Plan;
use sqlite::{Alter, Connection};
use std::alloc::Global;
use wu_core::{Fault, Name, Workunit};
use wu_machine::Answer;
use wu_rules::cancel;
use wu_store::{Change, load_named};

/// Returns the plan that gives the workunit up, if it is undecided.
fn give_up<'a>(alloc: Global, mut workunit: Workunit) -> Result<Plan<'a>, Fault>
    // The workunit is undecided, and the definition's image takes its place.
    ensures plan { IfOk result (IsCancelPlan workunit) }
    // The only faults are `Memory`, and `NotOpenToCancel` of a workunit that is not undecided.
    ensures fault { IfErr result (RefusesCancel workunit) }
{
    let was = copy_of(alloc, &workunit)?;
    cancel(&mut workunit)?;
    let name = workunit.name.copy()?;
    let mut changes = Vec::new(alloc);
    changes.push(Change::Replace(was, workunit))?;
    Ok(Plan {
        answer: Answer::Cancelled { workunit: name },
        changes,
    })
}

/// Returns what cancelling the workunit of this name answers and changes, or the refusal: none has the name, or it is
/// not undecided.
pub fn plan_cancel<'a, S: Alter>(
    conn: &mut Connection<S>,
    alloc: Global,
    name: &Name,
) -> Result<Plan<'a>, Fault>
    // The connection is open afterwards, except after `Memory` and `Broken`.
    // It only reads, and never answers `Ended`.
    // The plan gives an undecided workunit up; another one, or an unknown name, is refused as the
    // machine does; or a fault of the store.
    // Over a project of the present version, with no limit on steps, no read is refused.
    ensures reads { PlansWorld S.Store conn.old conn.new result (PlansNow (AskCancel name.now))
        IsPresentProject }
{
    match load_named(conn, alloc, name)? {
        Some(workunit) => give_up(alloc, workunit),
        None => Err(Fault::UnknownWorkunit),
    }
}
