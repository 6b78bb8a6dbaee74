//! A batch: what it answers and what it changes, before anything is changed.

ghost use Rattle.std.specs.Prelude.{⊤, ◌≡◌, ◌∷◌, ◌+◌, ◌≤◌, ◌==◌, length, if◌then◌else◌, IfOk};
ghost use Rattle.std.specs.Bool.{OnFalse};
ghost use Rattle.std.specs.List.Sorted.{IsPermutation};
ghost use Rattle.wu_core.specs.Reads.{OkOrWantsMemory};
ghost use Rattle.wu_core.specs.Limits.{most_workunits};
ghost use Rattle.wu_feed.specs.Limits.{most_rows};
ghost use Rattle.wu_machine.specs.Batches.{new_workunit};
ghost use Rattle.wu_plans.specs.Planning.{additions, FindsFree, IsNewBatch, KnowsTaken, KnowsUsed, PlansBatch, PlansJobs, PlansNew, RefusesName, PlansWorld, PlansWorldIf, texts_of};
ghost use Rattle.wu_machine.specs.Commands.{batch_of};
ghost use Rattle.wu_machine.specs.Sound.{IsProject};
ghost use Rattle.wu_schema.specs.Refines.{Refines};
ghost use Rattle.wu_store.specs.Reads.{Reads, ReadsWorld, ReadsWorldIf};

use crate::imports::{applied, batch_source, imported, kept, repeated};
use crate::plan::Plan;
use sqlite::{Alter, Connection};
use std::alloc::Global;
use std::collections::HashSet;
use wu_core::{
    Assimilate, ErrorMask, Fault, FileDelete, ImportKind, Instances, MOST_WORKUNITS, Name, Params,
    Workunit,
};
use wu_feed::{Job, Jobs, read_jobs, read_template};
use wu_machine::Batch;
use wu_store::{Change, has_archived, has_workunit, import_of, next_number};

/// Returns whether the name belongs to a workunit that is present, or that was archived.
fn is_taken<S: Alter>(conn: &mut Connection<S>, name: &Name) -> Result<bool, Fault>
    // Over a represented world, with no limit on steps, no read is refused.
    ensures reads { ReadsWorld S.Store conn.old conn.new result (KnowsTaken name.now) (λ _. ⊤) }
{
    if has_workunit(conn, name)? {
        return Ok(true);
    }
    has_archived(conn, name)
}

/// Returns whether the name is one of these, or belongs to a workunit or an archived row. Else it is one of these
/// afterwards.
fn is_used<'a, S: Alter>(
    conn: &mut Connection<S>,
    names: &mut HashSet<&'a str>,
    name: &'a Name,
) -> Result<bool, Fault>
    // Over a represented world, with no limit on steps, no read is refused.
    ensures reads { ReadsWorldIf S.Store conn.old conn.new result ⊥
        (KnowsUsed (texts_of names.old.keys) name.now) (λ _. ⊤) }
    // After `false` the names are those before, in any order, and this one.
    ensures adds { IfOk result (λ used. OnFalse used
        (IsPermutation (name.now ∷ texts_of names.old.keys) (texts_of names.new.keys))) }
{
    if !names.insert(name.as_str())? {
        return Ok(true);
    }
    is_taken(conn, name)
}

/// Refuses the first job whose name is that of a workunit, an archived row or an earlier job.
fn check_names<S: Alter>(conn: &mut Connection<S>, alloc: Global, jobs: &[Job]) -> Result<(), Fault>
    requires { length jobs.now ≤ most_rows }
    // Over a represented world, with no limit on steps, no read is refused.
    ensures { Reads S.Store conn.old conn.new result ⊥ RefusesName Refines (FindsFree jobs.now)
        (λ _. ⊤) }
{
    let mut earlier = HashSet::new(alloc);
    let mut place = 0;
    for job in jobs {
        if is_used(conn, &mut earlier, &job.name)? {
            return Err(Fault::WorkunitUsed(place + 2));
        }
        place += 1;
    }
    Ok(())
}

/// Makes a workunit as a batch adds it: without instances.
fn new_workunit(alloc: Global, number: u64, params: Params, job: Job) -> Workunit
    ensures { result ≡ new_workunit params number job }
{
    let Job { name, input } = job;
    Workunit {
        number,
        name,
        params,
        input,
        error_mask: ErrorMask::none(),
        canonical: None,
        assimilate: Assimilate::Init,
        file_delete: FileDelete::Init,
        done_at: None,
        class: 0,
        instances: Instances::new(alloc),
    }
}

/// Returns the changes that add the jobs, with consecutive numbers from the next one.
fn additions<'a>(
    alloc: Global,
    next: u64,
    params: Params,
    jobs: Jobs,
) -> Result<Vec<Change<'a>>, Fault>
    requires { next + length jobs ≤ most_workunits + 1 }
    ensures { OkOrWantsMemory result (λ changes. changes.items ≡ additions params next jobs) }
{
    let mut changes = Vec::new(alloc);
    for job in jobs.into_vec() {
        let number = next + changes.len() as u64;
        let change = Change::Add(new_workunit(alloc, number, params, job));
        changes.push(change)?;
    }
    let number = next + changes.len() as u64;
    changes.push(Change::Next(number))?;
    Ok(changes)
}

/// Returns the first number of so many workunits; 0 where there are none.
fn first_of(next: u64, count: usize) -> u64
    ensures { result ≡ if count == 0 then 0 else next }
{
    if count == 0 { 0 } else { next }
}

/// Returns the answer and the changes of a batch of these jobs, none of which is refused.
fn new_batch<'a>(
    alloc: Global,
    batch: &'a Batch,
    next: u64,
    params: Params,
    jobs: Jobs,
) -> Result<Plan<'a>, Fault>
    requires { next + length jobs ≤ most_workunits + 1 }
    ensures { OkOrWantsMemory result (IsNewBatch (batch_of batch.now) next params jobs) }
{
    let count = jobs.len();
    let first = first_of(next, count);
    let verdicts = applied(alloc, count)?;
    let source = batch_source(batch);
    let import = kept(alloc, &source, first, verdicts.as_slice())?;
    let mut changes = additions(alloc, next, params, jobs)?;
    changes.push(Change::Keep(import))?;
    Ok(Plan {
        answer: imported(&source, first, verdicts)?,
        changes,
    })
}

/// Returns the plan of a batch of these jobs, under a name that no batch had. A workunit's name that is taken is
/// refused, and too many workunits.
fn plan_jobs<'a, S: Alter>(
    conn: &mut Connection<S>,
    alloc: Global,
    batch: &'a Batch,
    params: Params,
    jobs: Jobs,
) -> Result<Plan<'a>, Fault>
    requires { length jobs ≤ most_rows }
    ensures { PlansWorldIf S.Store conn.old conn.new result ⊥ (PlansJobs batch.now params jobs)
        IsProject }
{
    check_names(conn, alloc, jobs.as_slice())?;
    let next = next_number(conn)?;
    if jobs.len() as u64 > MOST_WORKUNITS + 1 - next {
        return Err(Fault::TooMany);
    }
    new_batch(alloc, batch, next, params, jobs)
}

/// Returns the plan of a batch under a name that no batch had: the template is read, and then the file.
fn plan_new<'a, S: Alter>(
    conn: &mut Connection<S>,
    alloc: Global,
    batch: &'a Batch,
) -> Result<Plan<'a>, Fault>
    ensures { PlansWorldIf S.Store conn.old conn.new result ⊥ (PlansNew batch.now) IsProject }
{
    let params = read_template(alloc, batch.template.as_slice())?;
    let jobs = read_jobs(alloc, batch.file.as_slice())?;
    plan_jobs(conn, alloc, batch, params, jobs)
}

/// Returns what a batch answers and changes, or the first refusal. In order: the name was used with other content, the
/// template, the file, a workunit's name that is taken, too many workunits.
pub fn plan_batch<'a, S: Alter>(
    conn: &mut Connection<S>,
    alloc: Global,
    batch: &'a Batch,
) -> Result<Plan<'a>, Fault>
    // The connection is open afterwards, except after `Memory` and `Broken`.
    // It only reads, and never answers `Ended`.
    // The plan answers the machine's reply and makes the machine's step; or it is the machine's
    // refusal, or a fault of the store.
    // Over a project, with no limit on steps, no read is refused.
    ensures reads { PlansWorld S.Store conn.old conn.new result (PlansBatch batch.now) IsProject }
{
    match import_of(conn, alloc, ImportKind::Batch, &batch.name)? {
        Some(earlier) => repeated(alloc, &batch_source(batch), earlier),
        None => plan_new(conn, alloc, batch),
    }
}
