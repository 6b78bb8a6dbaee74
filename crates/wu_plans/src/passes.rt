//! A pass: what it makes of the workunits that it takes, what it answers and what it changes, before anything is
//! changed.

ghost use Rattle.std.specs.Prelude.{⊤, ◌≡◌, ◌<◌, ◌≤◌, ◌^◌, ◌++◌, [], true, length, map, None};
ghost use Rattle.wu_core.specs.Reads.{OkOrWantsMemory};
ghost use Rattle.wu_machine.specs.Machine.{is_limit_right};
ghost use Rattle.wu_plans.specs.PassPlans.{asked, AddsArchivedRows, AddsFrom, PlansGrants, AddsGiven, HandlesAll, HandlesAlso, IsImageOf, PlansTaken};
ghost use Rattle.wu_plans.specs.Planning.{IsPresentProject, PlansNow, PlansProject};
ghost use Rattle.wu_machine.specs.Requests.{AskPass};
ghost use Rattle.wu_store.specs.Changing.{archived_from};
ghost use Rattle.wu_rules.specs.declared.due.Pass.TheVariants as pass;
ghost use Rattle.wu_store.specs.declared.changes.Change.TheVariants.{Remove};
ghost use Rattle.wu_store.specs.Reads.{ReadsWorldIf};

use crate::copies::copy_of;
use crate::plan::Plan;
use crate::sums::sums_of;
use sqlite::{Alter, Connection};
use std::alloc::Global;
use wu_core::{Archived, Fault, Grant, HIGHEST_LIMIT, LONGEST_AGE, Moment, Workunit};
use wu_machine::Answer;
use wu_rules::{Pass, assimilate, delete_files, transition, validate};
use wu_store::{Change, due_numbers, load_due, next_archived_place, next_grant_place};

/// What a pass is asked to do: at which moment, up to how many workunits, and of which least age those of a purge.
#[derive(Clone, Copy)]
pub struct Ask {
    pub pass: Pass,
    pub moment: Moment,
    pub limit: u64,
    /// In seconds since the assimilation; for the purge alone.
    pub min_age: u64,
}

impl Ask {
    /// Asks for a transition at this moment.
    pub fn transition(now: Moment, limit: u64) -> Self
        // It asks the machine for a transition at this moment, up to this limit.
        ensures { asked result ≡ AskPass pass.Transition now limit 0 }
    {
        Ask {
            pass: Pass::Transition,
            moment: now,
            limit,
            min_age: 0,
        }
    }

    /// Asks for a validation, which needs no moment.
    pub fn validate(limit: u64) -> Self
        // It asks the machine for a validation, up to this limit.
        ensures { asked result ≡ AskPass pass.Validate 0 limit 0 }
    {
        Ask {
            pass: Pass::Validate,
            moment: Moment::first(),
            limit,
            min_age: 0,
        }
    }

    /// Asks for an assimilation at this moment.
    pub fn assimilate(now: Moment, limit: u64) -> Self
        // It asks the machine for an assimilation at this moment, up to this limit.
        ensures { asked result ≡ AskPass pass.Assimilate now limit 0 }
    {
        Ask {
            pass: Pass::Assimilate,
            moment: now,
            limit,
            min_age: 0,
        }
    }

    /// Asks for a deletion of files, which needs no moment.
    pub fn delete(limit: u64) -> Self
        // It asks the machine for a deletion of files, up to this limit.
        ensures { asked result ≡ AskPass pass.Delete 0 limit 0 }
    {
        Ask {
            pass: Pass::Delete,
            moment: Moment::first(),
            limit,
            min_age: 0,
        }
    }

    /// Asks for a purge at this moment, of what was assimilated at least so many seconds before.
    pub fn purge(now: Moment, limit: u64, min_age: u64) -> Self
        // It asks the machine for a purge at this moment, with this limit and this least age.
        ensures { asked result ≡ AskPass pass.Purge now limit min_age }
    {
        Ask {
            pass: Pass::Purge,
            moment: now,
            limit,
            min_age,
        }
    }

    /// Returns whether the limit is 1 to 1000, and the least age of a purge at most a year of 365 days.
    pub fn is_right(&self) -> bool
        // A limit is right from 1 to 1000, and the least age of a purge up to a year.
        ensures { result ≡ is_limit_right self.now.pass self.now.limit self.now.min_age }
    {
        let is_age_right = self.pass != Pass::Purge || self.min_age <= LONGEST_AGE;
        1 <= self.limit && self.limit <= HIGHEST_LIMIT && is_age_right
    }
}

/// What a pass makes of one workunit.
#[derive(Drop)]
struct Image<'a> {
    change: Change<'a>,
    /// One for each result that is newly found valid and has a host.
    grants: Vec<Grant>,
    /// What is kept permanently of a workunit that is assimilated.
    archived: Option<Archived>,
}

/// Makes an image that grants nothing and archives nothing.
fn plain<'a>(alloc: Global, change: Change<'a>) -> Image<'a>
    ensures same { result.change ≡ change.entry }
    ensures grants { result.grants.items ≡ [] }
    ensures archived { result.archived ≡ None }
{
    Image {
        change,
        grants: Vec::new(alloc),
        archived: None,
    }
}

/// Returns what the pass makes of the workunit. The only fault is `Memory`.
fn image_of<'a>(
    alloc: Global,
    pass: Pass,
    now: Moment,
    mut workunit: Workunit,
) -> Result<Image<'a>, Fault>
    // The image, its grants and its archived row are what the pass's definition makes of the
    // workunit. The only fault is `Memory`.
    ensures { OkOrWantsMemory result (IsImageOf pass now workunit) }
{
    match pass {
        Pass::Transition => {
            let was = copy_of(alloc, &workunit)?;
            transition(alloc, &mut workunit, now)?;
            Ok(plain(alloc, Change::Replace(was, workunit)))
        }
        Pass::Validate => {
            let was = copy_of(alloc, &workunit)?;
            let grants = validate(alloc, &mut workunit)?;
            Ok(Image {
                change: Change::Replace(was, workunit),
                grants,
                archived: None,
            })
        }
        Pass::Assimilate => {
            let was = copy_of(alloc, &workunit)?;
            let archived = assimilate(alloc, &mut workunit, now)?;
            Ok(Image {
                change: Change::Replace(was, workunit),
                grants: Vec::new(alloc),
                archived,
            })
        }
        Pass::Delete => {
            let was = copy_of(alloc, &workunit)?;
            delete_files(&mut workunit);
            Ok(plain(alloc, Change::Replace(was, workunit)))
        }
        Pass::Purge => Ok(plain(alloc, Change::Remove(workunit.number))),
    }
}

/// What a pass makes of the workunits that it takes, in their order.
#[derive(Drop)]
struct Handled<'a> {
    changes: Vec<Change<'a>>,
    grants: Vec<Grant>,
    archived: Vec<Archived>,
}

impl<'a> Handled<'a> {
    /// Adds what the pass makes of one more workunit.
    fn push(&mut self, image: Image<'a>) -> Result<(), Fault>
        ensures { OkOrWantsMemory result (λ _. HandlesAlso image.entry self.old self.new) }
    {
        let Image {
            change,
            mut grants,
            archived,
        } = image;
        self.changes.push(change)?;
        self.grants.append(&mut grants)?;
        if let Some(row) = archived {
            self.archived.push(row)?;
        }
        Ok(())
    }
}

/// Returns what the pass makes of these workunits, one after another.
fn handle<'a>(
    alloc: Global,
    pass: Pass,
    now: Moment,
    taken: Vec<Workunit>,
) -> Result<Handled<'a>, Fault>
    // There is a change for each workunit, in order, with its grants and its archived row. The only
    // fault is `Memory`.
    ensures { OkOrWantsMemory result (HandlesAll pass now taken.items) }
{
    let mut handled = Handled {
        changes: Vec::new(alloc),
        grants: Vec::new(alloc),
        archived: Vec::new(alloc),
    };
    for workunit in taken {
        let image = image_of(alloc, pass, now, workunit)?;
        handled.push(image)?;
    }
    Ok(handled)
}

/// Adds one change that keeps the grants at consecutive places, from this one on, with their sums.
pub fn with_grants(
    alloc: Global,
    changes: &mut Vec<Change<'_>>,
    place: u64,
    grants: Vec<Grant>,
) -> Result<(), Fault>
    // The grants get consecutive places from this one on, with one sum a host, except where two
    // would pass 64 bits. The only fault is `Memory`.
    ensures { OkOrWantsMemory result
        (λ _. AddsFrom place grants.items changes.old.items changes.new.items) }
{
    let sums = sums_of(alloc, grants.as_slice())?;
    changes.push(Change::Grants(place, grants, sums))?;
    Ok(())
}

/// Adds the archived rows at consecutive places, from this one on.
pub fn with_archived(
    changes: &mut Vec<Change<'_>>,
    place: u64,
    archived: Vec<Archived>,
) -> Result<(), Fault>
    // The place is at most 2^63.
    requires { place ≤ 2 ^ 63 }
    // The rows get consecutive places from this one on. The only fault is `Memory`.
    ensures { OkOrWantsMemory result
        (λ _. changes.new.items ≡ changes.old.items ++ archived_from place archived.items) }
{
    let mut seq = place;
    for row in archived {
        changes.push(Change::Archive(seq, row))?;
        seq += 1;
    }
    Ok(())
}

/// Adds the grants at the next places, if there are any.
fn and_grants<S: Alter>(
    conn: &mut Connection<S>,
    alloc: Global,
    changes: &mut Vec<Change<'_>>,
    grants: Vec<Grant>,
) -> Result<(), Fault>
    // With a grant, the connection is open afterwards, except after `Memory` and `Broken`.
    // The grants get the next places of the world's, in order.
    ensures { ReadsWorldIf S.Store conn.old conn.new result (0 < length grants.items)
        (PlansGrants grants.items changes.old.items changes.new.items) (λ _. ⊤) }
{
    if grants.is_empty() {
        return Ok(());
    }
    let place = next_grant_place(conn)?;
    with_grants(alloc, changes, place, grants)
}

/// Adds the archived rows at the next places, if there are any.
fn and_archived<S: Alter>(
    conn: &mut Connection<S>,
    changes: &mut Vec<Change<'_>>,
    archived: Vec<Archived>,
) -> Result<(), Fault>
    // With a row, the connection is open afterwards, except after `Memory` and `Broken`.
    // The archived rows get the next places of the world's, in order.
    ensures { ReadsWorldIf S.Store conn.old conn.new result (0 < length archived.items)
        (AddsArchivedRows archived.items changes.old.items changes.new.items) (λ _. ⊤) }
{
    if archived.is_empty() {
        return Ok(());
    }
    let place = next_archived_place(conn)?;
    with_archived(changes, place, archived)
}

/// Returns the changes of what was handled: of the workunits, then the grants, then the archived rows.
fn changes_of<'a, S: Alter>(
    conn: &mut Connection<S>,
    alloc: Global,
    handled: Handled<'a>,
) -> Result<Vec<Change<'a>>, Fault>
    // The changes are those of the workunits, then the grants and the archived rows at the world's
    // next places.
    ensures { ReadsWorldIf S.Store conn.old conn.new result ⊥ (AddsGiven handled.entry) (λ _. ⊤) }
{
    let Handled {
        mut changes,
        grants,
        archived,
    } = handled;
    and_grants(conn, alloc, &mut changes, grants)?;
    and_archived(conn, &mut changes, archived)?;
    Ok(changes)
}

/// Returns the plan of a pass that takes these workunits.
fn plan_taken<'a, S: Alter>(
    conn: &mut Connection<S>,
    alloc: Global,
    ask: &Ask,
    taken: Vec<Workunit>,
) -> Result<Plan<'a>, Fault>
    requires { length taken.items ≤ 1000 }
    // Over a represented world, with no limit on steps, no read is refused.
    ensures { ReadsWorldIf S.Store conn.old conn.new result ⊥ (PlansTaken ask.now taken.items)
        (λ _. ⊤) }
{
    let pass = ask.pass;
    let count = taken.len() as u32;
    let handled = handle(alloc, pass, ask.moment, taken)?;
    let changes = changes_of(conn, alloc, handled)?;
    Ok(Plan {
        answer: Answer::Passed {
            pass,
            handled: count,
        },
        changes,
    })
}

/// Returns a change for each number, which removes its workunit.
fn removals<'a>(alloc: Global, numbers: Vec<u64>) -> Result<Vec<Change<'a>>, Fault>
    ensures { OkOrWantsMemory result (λ changes. changes.items ≡ map Remove numbers.items) }
{
    let mut changes = Vec::new(alloc);
    for number in numbers {
        changes.push(Change::Remove(number))?;
    }
    Ok(changes)
}

/// Returns the plan of a purge. It grants and archives nothing, so it needs no more of a workunit than its number.
fn plan_purge<'a, S: Alter>(
    conn: &mut Connection<S>,
    alloc: Global,
    ask: &Ask,
) -> Result<Plan<'a>, Fault>
    requires right { is_limit_right ask.now.pass ask.now.limit ask.now.min_age ≡ true }
    requires purge { ask.now.pass ≡ pass.Purge }
    ensures reads { PlansProject S.Store conn.old conn.new result (PlansNow (asked ask.now))
        IsPresentProject }
{
    let numbers = due_numbers(conn, alloc, ask.pass, ask.moment, ask.min_age, ask.limit)?;
    let count = numbers.len() as u32;
    let changes = removals(alloc, numbers)?;
    Ok(Plan {
        answer: Answer::Passed {
            pass: ask.pass,
            handled: count,
        },
        changes,
    })
}

/// Returns the plan of a pass that replaces workunits by their images.
fn plan_images<'a, S: Alter>(
    conn: &mut Connection<S>,
    alloc: Global,
    ask: &Ask,
) -> Result<Plan<'a>, Fault>
    requires { is_limit_right ask.now.pass ask.now.limit ask.now.min_age ≡ true }
    ensures reads { PlansProject S.Store conn.old conn.new result (PlansNow (asked ask.now))
        IsPresentProject }
{
    let taken = load_due(conn, alloc, ask.pass, ask.moment, ask.min_age, ask.limit)?;
    plan_taken(conn, alloc, ask, taken)
}

/// Returns what a pass answers and changes, over tables of the present version.
///
/// It takes the first workunits that it changes, up to its limit. They are the first by number where the tables
/// represent a world whose list is in that order.
pub fn plan_pass<'a, S: Alter>(
    conn: &mut Connection<S>,
    alloc: Global,
    ask: &Ask,
) -> Result<Plan<'a>, Fault>
    // The limit is from 1 to 1000, and the least age of a purge at most a year.
    requires { is_limit_right ask.now.pass ask.now.limit ask.now.min_age ≡ true }
    // The connection is open afterwards, except after `Memory` and `Broken`.
    // It only reads, and never answers `Ended`.
    // The plan answers the number of its workunits and makes the machine's step, each image in its
    // place; or a fault of the store.
    // Over a project of the present version, with no limit on steps, no read is refused.
    ensures reads { PlansProject S.Store conn.old conn.new result (PlansNow (asked ask.now))
        IsPresentProject }
{
    match ask.pass {
        Pass::Purge => plan_purge(conn, alloc, ask),
        Pass::Transition | Pass::Validate | Pass::Assimilate | Pass::Delete => {
            plan_images(conn, alloc, ask)
        }
    }
}
