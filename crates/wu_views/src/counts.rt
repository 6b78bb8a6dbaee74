//! The summary of a project: how much it holds.

ghost use Rattle.std.specs.Prelude.{◌≤◌, ⊤};
ghost use Rattle.wu_views.specs.Counting.{class_count, import_count, workunit_count};
ghost use Rattle.wu_views.specs.Lines.{summary_of};
ghost use Rattle.wu_views.specs.Summaries.{AddsState, CountsGrants, CountsResults, CountsSummary, granted_of, HasNumbers, HasRoom, IsCountable, IsCreditCountable, others_of, project_numbers, results_of, SumsSummary};
ghost use Rattle.wu_store.specs.Reads.{FindsAt, ReadsClassed, ReadsWorld};

use crate::lines::Summary;
use crate::questions::ask_count;
use crate::texts::{COUNT_CLASSES, COUNT_IMPORTS, COUNT_WORKUNITS, SELECT_CREDIT, SELECT_STATES};
use sqlite::{Alter, Connection};
use wu_core::{Fault, ServerState};
use wu_schema::rows::server_state_at;
use wu_schema::{fault_of, number_at, version_of};
use wu_store::{next_archived_place, next_number};

/// Returns how many workunits are present. Each has a row in the table of their classes, which is the one that is read
/// fastest.
fn count_workunits<S: Alter>(conn: &mut Connection<S>) -> Result<u64, Fault>
    ensures reads { ReadsClassed S.Store conn.old conn.new result (FindsAt workunit_count)
        (λ _. ⊤) }
{
    ask_count(conn, COUNT_WORKUNITS, &[])
}

/// Returns how many files were imported, each once.
fn count_imports<S: Alter>(conn: &mut Connection<S>) -> Result<u64, Fault>
    ensures reads { ReadsWorld S.Store conn.old conn.new result (FindsAt import_count) (λ _. ⊤) }
{
    ask_count(conn, COUNT_IMPORTS, &[])
}

/// Returns how many hosts have a class.
fn count_classes<S: Alter>(conn: &mut Connection<S>) -> Result<u64, Fault>
    ensures reads { ReadsClassed S.Store conn.old conn.new result (FindsAt class_count) (λ _. ⊤) }
{
    ask_count(conn, COUNT_CLASSES, &[])
}

/// How many instances there are, and how many in each state.
#[derive(Clone, Copy)]
struct Results {
    all: u64,
    unsent: u64,
    in_progress: u64,
    over: u64,
}

/// Returns the counts with one more instance, which is in this state.
fn with_state(so_far: Results, state: ServerState) -> Results
    // One more can be counted within 64 bits.
    requires { HasRoom so_far }
    // Where the counts are those of some states, the result has those with this state more.
    ensures { AddsState so_far state result }
{
    let all = so_far.all + 1;
    match state {
        ServerState::Inactive => Results { all, ..so_far },
        ServerState::Unsent => Results {
            all,
            unsent: so_far.unsent + 1,
            ..so_far
        },
        ServerState::InProgress => Results {
            all,
            in_progress: so_far.in_progress + 1,
            ..so_far
        },
        ServerState::Over => Results {
            all,
            over: so_far.over + 1,
            ..so_far
        },
    }
}

/// Counts the instances by state while their rows are read, one at a time. Returns `NotAProject` if a row has no state.
fn count_results<S: Alter>(conn: &mut Connection<S>) -> Result<Results, Fault>
    // After `Ok` each row of `result`, whatever the tables hold, has a state, and is counted in all
    // and in its state.
    ensures counted { CountsResults S.Store conn.old conn.new result }
    // The connection is open afterwards, except after `Memory` and `Broken`.
    // In each represented world these are the numbers of all instances, and of those in each state.
    // Over a represented world, with no limit on steps, `NotAProject` is not returned.
    ensures reads { ReadsWorld S.Store conn.old conn.new result (FindsAt results_of) (λ _. ⊤) }
{
    let mut found = Results {
        all: 0,
        unsent: 0,
        in_progress: 0,
        over: 0,
    };
    let mut rows = match conn.query(SELECT_STATES, &[]) {
        Ok(rows) => rows,
        Err(error) => return Err(fault_of(&error)),
    };
    for _ in 0..u64::MAX {
        if let Err(error) = rows.advance() {
            return Err(fault_of(&error));
        }
        let Some(row) = rows.get() else {
            return Ok(found);
        };
        let state = server_state_at(row, 0)?;
        found = with_state(found, state);
    }
    Err(Fault::Memory)
}

/// How many there are of the rest.
#[derive(Clone, Copy)]
struct Others {
    workunits: u64,
    archived: u64,
    imports: u64,
    classes: u64,
}

/// Returns how many workunits, archived workunits, imports and hosts with a class there are.
fn count_others<S: Alter>(conn: &mut Connection<S>) -> Result<Others, Fault>
    // The connection is open afterwards, except after `Memory` and `Broken`.
    // In each represented world with classes these are the numbers of workunits, archived rows,
    // imports and hosts with a class.
    // Over such a world, with no limit on steps, `NotAProject` is not returned.
    ensures reads { ReadsClassed S.Store conn.old conn.new result (FindsAt others_of) (λ _. ⊤) }
{
    let workunits = count_workunits(conn)?;
    let place = next_archived_place(conn)?;
    let imports = count_imports(conn)?;
    let classes = count_classes(conn)?;
    Ok(Others {
        workunits,
        archived: place - 1,
        imports,
        classes,
    })
}

/// How many grants were made, and their credit.
#[derive(Clone, Copy)]
struct Granted {
    grants: u64,
    credit: u64,
}

/// Counts the grants and adds up their credit while their rows are read, one at a time. Returns `NotAProject` if a row
/// has no credit, or if the sum is not below 2^64.
fn count_grants<S: Alter>(conn: &mut Connection<S>) -> Result<Granted, Fault>
    // After `Ok` each row of `credit_grant`, whatever the tables hold, has a number, and is counted
    // and summed.
    ensures counted { CountsGrants S.Store conn.old conn.new result }
    // The connection is open afterwards, except after `Memory` and `Broken`.
    // In each represented world these are the number of all grants and their credit.
    // Over a represented world with all credit below 2^64, with no limit on steps, `NotAProject` is
    // not returned.
    ensures reads { ReadsWorld S.Store conn.old conn.new result (FindsAt granted_of)
        IsCreditCountable }
{
    let mut grants = 0;
    let mut credit = 0u64;
    let mut rows = match conn.query(SELECT_CREDIT, &[]) {
        Ok(rows) => rows,
        Err(error) => return Err(fault_of(&error)),
    };
    for _ in 0..u64::MAX {
        if let Err(error) = rows.advance() {
            return Err(fault_of(&error));
        }
        let Some(row) = rows.get() else {
            return Ok(Granted { grants, credit });
        };
        let granted = number_at(row, 0)?;
        let Some(sum) = credit.checked_add(granted) else {
            return Err(Fault::NotAProject);
        };
        grants += 1;
        credit = sum;
    }
    Err(Fault::Memory)
}

/// Returns the version of the project's schema. Returns `NotAProject` if there is no project.
fn version<S: Alter>(conn: &mut Connection<S>) -> Result<u64, Fault>
    ensures reads { ReadsWorld S.Store conn.old conn.new result (FindsAt (λ world. world.version))
        (λ world. 1 ≤ world.version) }
{
    match version_of(conn)? {
        Some(version) => Ok(version),
        None => Err(Fault::NotAProject),
    }
}

/// The numbers of the project's row.
#[derive(Clone, Copy)]
struct Numbers {
    version: u64,
    next_number: u64,
}

/// Returns the numbers of the project's row.
fn read_numbers<S: Alter>(conn: &mut Connection<S>) -> Result<Numbers, Fault>
    // The connection is open afterwards, except after `Memory` and `Broken`.
    // In each represented world these are the version and the next number.
    // Over a represented world with both in range, with no limit on steps, `NotAProject` is not
    // returned.
    ensures reads { ReadsWorld S.Store conn.old conn.new result (FindsAt project_numbers)
        HasNumbers }
{
    let version = version(conn)?;
    let next_number = next_number(conn)?;
    Ok(Numbers {
        version,
        next_number,
    })
}

/// Returns how much a project with classes holds.
///
/// Returns `NotAProject` if a row is no value, or if the credit of all grants is not below 2^64.
pub fn summary<S: Alter>(conn: &mut Connection<S>) -> Result<Summary, Fault>
    // After `Ok` each row of `result`, whatever the tables hold, has a state, and is counted in all
    // and in its state.
    ensures counted { CountsSummary S.Store conn.old conn.new result }
    // After `Ok` each row of `credit_grant`, whatever the tables hold, has a number, and is counted
    // and summed.
    ensures summed { SumsSummary S.Store conn.old conn.new result }
    // The connection is open afterwards, except after `Memory` and `Broken`.
    // It only reads, and a fault is `Memory`, `Broken` or `NotAProject`.
    // In each represented world with classes it is the summary of that world.
    // Over such a world with version, next number and all credit in range, with no limit on steps,
    // `NotAProject` is not returned.
    ensures reads { ReadsClassed S.Store conn.old conn.new result (FindsAt summary_of) IsCountable }
{
    let numbers = read_numbers(conn)?;
    let results = count_results(conn)?;
    let others = count_others(conn)?;
    let granted = count_grants(conn)?;
    Ok(Summary {
        version: numbers.version,
        next_number: numbers.next_number,
        workunits: others.workunits,
        results: results.all,
        unsent: results.unsent,
        in_progress: results.in_progress,
        over: results.over,
        archived: others.archived,
        grants: granted.grants,
        credit: granted.credit,
        imports: others.imports,
        classes: others.classes,
    })
}
