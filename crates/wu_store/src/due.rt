//! The workunits that a pass is to change, found by the queue; and the marks by which it finds them, of all workunits.

ghost use Rattle.std.specs.Prelude.{◌≡◌, ◌≤◌, ◌<◌, ◌+◌, ◌++◌, ◌-◌, ◌^◌, ◌∷◌, [], false, None, length, All, IfErr, IfOk, IfSome};
ghost use Rattle.wu_core.specs.Reads.{OkOrWantsMemory};
ghost use Rattle.wu_core.specs.declared.marks.Marks.{Marks};
ghost use Rattle.wu_rules.specs.Marks.{marks, selects};
ghost use Rattle.wu_store.specs.Due.{AreEarly, LoadsDue, numbers_left, FindsDue, FindsDueNumbers, FindsFirst, FindsNumbers, AreRowsOfStorable, FindsAllPresent, FindsMarks, FindsPresent, IsRowOfStorable};
ghost use Rattle.wu_store.specs.Queues.{first_marked, is_marked, AnswersQueueIf};
ghost use Rattle.wu_store.specs.Reads.{ReadsWorld, ReadsWorldIf, ReadsQueuedIf};
ghost use Rattle.wu_store.specs.Loading.{FindsAbove, LoadsAbove};
ghost use Rattle.wu_schema.specs.Reading.{IsReadFault};
ghost use Rattle.wu_core.specs.Formed.{IsWorkunit};

use crate::loading::{load, load_above, load_early};
use crate::statements::marked_rows;
use sqlite::{Alter, Connection, Row};
use std::alloc::Global;
use wu_core::{Fault, Marks, Moment, Workunit};
use wu_rules::{Pass, marks_of};
use wu_schema::number_at;

/// Returns the workunit of the least number, with its instances, or `None` if there is none, in a project without
/// classes. It is that of number 0, or the first above it.
pub(crate) fn first<S: Alter>(
    conn: &mut Connection<S>,
    alloc: Global,
) -> Result<Option<Workunit>, Fault>
    // The connection is open afterwards, except after `Memory` and `Broken`.
    // It only reads, and a fault is `Memory`, `Broken` or `NotAProject`.
    // In each represented world without classes it is the workunit of the least number, or `None`
    // if there is none.
    // Over a represented world without classes, its workunits readable, with no limit on steps,
    // `NotAProject` is not returned.
    ensures reads { ReadsWorld S.Store conn.old conn.new result FindsFirst AreEarly }
{
    match load_early(conn, alloc, 0)? {
        Some(workunit) => Ok(Some(workunit)),
        None => load_above(conn, alloc, 0),
    }
}

/// Returns the workunit of the least number above this one, with its instances, or `None` if there is none, in a
/// project without classes.
///
/// Returns `NotAProject` if a row is invalid, or if its number is not above this one.
pub(crate) fn next_after<S: Alter>(
    conn: &mut Connection<S>,
    alloc: Global,
    number: u64,
) -> Result<Option<Workunit>, Fault>
    // There are fewer 64-bit numbers from that of the answer on than from this one on, so a loop
    // over answers ends.
    ensures shrinks { IfOk result (λ next. numbers_left next < 2 ^ 64 - number) }
    // For a number below 2^63 the connection is open afterwards, except after `Memory` and
    // `Broken`.
    // It only reads, and a fault is `Memory`, `Broken` or `NotAProject`.
    // In each represented world without classes it is the first workunit above this number, or
    // `None` if there is none.
    // Over a represented world without classes, that workunit readable, with no limit on steps and
    // a number below 2^63, `NotAProject` is not returned.
    ensures reads { ReadsWorldIf S.Store conn.old conn.new result (number < 2 ^ 63)
        (FindsAbove number) (LoadsAbove number) }
{
    let Some(next) = load_above(conn, alloc, number)? else {
        return Ok(None);
    };
    if next.number <= number {
        return Err(Fault::NotAProject);
    }
    Ok(Some(next))
}

/// Adds the marks of a workunit, with its number.
fn add_marks(rows: &mut Vec<(u64, Marks)>, workunit: &Workunit) -> Result<(), Fault>
    ensures { OkOrWantsMemory result
        (λ _. rows.new.items ≡ rows.old.items ++ (workunit.now.number, marks workunit.now) ∷ []) }
{
    rows.push((workunit.number, marks_of(workunit)))?;
    Ok(())
}

/// Returns the marks of all workunits, each with its number, in order of number, of a project without classes.
///
/// Loads one workunit after another, and keeps only its marks.
pub fn load_marks<S: Alter>(
    conn: &mut Connection<S>,
    alloc: Global,
) -> Result<Vec<(u64, Marks)>, Fault>
    // The connection is open afterwards, except after `Memory` and `Broken`.
    // It only reads, and a fault is `Memory`, `Broken` or `NotAProject`.
    // In each represented world without classes these are the numbers of all workunits with their
    // marks, in order of number.
    // Over a represented world without classes, its workunits readable, with no limit on steps,
    // `NotAProject` is not returned.
    ensures reads { ReadsWorld S.Store conn.old conn.new result FindsMarks AreEarly }
{
    let mut rows = Vec::new(alloc);
    let mut next = first(conn, alloc)?;
    while let Some(workunit) = next {
        add_marks(&mut rows, &workunit)?;
        next = next_after(conn, alloc, workunit.number)?;
    }
    Ok(rows)
}

/// Returns the moment so many seconds before this one, or `None` if there is none.
fn moment_before(now: Moment, seconds: u64) -> Option<Moment>
    ensures since { IfSome result (λ since. since + seconds ≡ now) }
    ensures none { result ≡ None → now < seconds }
{
    if seconds > now.seconds() {
        return None;
    }
    Moment::new(now.seconds() - seconds)
}

/// Returns the moment by which a mark has to have come, for a pass that goes by moments. For a purge it is the one so
/// long before, or `None` if there is none.
fn moment_due(pass: Pass, now: Moment, min_age: u64) -> Option<Moment>
    // With a moment, the pass selects exactly those marks that are set or have come by it.
    ensures by { IfSome result (λ by. (marks : Marks)
        → is_marked pass by marks ≡ selects pass now min_age marks) }
    // Without a moment the pass selects no marks.
    ensures none { result ≡ None → (marks : Marks) → selects pass now min_age marks ≡ false }
{
    match pass {
        Pass::Purge => moment_before(now, min_age),
        Pass::Transition | Pass::Validate | Pass::Assimilate | Pass::Delete => Some(now),
    }
}

/// Returns the rows of the numbers of the workunits that the queue has for a pass, in order, up to the limit.
fn due_rows<S: Alter>(
    conn: &mut Connection<S>,
    pass: Pass,
    now: Moment,
    min_age: u64,
    limit: u64,
) -> Result<Vec<Row>, Fault>
    // These are the numbers of the queue's first workunits whose marks the pass selects, in order,
    // up to the limit.
    ensures { AnswersQueueIf S.Store conn.old conn.new result (limit < 2 ^ 63)
        (first_marked limit (selects pass now min_age)) }
{
    match moment_due(pass, now, min_age) {
        Some(by) => marked_rows(conn, pass, by, limit),
        // nothing can have waited for so long
        None => marked_rows(conn, pass, Moment::first(), 0),
    }
}

/// Returns the workunit of the number in a row of the queue. Returns `NotAProject` if there is none.
fn present<S: Alter>(conn: &mut Connection<S>, alloc: Global, row: &Row) -> Result<Workunit, Fault>
    ensures formed { IfOk result IsWorkunit }
    // In each represented world with classes where the row has the number of a workunit, it is that
    // workunit.
    // Over such a world with that workunit readable, and with no limit on steps, `NotAProject` is
    // not returned.
    ensures reads { ReadsWorldIf S.Store conn.old conn.new result ⊥ (FindsPresent row.now)
        (IsRowOfStorable row.now) }
{
    let number = number_at(row, 0)?;
    match load(conn, alloc, number)? {
        Some(workunit) => Ok(workunit),
        None => Err(Fault::NotAProject),
    }
}

/// Returns the same rows as `due_rows`, which are never more than the limit. Returns `NotAProject` if there are more.
fn first_due_rows<S: Alter>(
    conn: &mut Connection<S>,
    pass: Pass,
    now: Moment,
    min_age: u64,
    limit: u64,
) -> Result<Vec<Row>, Fault>
    ensures reads { AnswersQueueIf S.Store conn.old conn.new result (limit < 2 ^ 63)
        (first_marked limit (selects pass now min_age)) }
    ensures few { IfOk result (λ rows. length rows.items ≤ limit) }
{
    let rows = due_rows(conn, pass, now, min_age, limit)?;
    if rows.len() as u64 > limit {
        return Err(Fault::NotAProject);
    }
    Ok(rows)
}

/// Returns the numbers in these rows of the queue, in their order. Returns `NotAProject` if a row has none.
fn numbers_in(alloc: Global, rows: &[Row]) -> Result<Vec<u64>, Fault>
    // Rows of one number each are read as these numbers, or out of memory.
    ensures numbers { FindsNumbers rows.now result }
    ensures fault { IfErr result IsReadFault }
    ensures long { IfOk result (λ found. length found.items ≡ length rows.now) }
{
    let mut found = Vec::new(alloc);
    for row in rows {
        let number = number_at(row, 0)?;
        found.push(number)?;
    }
    Ok(found)
}

/// Returns the workunits of the numbers in these rows of the queue, in their order. Returns `NotAProject` if one is not
/// present.
fn load_all<S: Alter>(
    conn: &mut Connection<S>,
    alloc: Global,
    rows: &[Row],
) -> Result<Vec<Workunit>, Fault>
    ensures formed { IfOk result (λ found. All IsWorkunit found.items) }
    // In each represented world with classes where the rows have the numbers of workunits, these
    // are those workunits.
    // Over such a world with those workunits readable, and with no limit on steps, `NotAProject` is
    // not returned.
    ensures reads { ReadsWorldIf S.Store conn.old conn.new result ⊥ (FindsAllPresent rows.now)
        (AreRowsOfStorable rows.now) }
    ensures long { IfOk result (λ found. length found.items ≡ length rows.now) }
{
    let mut found = Vec::new(alloc);
    for row in rows {
        let workunit = present(conn, alloc, row)?;
        found.push(workunit)?;
    }
    Ok(found)
}

/// Returns the workunits that the pass changes, in order of number: the first ones, up to the limit.
///
/// Finds their numbers in the queue, and loads those workunits alone. Returns `NotAProject` if a row is invalid, a
/// workunit is not well formed, or the limit is not below 2^63.
pub fn load_due<S: Alter>(
    conn: &mut Connection<S>,
    alloc: Global,
    pass: Pass,
    now: Moment,
    min_age: u64,
    limit: u64,
) -> Result<Vec<Workunit>, Fault>
    // For a limit below 2^63 the connection is open afterwards, except after `Memory` and `Broken`.
    // It only reads, and a fault is `Memory`, `Broken` or `NotAProject`.
    // In each represented world with classes and its queue these are the first workunits that the
    // pass changes, up to the limit.
    // Over a represented world with classes, its queue and readable workunits, with no limit on
    // steps and a limit below 2^63, `NotAProject` is not returned.
    ensures reads { ReadsQueuedIf S.Store conn.old conn.new result (limit < 2 ^ 63)
        (FindsDue pass now min_age limit) (LoadsDue limit) }
    // Each of the workunits is well formed, whatever the tables hold.
    ensures formed { IfOk result (λ due. All IsWorkunit due.items) }
    // There are at most as many as the limit.
    ensures few { IfOk result (λ due. length due.items ≤ limit) }
{
    let rows = first_due_rows(conn, pass, now, min_age, limit)?;
    load_all(conn, alloc, rows.as_slice())
}

/// Returns the numbers of the workunits that the pass changes, in order: the first ones, up to the limit.
///
/// Finds them in the queue, and loads no workunit. Returns `NotAProject` if the limit is not below 2^63.
pub fn due_numbers<S: Alter>(
    conn: &mut Connection<S>,
    alloc: Global,
    pass: Pass,
    now: Moment,
    min_age: u64,
    limit: u64,
) -> Result<Vec<u64>, Fault>
    // For a limit below 2^63 the connection is open afterwards, except after `Memory` and `Broken`.
    // It only reads, and a fault is `Memory`, `Broken` or `NotAProject`.
    // In each represented world with classes and its queue these are the numbers of the first
    // workunits that the pass changes, up to the limit.
    // Over a represented world with classes and its queue, with no limit on steps and a limit below
    // 2^63, `NotAProject` is not returned.
    ensures reads { ReadsQueuedIf S.Store conn.old conn.new result (limit < 2 ^ 63)
        (FindsDueNumbers pass now min_age limit) (λ _. limit < 2 ^ 63) }
    // There are at most as many as the limit.
    ensures few { IfOk result (λ due. length due.items ≤ limit) }
{
    let rows = first_due_rows(conn, pass, now, min_age, limit)?;
    numbers_in(alloc, rows.as_slice())
}
