//! A file of sends or of reports: what its rows leave, what it answers and what it changes, before anything is changed.

ghost use Rattle.std.specs.Prelude.{◌≤◌, All, IfOk};
ghost use Rattle.wu_core.specs.Reads.{OkOrWantsMemory};
ghost use Rattle.wu_plans.specs.Planning.{given_of, IsNewFile, IsPresentProject, LeavesRows, PlansNow, PlansRows, TakesRows, PlansWorld};
ghost use Rattle.wu_machine.specs.Requests.{AskReported, AskSent};
ghost use Rattle.wu_plans.specs.Touched.{LeavesRow, rule_in, TouchesNamed};
ghost use Rattle.wu_store.specs.Loading.{LoadsNamed};
ghost use Rattle.wu_store.specs.Reads.{ReadsWorldIf};

use crate::imports::{Source, file_source, imported, kept, repeated};
use crate::plan::Plan;
use crate::touched::{FileRow, Touched};
use sqlite::{Alter, Connection};
use std::alloc::Global;
use wu_core::{Bytes, Fault, Name};
use wu_feed::{ReportRow, Rows, SendRow};
use wu_machine::RowsFile;
use wu_store::{Change, import_of, load_named};

/// What the rows of a file left: the workunits that they name, and the number of a verdict for each row.
#[derive(Drop)]
pub struct AppliedRows {
    pub touched: Touched,
    pub verdicts: Vec<u8>,
}

/// Makes sure that the workunit of this name is among the touched, if it is present.
fn touch<S: Alter>(
    conn: &mut Connection<S>,
    alloc: Global,
    touched: &mut Touched,
    name: &Name,
) -> Result<(), Fault>
    // Over a world whose workunit of this name can be read, with no limit on steps, no read is
    // refused.
    ensures { ReadsWorldIf S.Store conn.old conn.new result ⊥
        (TouchesNamed name.now touched.old touched.new) (LoadsNamed name.now) }
{
    if touched.has(name) {
        return Ok(());
    }
    match load_named(conn, alloc, name)? {
        Some(workunit) => touched.insert(alloc, workunit),
        None => Ok(()),
    }
}

/// Applies a row to its workunit as the rows before left it, or skips it. Returns the number of the verdict. The class
/// of its host is asked for, where the verdict depends on that.
fn apply_row<R: FileRow, S: Alter>(
    conn: &mut Connection<S>,
    alloc: Global,
    touched: &mut Touched,
    row: R,
) -> Result<u8, Fault>
    ensures digit { IfOk result (λ verdict. verdict ≤ 9) }
    // The row sees what the rows before it left, and a send the class of its host in the world.
    // Over a world whose workunits and classes can be read, with no limit on steps, no read is
    // refused.
    ensures reads { ReadsWorldIf S.Store conn.old conn.new result ⊥
        (LeavesRow (rule_in R.rule R.class_in) row touched.old touched.new) TakesRows }
{
    touch(conn, alloc, touched, row.workunit())?;
    let class = row.find_class(conn)?;
    Ok(touched.apply(row, class))
}

/// Applies the rows of a file in order, each on what the rows before left.
fn apply_rows<R: FileRow, S: Alter>(
    conn: &mut Connection<S>,
    alloc: Global,
    rows: Rows<R>,
) -> Result<AppliedRows, Fault>
    ensures digits { IfOk result (λ left. All (λ verdict. verdict ≤ 9) left.verdicts.items) }
    // Each row sees what the rows before it left; the verdicts are theirs.
    // Over a world whose workunits and classes can be read, with no limit on steps, no read is
    // refused.
    ensures reads { ReadsWorldIf S.Store conn.old conn.new result ⊥
        (LeavesRows (rule_in R.rule R.class_in) rows) TakesRows }
{
    let mut touched = Touched::new(alloc);
    let mut verdicts = Vec::new(alloc);
    for row in rows.into_vec() {
        verdicts.push(apply_row(conn, alloc, &mut touched, row)?)?;
    }
    Ok(AppliedRows { touched, verdicts })
}

/// Returns the answer and the changes of a file whose rows left this.
fn new_file<'a>(alloc: Global, source: &Source<'a>, left: AppliedRows) -> Result<Plan<'a>, Fault>
    requires { All (λ verdict. verdict ≤ 9) left.verdicts.items }
    // Each touched workunit is put in place once, and the file is kept with its verdicts. The only
    // fault is `Memory`.
    ensures { OkOrWantsMemory result (IsNewFile (given_of source.now) left) }
{
    let AppliedRows { touched, verdicts } = left;
    let import = kept(alloc, source, 0, verdicts.as_slice())?;
    let mut changes = touched.into_changes(alloc)?;
    changes.push(Change::Keep(import))?;
    Ok(Plan {
        answer: imported(source, 0, Bytes::from_vec(verdicts))?,
        changes,
    })
}

/// Returns the plan of a file of these rows, under a name that no file of its kind had.
fn plan_rows<'a, R: FileRow, S: Alter>(
    conn: &mut Connection<S>,
    alloc: Global,
    source: &Source<'a>,
    rows: Rows<R>,
) -> Result<Plan<'a>, Fault>
    // The rows are applied or skipped in order, and the file is kept with their verdicts; or a
    // fault of the store.
    ensures { ReadsWorldIf S.Store conn.old conn.new result ⊥
        (PlansRows (rule_in R.rule R.class_in) (given_of source.now) rows) TakesRows }
{
    let left = apply_rows(conn, alloc, rows)?;
    new_file(alloc, source, left)
}

/// Returns what a file of these rows answers and changes, or the first refusal. In order: the name was used with other
/// content, the file.
fn plan_file<'a, R: FileRow, S: Alter>(
    conn: &mut Connection<S>,
    alloc: Global,
    file: &'a RowsFile,
) -> Result<Plan<'a>, Fault>
    ensures reads { PlansWorld S.Store conn.old conn.new result
        (PlansNow (R.asks file.now.name file.now.file)) IsPresentProject }
{
    let kind = R::kind();
    let source = file_source(kind, file);
    match import_of(conn, alloc, kind, &file.name)? {
        Some(earlier) => repeated(alloc, &source, earlier),
        None => {
            let rows = R::read(alloc, file.file.as_slice())?;
            plan_rows(conn, alloc, &source, rows)
        }
    }
}

/// Returns what a file of sends answers and changes, or the first refusal. In order: the name was used with other
/// content, the file.
pub fn plan_sent<'a, S: Alter>(
    conn: &mut Connection<S>,
    alloc: Global,
    file: &'a RowsFile,
) -> Result<Plan<'a>, Fault>
    // The connection is open afterwards, except after `Memory` and `Broken`.
    // It only reads, and never answers `Ended`.
    // The plan answers the machine's reply and makes its step, skipped rows changing nothing; or
    // the machine's refusal, or a fault of the store.
    // Over a project of the present version, with no limit on steps, no read is refused.
    ensures reads { PlansWorld S.Store conn.old conn.new result
        (PlansNow (AskSent file.now.name file.now.file)) IsPresentProject }
{
    plan_file::<SendRow, S>(conn, alloc, file)
}

/// Returns what a file of reports answers and changes, or the first refusal. In order: the name was used with other
/// content, the file.
pub fn plan_reported<'a, S: Alter>(
    conn: &mut Connection<S>,
    alloc: Global,
    file: &'a RowsFile,
) -> Result<Plan<'a>, Fault>
    // The connection is open afterwards, except after `Memory` and `Broken`.
    // It only reads, and never answers `Ended`.
    // The plan answers the machine's reply and makes its step, skipped rows changing nothing; or
    // the machine's refusal, or a fault of the store.
    // Over a project of the present version, with no limit on steps, no read is refused.
    ensures reads { PlansWorld S.Store conn.old conn.new result
        (PlansNow (AskReported file.now.name file.now.file)) IsPresentProject }
{
    plan_file::<ReportRow, S>(conn, alloc, file)
}
