//! A file of classes of hosts: what it answers and what it changes, before anything is changed.

ghost use Rattle.std.specs.Prelude.{◌≡◌, map};
ghost use Rattle.wu_core.specs.Reads.{OkOrWantsMemory};
ghost use Rattle.wu_machine.specs.Requests.{AskClasses};
ghost use Rattle.wu_plans.specs.Planning.{given_of, IsNewClasses, IsPresentProject, PlansNow, sets_class, PlansWorld};

use crate::imports::{Source, applied, file_source, imported, kept, repeated};
use crate::plan::Plan;
use sqlite::{Alter, Connection};
use std::alloc::Global;
use wu_core::{Fault, HostClass, ImportKind};
use wu_feed::{Classes, read_classes};
use wu_machine::RowsFile;
use wu_store::{Change, import_of};

/// Returns the changes that set the class of each row's host, in the order of the rows.
fn class_changes<'a>(alloc: Global, classes: Classes) -> Result<Vec<Change<'a>>, Fault>
    ensures { OkOrWantsMemory result (λ changes. changes.items ≡ map sets_class classes) }
{
    let mut changes = Vec::new(alloc);
    for row in classes.into_vec() {
        let HostClass { host, class } = row;
        changes.push(Change::Class(host, class))?;
    }
    Ok(changes)
}

/// Returns the answer and the changes of a file of these classes, under a name that no file of classes had.
fn new_classes<'a>(alloc: Global, source: &Source<'a>, classes: Classes) -> Result<Plan<'a>, Fault>
    // The class of each row's host is set in order, so a later row wins, and the file is kept. The
    // only fault is `Memory`.
    ensures { OkOrWantsMemory result (IsNewClasses (given_of source.now) classes) }
{
    let verdicts = applied(alloc, classes.len())?;
    let import = kept(alloc, source, 0, verdicts.as_slice())?;
    let mut changes = class_changes(alloc, classes)?;
    changes.push(Change::Keep(import))?;
    Ok(Plan {
        answer: imported(source, 0, verdicts)?,
        changes,
    })
}

/// Returns what a file of classes answers and changes, or the first refusal. In order: the name was used with other
/// content, the file.
pub fn plan_classes<'a, S: Alter>(
    conn: &mut Connection<S>,
    alloc: Global,
    file: &'a RowsFile,
) -> Result<Plan<'a>, Fault>
    // The connection is open afterwards, except after `Memory` and `Broken`.
    // It only reads, and never answers `Ended`.
    // The plan answers the machine's reply and makes the machine's step; or it is the machine's
    // refusal, or a fault of the store.
    // Over a project of the present version, with no limit on steps, no read is refused.
    ensures reads { PlansWorld S.Store conn.old conn.new result
        (PlansNow (AskClasses file.now.name file.now.file)) IsPresentProject }
{
    let source = file_source(ImportKind::Classes, file);
    match import_of(conn, alloc, ImportKind::Classes, &file.name)? {
        Some(earlier) => repeated(alloc, &source, earlier),
        None => new_classes(alloc, &source, read_classes(alloc, file.file.as_slice())?),
    }
}
