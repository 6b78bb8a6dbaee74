//! A file as it is imported: what is kept of it, and what it answers, now or when it is imported again.

ghost use Rattle.std.specs.Prelude.{◌≡◌, ◌≤◌, All, Err, Ok, IfOk, IfErr, false, replicate};
ghost use Rattle.wu_core.specs.declared.fault.Fault.TheVariants.{NameUsed};
ghost use Rattle.wu_core.specs.Reads.{IsOrWantsMemory, OkOrWantsMemory};
ghost use Rattle.wu_plans.specs.Planning.{given_of, has_same_content, IsRepeated, KeepsImport, RefusesRepeat};
ghost use Rattle.wu_machine.specs.Commands.{batch_of, file_of};

use crate::plan::Plan;
use std::alloc::Global;
use wu_core::{Bytes, Fault, ImportKind, Name};
use wu_machine::{Answer, Batch, RowsFile};
use wu_schema::rows::StoredImport;
use wu_store::{Import, Verdicts};

/// What is imported: its name and its bytes, which the command lends.
#[derive(Clone, Copy)]
pub struct Source<'a> {
    pub kind: ImportKind,
    pub name: &'a Name,
    pub template: &'a [u8],
    pub content: &'a [u8],
}

/// Returns a batch, as it is imported.
pub fn batch_source<'a>(batch: &'a Batch) -> Source<'a>
    // It has the name, the template and the content of the batch.
    ensures { given_of result ≡ batch_of batch.now }
{
    Source {
        kind: ImportKind::Batch,
        name: &batch.name,
        template: batch.template.as_slice(),
        content: batch.file.as_slice(),
    }
}

/// Returns a file of rows of this kind, as it is imported.
pub fn file_source<'a>(kind: ImportKind, file: &'a RowsFile) -> Source<'a>
    // It has the kind, and the name and the content of the file, with no template.
    ensures { given_of result ≡ file_of kind file.now }
{
    Source {
        kind,
        name: &file.name,
        template: &[],
        content: file.file.as_slice(),
    }
}

/// Returns the answer of an import: its first number, and the verdicts of its rows.
pub fn imported(source: &Source<'_>, first: u64, verdicts: Bytes) -> Result<Answer, Fault>
    // The answer has the kind, the name, the first number and the verdicts; or it is out of memory.
    ensures { IsOrWantsMemory result
        (Ok (Answer.Imported source.now.kind source.now.name.now first verdicts)) }
{
    Ok(Answer::Imported {
        kind: source.kind,
        name: source.name.copy()?,
        first,
        verdicts,
    })
}

/// Returns the answer of an earlier import of this kind and name, if it had the same content.
pub fn repeated<'a>(
    alloc: Global,
    source: &Source<'_>,
    earlier: StoredImport,
) -> Result<Plan<'a>, Fault>
    // The plan answers the first answer, and changes nothing.
    ensures plan { IfOk result (IsRepeated (given_of source.now) earlier) }
    // The only faults are `Memory`, and `NameUsed` for other content.
    ensures fault { IfErr result (RefusesRepeat (given_of source.now) earlier) }
    // Content other than the earlier is `NameUsed`, never out of memory.
    ensures used { has_same_content (given_of source.now) earlier ≡ false
        → result ≡ Err NameUsed }
{
    let is_same = earlier.template.as_slice() == source.template
        && earlier.content.as_slice() == source.content;
    if !is_same {
        return Err(Fault::NameUsed);
    }
    Ok(Plan {
        answer: imported(source, earlier.first_number, earlier.verdicts)?,
        changes: Vec::new(alloc),
    })
}

/// Returns the verdicts of so many rows, each applied.
pub fn applied(alloc: Global, count: usize) -> Result<Bytes, Fault>
    // There is a verdict 0 for each row; or it is out of memory.
    ensures { IsOrWantsMemory result (Ok (replicate count 0)) }
{
    let mut verdicts = Vec::new(alloc);
    for _ in 0..count {
        verdicts.push(0)?;
    }
    Ok(Bytes::from_vec(verdicts))
}

/// Returns what is kept of an import with these verdicts. Its content is lent.
pub fn kept<'a>(
    alloc: Global,
    source: &Source<'a>,
    first_number: u64,
    verdicts: &[u8],
) -> Result<Import<'a>, Fault>
    // Each verdict is one digit.
    requires { All (λ verdict. verdict ≤ 9) verdicts.now }
    // It has the kind, the name, the content, the first number and the verdicts. The only fault is
    // `Memory`.
    ensures { OkOrWantsMemory result (KeepsImport (given_of source.now) first_number verdicts.now) }
{
    Ok(Import {
        kind: source.kind,
        name: source.name,
        template: source.template,
        content: source.content,
        first_number,
        verdicts: Verdicts::from_slice(alloc, verdicts)?,
    })
}
