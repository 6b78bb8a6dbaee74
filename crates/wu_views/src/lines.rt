//! The values that the lines of the views show, and those of the summary.

ghost use Rattle.std.specs.Prelude.{◌≡◌};
ghost use Rattle.sqlite.specs.Order.{column};
ghost use Rattle.wu_views.specs.Lines.{import_row, IsInputLength, IsOutputLength, IsStoredImportLine};
ghost use Rattle.wu_schema.specs.Restoring.{Restores};
ghost use Rattle.wu_schema.specs.Stored.{number};

use sqlite::Row;
use std::alloc::Global;
use wu_core::{
    Assimilate, Bytes, Deadline, ErrorMask, Fault, FileDelete, ImportKind, Instance, LONGEST_INPUT,
    LONGEST_OUTPUT, Moment, Name, Outcome, Params, ServerState, ValidateState,
};
use wu_schema::number_at;
use wu_schema::rows::{
    bare_instance_at, class_at, instance_number_at, kind_at, name_at, params_from, progress_from,
    verdicts_at,
};

/// Reads the length of an input in a column, at most 4,096 bytes.
fn input_length_at(row: &Row, at: usize) -> Result<u64, Fault>
    // A number up to 4,096 is read as it, or out of memory; any other column is refused.
    ensures { Restores number IsInputLength (column row.now at) result }
{
    let length = number_at(row, at)?;
    if length > LONGEST_INPUT as u64 {
        return Err(Fault::NotAProject);
    }
    Ok(length)
}

/// Reads the length of an output in a column, at most 65,536 bytes.
fn output_length_at(row: &Row, at: usize) -> Result<u64, Fault>
    // A number up to 65,536 is read as it, or out of memory; any other column is refused.
    ensures { Restores number IsOutputLength (column row.now at) result }
{
    let length = number_at(row, at)?;
    if length > LONGEST_OUTPUT as u64 {
        return Err(Fault::NotAProject);
    }
    Ok(length)
}

/// What the view of workunits shows of one.
#[derive(Drop)]
pub struct WorkunitLine {
    pub number: u64,
    pub name: Name,
    /// How many bytes of input are held.
    pub input: u64,
    pub params: Params,
    pub error_mask: ErrorMask,
    /// The number of the canonical instance.
    pub canonical: Option<u32>,
    pub assimilate: Assimilate,
    /// Of the input.
    pub file_delete: FileDelete,
    /// When it was assimilated.
    pub done_at: Option<Moment>,
    pub class: u32,
}

impl WorkunitLine {
    ghost use Rattle.wu_views.specs.Lines.{IsStoredLine, line_row};

    /// Reads the line of a row of sixteen columns: those of the table of workunits, with the length of the input in
    /// place of the input, and the class.
    ///
    /// Returns `NotAProject` if the row is that of no workunit.
    pub(crate) fn read(alloc: Global, row: &Row) -> Result<Self, Fault>
        // The row of a workunit's line with values in their ranges is read as it, or out of memory;
        // any other row is refused.
        ensures { Restores line_row IsStoredLine row.now result }
    {
        if row.column_count() != 16 {
            return Err(Fault::NotAProject);
        }
        let number = number_at(row, 0)?;
        let params = params_from(row)?;
        let input = input_length_at(row, 9)?;
        let progress = progress_from(row)?;
        let class = class_at(row, 15)?;
        let name = name_at(alloc, row, 1)?;
        Ok(WorkunitLine {
            number,
            name,
            input,
            params,
            error_mask: progress.error_mask,
            canonical: progress.canonical,
            assimilate: progress.assimilate,
            file_delete: progress.file_delete,
            done_at: progress.done_at,
            class,
        })
    }
}

/// What the view of results shows of an instance.
#[derive(Drop)]
pub struct ResultLine {
    /// The name of its workunit.
    pub workunit: Name,
    /// Its number among its workunit's instances, from 0.
    pub n: u32,
    pub server_state: ServerState,
    pub outcome: Outcome,
    pub validate_state: ValidateState,
    /// Of the output.
    pub file_delete: FileDelete,
    /// Where it was sent.
    pub host: Option<Name>,
    pub sent_at: Option<Moment>,
    pub deadline: Option<Deadline>,
    /// When its result was reported.
    pub received_at: Option<Moment>,
    /// How many bytes of output are held.
    pub output: u64,
}

impl ResultLine {
    ghost use Rattle.wu_views.specs.Lines.{IsStoredResult, result_line_row};

    /// Reads the line of a row of eleven columns: those of the table of results from the third on without the output,
    /// the instance's number, the name of its workunit, and the length of the output.
    ///
    /// Returns `NotAProject` if the row is that of no instance.
    pub(crate) fn read(alloc: Global, row: &Row) -> Result<Self, Fault>
        // The row of an instance's line with values in their ranges is read as it, or out of
        // memory; any other row is refused.
        ensures { Restores result_line_row IsStoredResult row.now result }
    {
        if row.column_count() != 11 {
            return Err(Fault::NotAProject);
        }
        let n = instance_number_at(row, 8)?;
        let output = output_length_at(row, 10)?;
        let workunit = name_at(alloc, row, 9)?;
        let Instance {
            server_state,
            outcome,
            validate_state,
            file_delete,
            host,
            sent_at,
            deadline,
            received_at,
            output: _,
        } = bare_instance_at(alloc, row, 0)?;
        Ok(ResultLine {
            workunit,
            n,
            server_state,
            outcome,
            validate_state,
            file_delete,
            host,
            sent_at,
            deadline,
            received_at,
            output,
        })
    }
}

/// What the view of imports shows of one.
#[derive(Drop)]
pub struct ImportLine {
    pub kind: ImportKind,
    pub name: Name,
    /// The number of the first workunit of a batch, 0 where it made none.
    pub first_number: u64,
    /// One for each row of the file: 0 where it was applied, else the number of the skip.
    pub verdicts: Bytes,
}

/// Reads the line of the import of a row of its kind, name, first number and verdicts.
pub(crate) fn import_line_from(alloc: Global, row: &Row) -> Result<ImportLine, Fault>
    // A row of a kind, a name, a number and verdicts of the kind is read as that import's line, or
    // out of memory; any other row is refused.
    ensures { Restores import_row IsStoredImportLine row.now result }
{
    if row.column_count() != 4 {
        return Err(Fault::NotAProject);
    }
    let kind = kind_at(row, 0)?;
    let first_number = number_at(row, 2)?;
    let name = name_at(alloc, row, 1)?;
    let verdicts = verdicts_at(alloc, kind, row, 3)?;
    Ok(ImportLine {
        kind,
        name,
        first_number,
        verdicts,
    })
}

/// How much a project holds.
#[derive(Clone, Copy)]
pub struct Summary {
    /// Of the schema.
    pub version: u64,
    /// The number that the next workunit gets.
    pub next_number: u64,
    /// How many workunits are present.
    pub workunits: u64,
    /// How many instances they have.
    pub results: u64,
    /// How many of these are not sent.
    pub unsent: u64,
    /// How many are sent, and not over.
    pub in_progress: u64,
    pub over: u64,
    /// How many workunits were archived.
    pub archived: u64,
    /// How many grants of credit were made.
    pub grants: u64,
    /// The credit of all grants.
    pub credit: u64,
    /// How many files were imported, each once.
    pub imports: u64,
    /// How many hosts have a class.
    pub classes: u64,
}
