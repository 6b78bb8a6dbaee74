//! Readers of stored rows. A row that is no value of its type is refused as `NotAProject`.

ghost use Rattle.std.specs.Prelude.{◌≡◌, ◌⊎◌, ◌<◌, ◌≤◌, ◌+◌, ◌^◌, ℕ, ⊤, [], ◌∷◌, ◌-◌, length, SomeIff};
ghost use Rattle.std.specs.Bool.{Decides};
ghost use Rattle.sqlite.specs.Order.{column};
ghost use Rattle.sqlite.specs.declared.types.Value.TheVariants.{Int, Text, Blob};
ghost use Rattle.wu_core.specs.declared.fault.Fault.TheVariants.{Memory, NotAProject};
ghost use Rattle.wu_core.specs.Formed.{IsInstance};
ghost use Rattle.wu_core.specs.Limits.{last_moment};
ghost use Rattle.wu_core.specs.Parameters.{IsParameters};
ghost use Rattle.wu_core.specs.World.{last_skip};
ghost use Rattle.wu_schema.specs.Stored.{archived_cells, class_cells, instance_row, number, number_or_null, text_or_null, parameter_cells, verdict_digits, workunit_row};
ghost use Rattle.wu_schema.specs.Restoring.{Restores};
ghost use Rattle.wu_schema.specs.Reading.{assimilate_cell, kind_cell, bare_instance_row, IsBareInstance, file_delete_cell, mask_cell, outcome_cell, server_state_cell, validate_state_cell, verdicts_cell, columns, progress_cells, IsProgress, HasStoredVerdicts, stored_import_row, moment_cells, state_cells, HasMoments, host_row, IsStoredHost, IsStoredHostClass};
ghost use Rattle.wu_core.specs.Storable.{IsOutput, IsInput, IsMoment, IsName, IsPlace, IsStoredWorkunit, AreVerdicts, IsNextNumber, IsClass, IsDeadline, IsHost, IsStoredArchived, IsStoredInstance};

use crate::columns::{number_at, read_column};
use sqlite::Row;
use sqlite::types::ValueRef;
use std::alloc::Global;
use wu_core::{
    Archived, Assimilate, Bytes, Deadline, ErrorMask, Fault, FileDelete, HIGHEST_CLASS, HostClass,
    ImportKind, Instance, Instances, LONGEST_INPUT, LONGEST_OUTPUT, MOST_WORKUNITS, Moment, Name,
    Outcome, Params, ServerState, ValidateState, Workunit,
};

/// Reads a name in a column.
pub fn name_at(alloc: Global, row: &Row, at: usize) -> Result<Name, Fault>
    // A text that is a name is read as that name, or out of memory; any other column is refused.
    ensures { Restores Text IsName (column row.now at) result }
{
    let Ok(ValueRef::Text(text)) = row.get_ref(at) else {
        return Err(Fault::NotAProject);
    };
    match Name::read(alloc, text) {
        Ok(name) => Ok(name),
        Err(Fault::Memory) => Err(Fault::Memory),
        Err(_) => Err(Fault::NotAProject),
    }
}

/// Reads an input in a column, at most 4,096 bytes.
fn input_at(row: &Row, at: usize) -> Result<Bytes, Fault>
    ensures { Restores Blob IsInput (column row.now at) result }
{
    let input: Vec<u8> = read_column(row, at)?;
    if input.len() > LONGEST_INPUT {
        return Err(Fault::NotAProject);
    }
    Ok(Bytes::from_vec(input))
}

/// Reads an error mask in a column.
pub fn mask_at(row: &Row, at: usize) -> Result<ErrorMask, Fault>
    // The number of an error mask is read as that mask, or out of memory; any other column is
    // refused.
    ensures { Restores mask_cell (λ _. ⊤) (column row.now at) result }
{
    let code: u32 = read_column(row, at)?;
    ErrorMask::from_code(code).ok_or(Fault::NotAProject)
}

/// Reads in a column whether a workunit waits for the assimilator.
fn assimilate_at(row: &Row, at: usize) -> Result<Assimilate, Fault>
    ensures { Restores assimilate_cell (λ _. ⊤) (column row.now at) result }
{
    let code: u32 = read_column(row, at)?;
    Assimilate::from_code(code).ok_or(Fault::NotAProject)
}

/// Reads in a column whether a file waits to be deleted.
pub fn file_delete_at(row: &Row, at: usize) -> Result<FileDelete, Fault>
    // The number of a state of deletion is read as that state, or out of memory; any other column
    // is refused.
    ensures { Restores file_delete_cell (λ _. ⊤) (column row.now at) result }
{
    let code: u32 = read_column(row, at)?;
    FileDelete::from_code(code).ok_or(Fault::NotAProject)
}

/// Reads the number of an instance in a column, or `None` if it is empty.
pub fn place_at(row: &Row, at: usize) -> Result<Option<u32>, Fault>
    // The row has this column.
    requires { at < length row.now }
    // A number below 2^32 is read as it, and an empty column as `None`, or out of memory; any other
    // is refused.
    ensures { Restores number_or_null IsPlace (column row.now at) result }
{
    read_column(row, at)
}

/// Reads a moment in a column, or `None` if it is empty.
pub fn moment_at(row: &Row, at: usize) -> Result<Option<Moment>, Fault>
    // The row has this column.
    requires { at < length row.now }
    // A moment is read as it, and an empty column as `None`, or out of memory; any other column is
    // refused.
    ensures { Restores number_or_null IsMoment (column row.now at) result }
{
    let seconds: Result<Option<u64>, Fault> = read_column(row, at);
    match seconds? {
        Some(seconds) => match Moment::new(seconds) {
            Some(moment) => Ok(Some(moment)),
            None => Err(Fault::NotAProject),
        },
        None => Ok(None),
    }
}

/// How far a workunit is, without its instances.
#[derive(Clone, Copy)]
pub struct Progress {
    pub error_mask: ErrorMask,
    pub canonical: Option<u32>,
    pub assimilate: Assimilate,
    pub file_delete: FileDelete,
    pub done_at: Option<Moment>,
}

/// Reads the progress in the five columns from the eleventh on. A workunit has its moment exactly if it is assimilated.
pub fn progress_from(row: &Row) -> Result<Progress, Fault>
    // The row has at least 15 columns.
    requires { 15 ≤ length row.now }
    // Columns of a progress with a moment exactly if it is assimilated are read as it, or out of
    // memory; any others are refused.
    ensures { Restores progress_cells IsProgress (columns row.now 10 5) result }
{
    let progress = Progress {
        error_mask: mask_at(row, 10)?,
        canonical: place_at(row, 11)?,
        assimilate: assimilate_at(row, 12)?,
        file_delete: file_delete_at(row, 13)?,
        done_at: moment_at(row, 14)?,
    };
    let is_done = progress.assimilate == Assimilate::Done;
    if is_done != progress.done_at.is_some() {
        return Err(Fault::NotAProject);
    }
    Ok(progress)
}

/// Reads a whole number in a column.
pub fn value_at(row: &Row, at: usize) -> Result<i64, Fault>
    // A whole number is read as it, or out of memory; any other column is refused.
    ensures { Restores Int (λ _. ⊤) (column row.now at) result }
{
    read_column(row, at)
}

/// Reads the parameters in the seven columns from the third on.
pub fn params_from(row: &Row) -> Result<Params, Fault>
    // Seven numbers that are parameters in their ranges are read as these, or out of memory; any
    // others are refused.
    ensures { Restores parameter_cells IsParameters (columns row.now 2 7) result }
{
    Params::from_values([
        value_at(row, 2)?,
        value_at(row, 3)?,
        value_at(row, 4)?,
        value_at(row, 5)?,
        value_at(row, 6)?,
        value_at(row, 7)?,
        value_at(row, 8)?,
    ])
    .ok_or(Fault::NotAProject)
}

/// Reads the workunit of a row of the table `workunit` with its columns in their order. It gets class 0 and no
/// instances.
pub fn workunit_from(alloc: Global, row: &Row) -> Result<Workunit, Fault>
    // The row of a workunit with values in their ranges is read as it, or out of memory; any other
    // row is refused.
    ensures { Restores workunit_row IsStoredWorkunit row.now result }
{
    if row.column_count() != 15 {
        return Err(Fault::NotAProject);
    }
    let number = number_at(row, 0)?;
    let params = params_from(row)?;
    let progress = progress_from(row)?;
    let input = input_at(row, 9)?;
    let name = name_at(alloc, row, 1)?;
    Ok(Workunit {
        number,
        name,
        params,
        input,
        error_mask: progress.error_mask,
        canonical: progress.canonical,
        assimilate: progress.assimilate,
        file_delete: progress.file_delete,
        done_at: progress.done_at,
        class: 0,
        instances: Instances::new(alloc),
    })
}

/// The states of an instance.
#[derive(Clone, Copy)]
struct States {
    server_state: ServerState,
    outcome: Outcome,
    validate_state: ValidateState,
    file_delete: FileDelete,
}

/// When an instance was sent, is due and was reported.
#[derive(Clone, Copy)]
struct Moments {
    sent_at: Option<Moment>,
    deadline: Option<Deadline>,
    received_at: Option<Moment>,
}

/// Reads the state of an instance in a column: unsent, in progress or over.
pub fn server_state_at(row: &Row, at: usize) -> Result<ServerState, Fault>
    // The number of a server state is read as that state, or out of memory; any other column is
    // refused.
    ensures { Restores server_state_cell (λ _. ⊤) (column row.now at) result }
{
    let code: u32 = read_column(row, at)?;
    ServerState::from_code(code).ok_or(Fault::NotAProject)
}

/// Reads the outcome of an instance in a column.
pub fn outcome_at(row: &Row, at: usize) -> Result<Outcome, Fault>
    // The number of an outcome is read as that outcome, or out of memory; any other column is
    // refused.
    ensures { Restores outcome_cell (λ _. ⊤) (column row.now at) result }
{
    let code: u32 = read_column(row, at)?;
    Outcome::from_code(code).ok_or(Fault::NotAProject)
}

/// Reads the validator's verdict on an instance in a column.
pub fn validate_state_at(row: &Row, at: usize) -> Result<ValidateState, Fault>
    // The number of a verdict of the validator is read as that verdict, or out of memory; any other
    // column is refused.
    ensures { Restores validate_state_cell (λ _. ⊤) (column row.now at) result }
{
    let code: u32 = read_column(row, at)?;
    ValidateState::from_code(code).ok_or(Fault::NotAProject)
}

/// Reads the states in the four columns from this one on.
fn states_at(row: &Row, at: usize) -> Result<States, Fault>
    requires { at + 4 < 2 ^ 64 }
    ensures { Restores state_cells (λ _. ⊤) (columns row.now at 4) result }
{
    Ok(States {
        server_state: server_state_at(row, at)?,
        outcome: outcome_at(row, at + 1)?,
        validate_state: validate_state_at(row, at + 2)?,
        file_delete: file_delete_at(row, at + 3)?,
    })
}

/// Reads a deadline in a column, or `None` if it is empty.
pub fn deadline_at(row: &Row, at: usize) -> Result<Option<Deadline>, Fault>
    // The row has this column.
    requires { at < length row.now }
    // A deadline is read as it, and an empty column as `None`, or out of memory; any other column
    // is refused.
    ensures { Restores number_or_null IsDeadline (column row.now at) result }
{
    let seconds: Result<Option<u64>, Fault> = read_column(row, at);
    match seconds? {
        Some(seconds) => match Deadline::new(seconds) {
            Some(deadline) => Ok(Some(deadline)),
            None => Err(Fault::NotAProject),
        },
        None => Ok(None),
    }
}

/// Reads the moments in the three columns from this one on.
fn moments_at(row: &Row, at: usize) -> Result<Moments, Fault>
    requires there { at + 3 ≤ length row.now }
    requires fits { at + 3 < 2 ^ 64 }
    ensures { Restores moment_cells HasMoments (columns row.now at 3) result }
{
    Ok(Moments {
        sent_at: moment_at(row, at)?,
        deadline: deadline_at(row, at + 1)?,
        received_at: moment_at(row, at + 2)?,
    })
}

/// Reads the name of a host in a column, or `None` if it is empty.
pub fn host_at(alloc: Global, row: &Row, at: usize) -> Result<Option<Name>, Fault>
    // The row has this column.
    requires { at < length row.now }
    // A name is read as it, and an empty column as `None`, or out of memory; any other column is
    // refused.
    ensures { Restores text_or_null IsHost (column row.now at) result }
{
    match row.get_ref(at) {
        Ok(ValueRef::Null) => Ok(None),
        _ => Ok(Some(name_at(alloc, row, at)?)),
    }
}

/// Reads an output in a column, at most 65,536 bytes.
pub fn output_at(row: &Row, at: usize) -> Result<Bytes, Fault>
    // At most 65,536 bytes are read as they are, or out of memory; any other column is refused.
    ensures { Restores Blob IsOutput (column row.now at) result }
{
    let output: Vec<u8> = read_column(row, at)?;
    if output.len() > LONGEST_OUTPUT {
        return Err(Fault::NotAProject);
    }
    Ok(Bytes::from_vec(output))
}

/// Returns whether host, time of sending and deadline are there together, and as the states require.
fn is_formed(instance: &Instance) -> bool
    // It is true exactly where host, sending time and deadline are all there or none: none while
    // unsent, all in progress and after success.
    ensures { Decides result (IsInstance instance.now) }
{
    let has_host = instance.host.is_some();
    let is_unsent = instance.server_state == ServerState::Unsent;
    let is_in_progress = instance.server_state == ServerState::InProgress;
    let is_success = instance.server_state == ServerState::Over
        && instance.outcome == Outcome::Success;
    instance.sent_at.is_some() == has_host
        && instance.deadline.is_some() == has_host
        && !(is_unsent && has_host)
        && !(is_in_progress && !has_host)
        && !(is_success && !has_host)
}

/// Reads the instance in the eight columns from this one on: those of the table `result` from the third on, without its
/// output.
pub fn bare_instance_at(alloc: Global, row: &Row, at: usize) -> Result<Instance, Fault>
    // The row has these columns.
    requires there { at + 8 ≤ length row.now }
    // Their places are numbers of 64 bits.
    requires fits { at + 8 < 2 ^ 64 }
    // Columns of a well-formed instance with values in their ranges are read as it, without output,
    // or out of memory; any others are refused.
    ensures { Restores bare_instance_row IsBareInstance (columns row.now at 8) result }
{
    let states = states_at(row, at)?;
    let moments = moments_at(row, at + 5)?;
    let host = host_at(alloc, row, at + 4)?;
    let instance = Instance {
        server_state: states.server_state,
        outcome: states.outcome,
        validate_state: states.validate_state,
        file_delete: states.file_delete,
        host,
        sent_at: moments.sent_at,
        deadline: moments.deadline,
        received_at: moments.received_at,
        output: Bytes::new(alloc),
    };
    if is_formed(&instance) {
        Ok(instance)
    } else {
        Err(Fault::NotAProject)
    }
}

/// Reads the instance in the nine columns from this one on: those of the table `result` from the third on.
pub fn instance_at(alloc: Global, row: &Row, at: usize) -> Result<Instance, Fault>
    // The row has these columns.
    requires there { at + 9 ≤ length row.now }
    // Their places are numbers of 64 bits.
    requires fits { at + 9 < 2 ^ 64 }
    // Columns of a well-formed instance with values in their ranges are read as it, or out of
    // memory; any others are refused.
    ensures { Restores instance_row IsStoredInstance (columns row.now at 9) result }
{
    let output = output_at(row, at + 8)?;
    let mut instance = bare_instance_at(alloc, row, at)?;
    instance.output = output;
    Ok(instance)
}

/// Reads the instance of a row of the table `result` with its columns from the third on, in their order.
pub fn instance_from(alloc: Global, row: &Row) -> Result<Instance, Fault>
    // The row of a well-formed instance with values in their ranges is read as it, or out of
    // memory; any other row is refused.
    ensures { Restores instance_row IsStoredInstance row.now result }
{
    if row.column_count() != 9 {
        return Err(Fault::NotAProject);
    }
    instance_at(alloc, row, 0)
}

/// The sum of some grants to one host.
#[derive(Drop)]
pub struct HostSum {
    pub name: Name,
    /// Their credit.
    pub total: u64,
    /// How many they are.
    pub grants: u64,
}

/// Reads the sum of all grants to a host of a row of the table `host` with its columns in their order.
pub fn host_from(alloc: Global, row: &Row) -> Result<HostSum, Fault>
    // A row of a name and two numbers is read as that host's sum, or out of memory; any other row
    // is refused.
    ensures { Restores host_row IsStoredHost row.now result }
{
    if row.column_count() != 3 {
        return Err(Fault::NotAProject);
    }
    let total = number_at(row, 1)?;
    let grants = number_at(row, 2)?;
    let name = name_at(alloc, row, 0)?;
    Ok(HostSum {
        name,
        total,
        grants,
    })
}

/// Reads the number of an instance in a column.
pub fn instance_number_at(row: &Row, at: usize) -> Result<u32, Fault>
    // A number below 2^32 is read as it, or out of memory; any other column is refused.
    ensures { Restores number (λ n. n < 2 ^ 32) (column row.now at) result }
{
    read_column(row, at)
}

/// Reads a moment in a column, which may not be empty.
pub fn stamp_at(row: &Row, at: usize) -> Result<Moment, Fault>
    // A moment is read as it, or out of memory; any other column is refused.
    ensures { Restores number (λ seconds. seconds ≤ last_moment) (column row.now at) result }
{
    let seconds = number_at(row, at)?;
    Moment::new(seconds).ok_or(Fault::NotAProject)
}

/// Reads the archived workunit in the six columns from the second on, after its place.
pub fn placed_archived_from(alloc: Global, row: &Row) -> Result<Archived, Fault>
    // The row has 7 columns.
    requires { length row.now ≡ 7 }
    // Columns of an archived workunit with values in their ranges are read as it, or out of memory;
    // any others are refused.
    ensures { Restores archived_cells IsStoredArchived (columns row.now 1 6) result }
{
    let number = number_at(row, 1)?;
    let error_mask = mask_at(row, 3)?;
    let canonical = place_at(row, 4)?;
    let done_at = stamp_at(row, 6)?;
    let output = output_at(row, 5)?;
    let name = name_at(alloc, row, 2)?;
    Ok(Archived {
        number,
        name,
        error_mask,
        canonical,
        output,
        done_at,
    })
}

/// Reads a class in a column, at most 65,535.
pub fn class_at(row: &Row, at: usize) -> Result<u32, Fault>
    // A number up to the highest class is read as it, or out of memory; any other column is
    // refused.
    ensures { Restores number IsClass (column row.now at) result }
{
    let class: u32 = read_column(row, at)?;
    if class > HIGHEST_CLASS {
        return Err(Fault::NotAProject);
    }
    Ok(class)
}

/// Reads the host of a row of the table `host_class` with its columns in their order, and its class.
pub fn host_class_from(alloc: Global, row: &Row) -> Result<HostClass, Fault>
    // A row of a name and a class is read as that host and class, or out of memory; any other row
    // is refused.
    ensures { Restores class_cells IsStoredHostClass row.now result }
{
    if row.column_count() != 2 {
        return Err(Fault::NotAProject);
    }
    let class = class_at(row, 1)?;
    let host = name_at(alloc, row, 0)?;
    Ok(HostClass { host, class })
}

/// Reads the bytes in a column.
pub fn bytes_at(row: &Row, at: usize) -> Result<Bytes, Fault>
    // Bytes are read as they are, or out of memory; any other column is refused.
    ensures { Restores Blob (λ _. ⊤) (column row.now at) result }
{
    let bytes: Vec<u8> = read_column(row, at)?;
    Ok(Bytes::from_vec(bytes))
}

/// Reads the kind of an import in a column.
pub fn kind_at(row: &Row, at: usize) -> Result<ImportKind, Fault>
    // The number of a kind of import is read as that kind, or out of memory; any other column is
    // refused.
    ensures { Restores kind_cell (λ _. ⊤) (column row.now at) result }
{
    let code: u32 = read_column(row, at)?;
    ImportKind::from_code(code).ok_or(Fault::NotAProject)
}

/// Returns the verdict of a digit, or `None` if an import of this kind may not have it.
fn verdict_of(kind: ImportKind, digit: u8) -> Option<u8>
    ensures { SomeIff result ((48 ≤ digit) × (digit - 48 ≤ last_skip kind)) (digit - 48) }
{
    match digit.checked_sub(b'0') {
        Some(verdict) if verdict <= kind.last_skip() => Some(verdict),
        _ => None,
    }
}

/// Reads the verdicts of a text with one digit for each row.
fn verdicts_from(alloc: Global, kind: ImportKind, digits: &[u8]) -> Result<Bytes, Fault>
    ensures { Restores verdict_digits (AreVerdicts kind) digits.now result }
{
    let mut verdicts = Vec::new(alloc);
    for digit in digits {
        let Some(verdict) = verdict_of(kind, *digit) else {
            return Err(Fault::NotAProject);
        };
        verdicts.push(verdict)?;
    }
    Ok(Bytes::from_vec(verdicts))
}

/// Reads the verdicts of an import's rows in a column, each one that an import of this kind may have.
pub fn verdicts_at(alloc: Global, kind: ImportKind, row: &Row, at: usize) -> Result<Bytes, Fault>
    // A text of digits that are verdicts of this kind of import is read as these, or out of memory;
    // any other column is refused.
    ensures { Restores verdicts_cell (AreVerdicts kind) (column row.now at) result }
{
    let Ok(ValueRef::Text(digits)) = row.get_ref(at) else {
        return Err(Fault::NotAProject);
    };
    verdicts_from(alloc, kind, digits)
}

/// What is kept of an import: its content, and its first answer.
#[derive(Drop)]
pub struct StoredImport {
    pub template: Bytes,
    pub content: Bytes,
    /// The first number of a batch, 0 where it made no workunit.
    pub first_number: u64,
    /// One for each row: 0 where it was applied, else the number of the skip.
    pub verdicts: Bytes,
}

/// Reads the import of a row with its template, content, first number and verdicts.
pub fn import_from(alloc: Global, kind: ImportKind, row: &Row) -> Result<StoredImport, Fault>
    // A row of template, content, first number and valid digits is read as that import, or out of
    // memory; any other row is refused.
    ensures { Restores stored_import_row (HasStoredVerdicts kind) row.now result }
{
    if row.column_count() != 4 {
        return Err(Fault::NotAProject);
    }
    let first_number = number_at(row, 2)?;
    let template = bytes_at(row, 0)?;
    let content = bytes_at(row, 1)?;
    let verdicts = verdicts_at(alloc, kind, row, 3)?;
    Ok(StoredImport {
        template,
        content,
        first_number,
        verdicts,
    })
}

/// Reads the next number in a row of that column. It is at least 1 and at most one more than there may be workunits
/// ever.
pub fn next_number_from(row: &Row) -> Result<u64, Fault>
    // A row of one number from 1 to 1,000,000,001 is read as it, or out of memory; any other row is
    // refused.
    ensures reads { Restores (λ next. number next ∷ []) IsNextNumber row.now result }
{
    if row.column_count() != 1 {
        return Err(Fault::NotAProject);
    }
    let next = number_at(row, 0)?;
    if 1 <= next && next <= MOST_WORKUNITS + 1 {
        Ok(next)
    } else {
        Err(Fault::NotAProject)
    }
}
