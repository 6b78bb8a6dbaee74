//! The statements that change a project, and the queries of the passes, each text in one function.

ghost use Rattle.std.specs.Prelude.{◌≡◌, ◌<◌, ◌≤◌, ◌^◌, ⊤, [], ◌∷◌, None, Some, pos, option_map, IfOk, IfErr, OnOk};
ghost use Rattle.sqlite.specs.Values.{bound};
ghost use Rattle.wu_store.specs.Changing.{import_of_change};
ghost use Rattle.wu_store.specs.Classes.{ChangesClasses, SetsVersion};
ghost use Rattle.wu_store.specs.Changes.{with_placed, without_instances, without_workunit, with_next, AddsArchived, AddsImport, AddsInstance, Credits, PutsGrants, WasFree};
ghost use Rattle.wu_core.specs.declared.fault.Fault.TheVariants.{NotAProject};
ghost use Rattle.wu_schema.specs.Asking.{FailsAll, Queries};
ghost use Rattle.wu_schema.specs.Calls.{StatementFrame, Does, RunsText};
ghost use Rattle.wu_schema.specs.Made.{archived_table, import_table, project_table, result_table, workunit_table};
ghost use Rattle.wu_schema.specs.Others.{SparesWith, tables_of_workunits};
ghost use Rattle.wu_schema.specs.Queue.{queue_table};
ghost use Rattle.wu_schema.specs.Stored.{instance_cells, marks_cells, number, workunit_row};
ghost use Rattle.wu_store.specs.Reads.{FindsAt, ReadsWorld};
ghost use Rattle.wu_store.specs.Queues.{ChangesQueue, first_marked, is_marked, KeepsQueue, KeepsWorld, marked_text, with_marks, without_marks, AnswersQueueIf};
ghost use Rattle.wu_store.specs.Answers.{has_name, ShowsLast, was_archived};
ghost use Rattle.wu_store.specs.Writes.{ChangesWorld, Writes};

use crate::changes::Import;
use crate::classes::insert_class;
use crate::texts::{
    DELETE_WORKUNIT, INSERT_ARCHIVED, INSERT_GRANT, INSERT_IMPORT, INSERT_MARKS, INSERT_RESULT,
    INSERT_WORKUNIT, SELECT_ARCHIVED, SELECT_NUMBER, SELECT_TO_ASSIMILATE, SELECT_TO_DELETE,
    SELECT_TO_PURGE, SELECT_TO_VALIDATE, SELECT_TO_WAKE, UPDATE_NEXT_NUMBER, UPDATE_VERSION,
    UPSERT_HOST,
};
use sqlite::types::ValueRef;
use sqlite::{Alter, Connection, Error, Row, Transaction, params};
use wu_core::{Archived, Deadline, Fault, Grant, Instance, Marks, Moment, Name, Workunit};
use wu_rules::Pass;
use wu_schema::rows::HostSum;
use wu_schema::{execute, query};

/// Returns a number of the schema as a signed 64-bit number. A number from 2^63 on is an error; the schema has none.
pub fn signed(number: u64) -> Result<i64, Error>
    // The result is the same number.
    ensures value { IfOk result (λ n. n ≡ pos number) }
    // `Ok` means that the number is below 2^63.
    ensures within { IfOk result (λ _. number < 2 ^ 63) }
    // An error means that the number is 2^63 or more.
    ensures beyond { IfErr result (λ _. 2 ^ 63 ≤ number) }
{
    i64::try_from(number).map_err(|_| Error::IntegralValueOutOfRange(0))
}

/// Returns a number as a key of the schema. Returns `NotAProject` from 2^63 on, as no row has such a key.
pub fn key_of(number: u64) -> Result<i64, Fault>
    // The result is the same number.
    ensures value { IfOk result (λ n. n ≡ pos number) }
    // `Ok` means that the number is below 2^63.
    ensures within { IfOk result (λ _. number < 2 ^ 63) }
    // A fault means that the number is 2^63 or more.
    ensures beyond { IfErr result (λ _. 2 ^ 63 ≤ number) }
    // A fault is `NotAProject`.
    ensures refused { IfErr result (λ fault. fault ≡ NotAProject) }
{
    i64::try_from(number).map_err(|_| Fault::NotAProject)
}

/// Returns the seconds of a moment.
fn seconds(moment: Moment) -> i64
    ensures value { result ≡ pos moment }
    ensures within { moment < 2 ^ 63 }
{
    moment.seconds() as i64
}

/// Returns the seconds of a moment, or `None` if there is none.
fn seconds_of(moment: Option<Moment>) -> Option<i64>
    ensures { result ≡ option_map pos moment }
{
    match moment {
        Some(moment) => Some(seconds(moment)),
        None => None,
    }
}

/// Returns the seconds of a deadline, or `None` if there is none.
fn deadline_of(deadline: Option<Deadline>) -> Option<i64>
    ensures { result ≡ option_map pos deadline }
{
    match deadline {
        Some(deadline) => Some(deadline.seconds() as i64),
        None => None,
    }
}

/// Returns a number of the schema as a signed 64-bit number, or `None` if there is none.
fn signed_of(number: Option<u64>) -> Result<Option<i64>, Error>
    ensures { IfOk result (λ n. n ≡ option_map pos number) }
{
    match number {
        Some(number) => Ok(Some(signed(number)?)),
        None => Ok(None),
    }
}

/// Returns the text of a host's name, or `None` if there is none.
fn host_of(host: &Option<Name>) -> Option<&str>
    ensures { option_map (λ text. text.now) result ≡ host.now }
{
    match host {
        Some(host) => Some(host.as_str()),
        None => None,
    }
}

/// Returns the last row of the answer to a query, or `None` if it has no row.
pub fn ask_row<S: Alter>(
    conn: &mut Connection<S>,
    sql: &str,
    params: &[ValueRef<'_>],
) -> Result<Option<Row>, Fault>
    // A SELECT begins no transaction and commits nothing. Except after `Memory` and `Broken` all is as
    // before, and the connection is open; `Broken` means a failed disk or a closed connection. After
    // `Ok` it is the last row of the store's answer to the query, or `None` if there is no row. A
    // fault is `Memory`, `Broken` or `NotAProject`, that of an error with which the store refuses the
    // query.
    ensures { Queries S.Store conn.old conn.new result sql.now (bound params.now) ShowsLast
        FailsAll }
{
    let mut rows = query(conn, sql, params)?;
    Ok(rows.pop())
}

/// Returns whether a workunit of this name is present.
pub fn has_workunit<S: Alter>(conn: &mut Connection<S>, name: &Name) -> Result<bool, Fault>
    // The connection is open afterwards, except after `Memory` and `Broken`.
    // It only reads, and a fault is `Memory`, `Broken` or `NotAProject`.
    // `true` means that each represented world has a workunit of this name, and `false` that none
    // has.
    // Over a represented world, with no limit on steps, `NotAProject` is not returned.
    ensures reads { ReadsWorld S.Store conn.old conn.new result (FindsAt (has_name name.now))
        (λ _. ⊤) }
{
    let rows = query(conn, SELECT_NUMBER, params![name.as_str()])?;
    Ok(!rows.is_empty())
}

/// Returns whether a workunit of this name was archived.
pub fn has_archived<S: Alter>(conn: &mut Connection<S>, name: &Name) -> Result<bool, Fault>
    // The connection is open afterwards, except after `Memory` and `Broken`.
    // It only reads, and a fault is `Memory`, `Broken` or `NotAProject`.
    // `true` means that each represented world has an archived workunit of this name, and `false`
    // that none has.
    // Over a represented world, with no limit on steps, `NotAProject` is not returned.
    ensures reads { ReadsWorld S.Store conn.old conn.new result (FindsAt (was_archived name.now))
        (λ _. ⊤) }
{
    let rows = query(conn, SELECT_ARCHIVED, params![name.as_str()])?;
    Ok(!rows.is_empty())
}

/// Returns the query for the numbers of the workunits that a pass selects in the queue: those whose mark is set or has
/// come, in order, up to a limit.
fn marked_text(pass: Pass) -> &'static str
    ensures { result.now ≡ marked_text pass }
{
    match pass {
        Pass::Transition => { SELECT_TO_WAKE }
        Pass::Validate => { SELECT_TO_VALIDATE }
        Pass::Assimilate => { SELECT_TO_ASSIMILATE }
        Pass::Delete => SELECT_TO_DELETE,
        Pass::Purge => { SELECT_TO_PURGE }
    }
}

/// Returns the rows of the numbers of the first workunits in the queue whose mark for a pass is set, or has come by a
/// moment. They are in order, up to the limit. Returns `NotAProject` if the limit is not below 2^63.
pub fn marked_rows<S: Alter>(
    conn: &mut Connection<S>,
    pass: Pass,
    by: Moment,
    limit: u64,
) -> Result<Vec<Row>, Fault>
    // For a limit below 2^63 the connection is open afterwards, except after `Memory` and `Broken`.
    // It only reads, and a fault is `Memory`, `Broken` or `NotAProject`.
    // These are the numbers of the queue's first workunits whose mark is set, or has come by the
    // moment, in order, up to the limit.
    // Over a queue, with no limit on steps and a limit below 2^63, `NotAProject` is not returned.
    ensures { AnswersQueueIf S.Store conn.old conn.new result (limit < 2 ^ 63)
        (first_marked limit (is_marked pass by)) }
{
    let limit = key_of(limit)?;
    let text = marked_text(pass);
    match pass {
        // An index has NULL before all numbers: without a lower end the range would have each row without a mark.
        Pass::Transition | Pass::Purge => {
            query(
                conn,
                text,
                params![seconds(Moment::first()), seconds(by), limit],
            )
        }
        Pass::Validate | Pass::Assimilate | Pass::Delete => query(conn, text, params![true, limit]),
    }
}

/// Runs a statement with the columns of a workunit's row as its parameters.
pub fn run_workunit<S: Alter>(
    tx: &mut Transaction<'_, S>,
    sql: &str,
    workunit: &Workunit,
) -> Result<(), Error>
    // Commits nothing, so a crash leaves what it left before; after `Ok` the transaction is still
    // open.
    ensures writes { StatementFrame S.Store tx.old tx.new result }
    // After `Ok` the statement ran with the workunit's row as its parameters.
    ensures ran { RunsText S.Store tx.old tx.new result sql.now (workunit_row workunit.now) }
{
    let params = workunit.params;
    let number = signed(workunit.number)?;
    let done_at = seconds_of(workunit.done_at);
    execute(
        tx,
        sql,
        params![
            number,
            workunit.name.as_str(),
            params.min_quorum(),
            params.target_nresults(),
            params.max_error_results(),
            params.max_total_results(),
            params.max_success_results(),
            params.delay_bound(),
            params.credit(),
            workunit.input.as_slice(),
            workunit.error_mask.code(),
            workunit.canonical,
            workunit.assimilate.code(),
            workunit.file_delete.code(),
            done_at
        ],
    )
}

/// Adds the row of a workunit at its place in order of number, and that of its class, without its instances. The
/// table's key refuses a number that is there.
pub fn insert_workunit<S: Alter>(
    tx: &mut Transaction<'_, S>,
    workunit: &Workunit,
) -> Result<(), Error>
    // Commits nothing, so a crash leaves what it left before; after `Ok` the transaction is still
    // open.
    ensures writes { StatementFrame S.Store tx.old tx.new result }
    // `Ok` means that no workunit of a represented world had this number.
    ensures free { Does S.Store tx.old tx.new result (WasFree workunit.now.number) }
    // After `Ok`, a represented world with classes has the workunit at its place by number, with
    // its class and no instances; a queue stays.
    ensures puts { Does S.Store tx.old tx.new result
        (ChangesClasses (with_placed (without_instances workunit.now))) }
    // After `Ok`, if the tables of workunits are there, those of other programs stay.
    ensures spares { Does S.Store tx.old tx.new result (SparesWith tables_of_workunits) }
{
    run_workunit(tx, INSERT_WORKUNIT, workunit)?;
    insert_class(tx, workunit.number, workunit.class)
}

/// Runs a statement whose parameters are a workunit's number, the number of an instance and its columns.
pub fn run_instance<S: Alter>(
    tx: &mut Transaction<'_, S>,
    sql: &str,
    workunit: u64,
    n: u32,
    instance: &Instance,
) -> Result<(), Error>
    // Commits nothing, so a crash leaves what it left before; after `Ok` the transaction is still
    // open.
    ensures writes { StatementFrame S.Store tx.old tx.new result }
    // After `Ok` the statement ran with both numbers and the instance's columns as its parameters.
    ensures ran { RunsText S.Store tx.old tx.new result sql.now
        (instance_cells workunit n instance.now) }
{
    let workunit = signed(workunit)?;
    let host = host_of(&instance.host);
    let sent_at = seconds_of(instance.sent_at);
    let deadline = deadline_of(instance.deadline);
    let received_at = seconds_of(instance.received_at);
    execute(
        tx,
        sql,
        params![
            workunit,
            n,
            instance.server_state.code(),
            instance.outcome.code(),
            instance.validate_state.code(),
            instance.file_delete.code(),
            host,
            sent_at,
            deadline,
            received_at,
            instance.output.as_slice()
        ],
    )
}

/// Adds the row of an instance, with the next number of its workunit's instances.
pub fn insert_instance<S: Alter>(
    tx: &mut Transaction<'_, S>,
    workunit: u64,
    n: u32,
    instance: &Instance,
) -> Result<(), Error>
    // After `Ok`, if the number is the next one of its workunit, each represented world has the
    // instance after the others. A queue beside a represented world has the same rows. If its table
    // is there, the tables of other programs stay. Commits nothing; after `Ok` the transaction is
    // still open.
    ensures { Writes S.Store tx.old tx.new result (AddsInstance workunit n instance.now) KeepsQueue
        result_table }
{
    run_instance(tx, INSERT_RESULT, workunit, n, instance)
}

/// Deletes the workunit of this number, if there is one, with its instances and its marks in the queue.
pub fn delete_workunit<S: Alter>(tx: &mut Transaction<'_, S>, number: u64) -> Result<(), Error>
    // After `Ok`, each represented world lacks the workunit of this number with its instances, and
    // nothing else. A queue beside a represented world lacks the marks of this number, and nothing
    // else. If its table is there, the tables of other programs stay. Commits nothing; after `Ok`
    // the transaction is still open.
    ensures { Writes S.Store tx.old tx.new result (ChangesWorld (without_workunit number))
        (ChangesQueue (without_marks number)) workunit_table }
{
    let number = signed(number)?;
    execute(tx, DELETE_WORKUNIT, params![number])
}

/// Adds the row of a grant at the next place of those that are there. The sums of its host stay.
pub fn insert_grant<S: Alter>(
    tx: &mut Transaction<'_, S>,
    seq: u64,
    grant: &Grant,
) -> Result<(), Error>
    // Commits nothing, so a crash leaves what it left before; after `Ok` the transaction is still
    // open.
    ensures writes { StatementFrame S.Store tx.old tx.new result }
    // `Ok` means that the place is below 2^63.
    ensures within { OnOk result (seq < 2 ^ 63) }
    // After `Ok`, if the place is the next one, the table of grants has this one after the others,
    // and every other table stays.
    ensures puts { Does S.Store tx.old tx.new result (PutsGrants seq (grant.now ∷ [])) }
{
    let seq = signed(seq)?;
    let workunit = signed(grant.workunit)?;
    let credit = signed(grant.credit)?;
    execute(
        tx,
        INSERT_GRANT,
        params![seq, workunit, grant.n, grant.host.as_str(), credit],
    )
}

/// Adds a sum to those of its host, or begins them if it had none. A total of 2^63 or more is refused.
pub fn add_sum<S: Alter>(tx: &mut Transaction<'_, S>, sum: &HostSum) -> Result<(), Error>
    // Commits nothing, so a crash leaves what it left before; after `Ok` the transaction is still
    // open.
    ensures writes { StatementFrame S.Store tx.old tx.new result }
    // After `Ok`, if the rows of hosts had the sums of some grants, they have those of these grants
    // and any more with this sum. Tables that no foreign key ties to hosts stay.
    ensures credits { Does S.Store tx.old tx.new result (Credits (sum.now ∷ [])) }
{
    let total = signed(sum.total)?;
    let grants = signed(sum.grants)?;
    execute(tx, UPSERT_HOST, params![sum.name.as_str(), total, grants])
}

/// Adds the row of an archived workunit, at the next place of those that are there.
pub fn insert_archived<S: Alter>(
    tx: &mut Transaction<'_, S>,
    seq: u64,
    archived: &Archived,
) -> Result<(), Error>
    // After `Ok`, if the place is the next one, each represented world has the row after its other
    // archived rows. A queue beside a represented world has the same rows. If its table is there,
    // the tables of other programs stay. Commits nothing; after `Ok` the transaction is still open.
    ensures { Writes S.Store tx.old tx.new result (AddsArchived seq archived.now) KeepsQueue
        archived_table }
{
    let seq = signed(seq)?;
    let number = signed(archived.number)?;
    let done_at = seconds(archived.done_at);
    execute(
        tx,
        INSERT_ARCHIVED,
        params![
            seq,
            number,
            archived.name.as_str(),
            archived.error_mask.code(),
            archived.canonical,
            archived.output.as_slice(),
            done_at
        ],
    )
}

/// Adds the row of an import. An import of a kind and name that are there is refused.
pub fn insert_import<S: Alter>(
    tx: &mut Transaction<'_, S>,
    import: &Import<'_>,
) -> Result<(), Error>
    // After `Ok`, each represented world has this import too, if it may be kept; it had none of
    // this kind and name. It may be kept if a template means a batch, and a first number means that
    // a batch made workunits. A queue beside a represented world has the same rows. If its table is
    // there, the tables of other programs stay. Commits nothing; after `Ok` the transaction is
    // still open.
    ensures { Writes S.Store tx.old tx.new result (AddsImport (import_of_change import.now))
        KeepsQueue import_table }
{
    let first_number = signed(import.first_number)?;
    execute(
        tx,
        INSERT_IMPORT,
        params![
            import.kind.code(),
            import.name.as_str(),
            import.template,
            import.content,
            first_number,
            import.verdicts.digits()
        ],
    )
}

/// Runs a statement whose parameters are a workunit's number and its marks.
pub fn run_marks<S: Alter>(
    tx: &mut Transaction<'_, S>,
    sql: &str,
    workunit: u64,
    marks: &Marks,
) -> Result<(), Error>
    // Commits nothing, so a crash leaves what it left before; after `Ok` the transaction is still
    // open.
    ensures writes { StatementFrame S.Store tx.old tx.new result }
    // After `Ok` the statement ran with the number and the marks as its parameters.
    ensures ran { RunsText S.Store tx.old tx.new result sql.now
        (number workunit ∷ marks_cells marks.now) }
{
    let workunit = signed(workunit)?;
    let wake = signed_of(marks.wake)?;
    let purge_from = seconds_of(marks.purge_from);
    execute(
        tx,
        sql,
        params![
            workunit,
            wake,
            marks.to_validate,
            marks.to_assimilate,
            marks.to_delete,
            purge_from
        ],
    )
}

/// Adds the marks of a workunit to the queue, at its place in order of number. The table's key refuses a number that is
/// there, and its reference one that no workunit has.
pub fn insert_marks<S: Alter>(
    tx: &mut Transaction<'_, S>,
    workunit: u64,
    marks: &Marks,
) -> Result<(), Error>
    // After `Ok`, a queue beside a represented world has these marks at the workunit's place by
    // number. A represented world beside a queue stays. If its table is there, the tables of other
    // programs stay. Commits nothing; after `Ok` the transaction is still open.
    ensures { Writes S.Store tx.old tx.new result (ChangesQueue (with_marks workunit marks.now))
        KeepsWorld queue_table }
{
    run_marks(tx, INSERT_MARKS, workunit, marks)
}

/// Sets the project's next number.
pub fn set_next_number<S: Alter>(tx: &mut Transaction<'_, S>, next_number: u64) -> Result<(), Error>
    // After `Ok`, each represented world has this next number, and nothing else of it changes. A
    // queue beside a represented world has the same rows. If its table is there, the tables of
    // other programs stay. Commits nothing; after `Ok` the transaction is still open.
    ensures { Writes S.Store tx.old tx.new result (ChangesWorld (with_next next_number)) KeepsQueue
        project_table }
{
    let next_number = signed(next_number)?;
    execute(tx, UPDATE_NEXT_NUMBER, params![next_number])
}

/// Sets the version of the project's schema.
pub fn set_version<S: Alter>(tx: &mut Transaction<'_, S>, version: u64) -> Result<(), Error>
    // After `Ok` for version 3, a represented older world beside tables with class 0 for each of
    // its workunits is of that version. A queue beside a represented world has the same rows. If
    // its table is there, the tables of other programs stay. Commits nothing; after `Ok` the
    // transaction is still open.
    ensures { Writes S.Store tx.old tx.new result (SetsVersion version) KeepsQueue project_table }
{
    let version = signed(version)?;
    execute(tx, UPDATE_VERSION, params![version])
}
