//! What a line asks of a project, with the contents of its files.

ghost use Rattle.std.specs.Prelude.{◌≡◌, drop};
ghost use Rattle.std.specs.Vec.Iter.{into_iter_items};
ghost use Rattle.wu_core.specs.Reads.{IsOrWantsMemory, TellsRefusal};
ghost use Rattle.wu_core.specs.Names.{name_of};
ghost use Rattle.wu_feed.specs.Told.{both};
ghost use Rattle.wu_arguments.specs.Contents.{Prepares};
ghost use Rattle.wu_arguments.specs.Actions.{age_in, all_of_cycle, batch, bytes_of, content_of, imports, moment_in, one, pass_command, prepared, prepared_import, rows_file, status};

use crate::files::ReadFile;
use crate::line::{Asking, Line};
use crate::word::Word;
use std::alloc::Global;
use std::vec::IntoIter;
use wu_core::{Bytes, Fault, FileCause, ImportKind, Moment, Name};
use wu_feed::{Rows, both, read_moment};
use wu_machine::{Batch, Command, RowsFile, View, cycle};
use wu_rules::Pass;

/// What a line asks of a project.
pub enum Action {
    /// Commands are run, in this order.
    Commands(Rows<Command>),
    /// A view is looked at.
    Look(View),
    /// Nothing is done: a name, a moment or a file of a tried line has this fault.
    Refused(Fault),
}

// It is written out, so that a caller does not prove again how each part is dropped.
impl Drop for Action {
    fn drop(self) {
        match self {
            Action::Commands(_commands) => {}
            Action::Look(_view) => {}
            Action::Refused(_fault) => {}
        }
    }
}

/// Makes an action of one command.
fn one(alloc: Global, command: Command) -> Result<Action, Fault>
    ensures { IsOrWantsMemory result (one command) }
{
    let commands = Vec::from_array(alloc, [command])?;
    Ok(Action::Commands(Rows::from_vec(commands)))
}

/// Returns the bytes of a line's next file. One that could not be read, or that is not there, is refused as a whole.
fn next_content(contents: &mut IntoIter<Option<Vec<u8>>>) -> Result<Bytes, Fault>
    ensures first { result ≡ content_of (bytes_of (into_iter_items contents.old)) 0 }
    ensures rest { into_iter_items contents.new ≡ drop 1 (into_iter_items contents.old) }
{
    match contents.next() {
        Some(Some(bytes)) => Ok(Bytes::from_vec(bytes)),
        _ => Err(Fault::BadFile {
            row: 0,
            cause: FileCause::Unreadable,
        }),
    }
}

/// Reads the moment of a text, or `BadMoment`, also where there is no text.
fn moment(text: &Option<Word>) -> Result<Moment, Fault>
    ensures { result ≡ moment_in text.now }
{
    match text {
        Some(text) => read_moment(text.as_str().as_bytes()),
        None => Err(Fault::BadMoment),
    }
}

/// Reads the name of a text, or `BadName`. Out of memory is reported only for a name.
fn name(alloc: Global, text: &Word) -> Result<Name, Fault>
    ensures name { IsOrWantsMemory result (name_of text.now) }
    ensures told { TellsRefusal result (name_of text.now) }
{
    Name::read(alloc, text.as_str().as_bytes())
}

/// Returns the files of a batch: its jobs, and its template.
fn batch_files(contents: Vec<Option<Vec<u8>>>) -> Result<(Bytes, Bytes), Fault>
    ensures { result ≡ both (content_of (bytes_of contents.items) 0)
        (content_of (bytes_of contents.items) 1) }
{
    let mut contents = contents.into_iter();
    let file = next_content(&mut contents);
    let template = next_content(&mut contents);
    both(file, template)
}

/// Makes the action of a batch. The contents are those of its jobs and of its template.
fn batch(alloc: Global, text: &Word, contents: Vec<Option<Vec<u8>>>) -> Result<Action, Fault>
    ensures action { IsOrWantsMemory result (batch text.now (bytes_of contents.items)) }
    ensures told { TellsRefusal result (batch text.now (bytes_of contents.items)) }
{
    let (name, (file, template)) = both(name(alloc, text), batch_files(contents))?;
    one(
        alloc,
        Command::Batch(Batch {
            name,
            template,
            file,
        }),
    )
}

/// Makes a file of rows under its name.
fn rows_file(alloc: Global, text: &Word, contents: Vec<Option<Vec<u8>>>) -> Result<RowsFile, Fault>
    ensures file { IsOrWantsMemory result (rows_file text.now (bytes_of contents.items)) }
    ensures told { TellsRefusal result (rows_file text.now (bytes_of contents.items)) }
{
    let file = next_content(&mut contents.into_iter());
    let (name, file) = both(name(alloc, text), file)?;
    Ok(RowsFile { name, file })
}

/// Makes the action of an import, with the contents of its files.
fn import(
    alloc: Global,
    kind: ImportKind,
    name: &Word,
    contents: Vec<Option<Vec<u8>>>,
) -> Result<Action, Fault>
    ensures action { IsOrWantsMemory result
        (prepared_import kind name.now (bytes_of contents.items)) }
    ensures told { TellsRefusal result (prepared_import kind name.now (bytes_of contents.items)) }
{
    match kind {
        ImportKind::Batch => batch(alloc, name, contents),
        ImportKind::Sent => one(alloc, Command::Sent(rows_file(alloc, name, contents)?)),
        ImportKind::Reported => one(alloc, Command::Reported(rows_file(alloc, name, contents)?)),
        ImportKind::Classes => one(alloc, Command::Classes(rows_file(alloc, name, contents)?)),
    }
}

/// Returns the least age of a purge, or `BadLimit` where there is none.
fn age(min_age: Option<u64>) -> Result<u64, Fault>
    ensures { result ≡ age_in min_age }
{
    match min_age {
        Some(age) => Ok(age),
        None => Err(Fault::BadLimit),
    }
}

/// Makes the command of a pass.
fn pass_command(
    pass: Pass,
    now: &Option<Word>,
    limit: u64,
    min_age: Option<u64>,
) -> Result<Command, Fault>
    ensures { result ≡ pass_command pass now.now limit min_age }
{
    let command = match pass {
        Pass::Transition => Command::Transition {
            now: moment(now)?,
            limit,
        },
        Pass::Validate => Command::Validate { limit },
        Pass::Assimilate => Command::Assimilate {
            now: moment(now)?,
            limit,
        },
        Pass::Delete => Command::Delete { limit },
        Pass::Purge => Command::Purge {
            now: moment(now)?,
            limit,
            min_age: age(min_age)?,
        },
    };
    Ok(command)
}

/// Makes the action of a cycle.
fn all_of_cycle(alloc: Global, now: &Word, limit: u64, min_age: u64) -> Result<Action, Fault>
    ensures action { IsOrWantsMemory result (all_of_cycle now.now limit min_age) }
    ensures told { TellsRefusal result (all_of_cycle now.now limit min_age) }
{
    let now = read_moment(now.as_str().as_bytes())?;
    let commands = cycle(alloc, now, limit, min_age)?;
    Ok(Action::Commands(Rows::from_vec(commands)))
}

/// Makes the action that looks at the imports: at all of them, or at those of one name.
fn imports(alloc: Global, text: &Option<Word>) -> Result<Action, Fault>
    ensures action { IsOrWantsMemory result (imports text.now) }
    ensures told { TellsRefusal result (imports text.now) }
{
    match text {
        Some(text) => Ok(Action::Look(View::Import(name(alloc, text)?))),
        None => Ok(Action::Look(View::Imports)),
    }
}

/// Makes the action that looks at what waits for the passes.
fn status(now: &Word) -> Result<Action, Fault>
    ensures { result ≡ status now.now }
{
    let now = read_moment(now.as_str().as_bytes())?;
    Ok(Action::Look(View::Status(now)))
}

/// Returns what a line asks of a project, with the contents of its files in the order of its usage line. A content is
/// `None` for a file that could not be read, and has no bytes for a template that the line leaves out. The contents are
/// moved, not copied.
///
/// The fault is the first among the options from left to right: `BadName`, `BadMoment`, or for a file that was not read
/// `BadFile` with row 0 and `Unreadable`. Only where there is none of these can it be out of memory. Limits and ages
/// are not checked here.
pub fn prepare(alloc: Global, line: &Line, contents: Vec<Option<Vec<u8>>>) -> Result<Action, Fault>
    // A line asks for its command, a cycle's seven, or its view; else for its options' first fault,
    // or it is out of memory.
    ensures action { IsOrWantsMemory result
        (prepared line.now.asking (bytes_of contents.items)) }
    // A fault of a name, a moment or an unread file is reported as such, whatever memory there is.
    ensures told { TellsRefusal result (prepared line.now.asking (bytes_of contents.items)) }
{
    match &line.asking {
        Asking::Import { kind, name, .. } => import(alloc, *kind, name, contents),
        Asking::Pass {
            pass,
            now,
            limit,
            min_age,
        } => one(alloc, pass_command(*pass, now, *limit, *min_age)?),
        Asking::Cycle {
            now,
            limit,
            min_age,
        } => all_of_cycle(alloc, now, *limit, *min_age),
        Asking::Cancel { workunit } => {
            let workunit = name(alloc, workunit)?;
            one(alloc, Command::Cancel { workunit })
        }
        Asking::Show(view) => Ok(Action::Look(view.copy()?)),
        Asking::Imports { name } => imports(alloc, name),
        Asking::Status { now } => status(now),
        Asking::Upgrade => one(alloc, Command::Upgrade),
    }
}

/// Returns what a line asks of a project, with what its files hold, as `prepare`. Reading files may run out of memory,
/// so of an import alone.
pub fn read_and_prepare<F: ReadFile>(alloc: Global, line: &Line, files: &F) -> Result<Action, Fault>
    // The line's files are read, with a content for each, and it asks for what `prepare` gives; or
    // reading is out of memory.
    ensures { Prepares (F.ReadFile.gives files.now) line.now.asking result }
{
    let contents = line.asking.read_files(alloc, files)?;
    prepare(alloc, line, contents)
}
