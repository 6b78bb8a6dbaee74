//! What the program does with a process's words, files and outputs. It runs a line or a script over a project in a
//! database file, or without a word after its name the demonstration in memory.
//!
//! `wu_arguments` decides what the words ask for, and `wu_cli` does it over an open database. Here files are opened and
//! read, and the clauses hold whatever they contain. No clause can say that they lie where the words say.
#![tactic(auto)]

ghost use Rattle.std.specs.Prelude.{◌≡◌, ◌⊎◌, map, string_bytes};
ghost use Rattle.wu_arguments.specs.Statuses.{fault_status};
ghost use Rattle.wu_process.specs.Running.{EndsSo, TellsTrouble};
ghost use Rattle.wu_process.specs.Serving.{EndsRan, EndsServed, RanFor};
ghost use Rattle.wu_process.specs.Processes.{Demonstrates, EndsAsRun, RunsProcess};

mod backup;
mod barring;
mod check;
mod copy;
mod database;
mod export;
mod files;
mod hints;
mod memory_file;
mod new_file;
mod opening;
mod outputs;

use check::check_path;
pub use database::LeftDatabase;
use database::{hold_session, open_and_perform};
use export::export;
use files::HostFiles;
use hints::Hints;
use sqlite::FileFrom;
use sqlite_disk::{Disk, Wary};
use std::alloc::Global;
use std::io::{self, BufRead, BufWriter, Input, IsTerminal, Stderr, Stdout, Write};
use std::{env, fs};
use wu_arguments::{Order, read_words};
use wu_cli::{Trouble, Work, explain, lint, unheard};
use wu_core::Fault;
use wu_drive::demo;
use wu_host::{Cleared, Expected, Signs, Watched};

/// How a run of the program ended.
#[derive(Drop)]
pub struct End<D: Disk> {
    /// The status to end with.
    pub status: u8,
    /// Whether all of the text of a trouble went out.
    pub is_told: bool,
    /// What is left of the database that the words name; `None` if they ask for no work.
    pub left: Option<LeftDatabase<D>>,
}

/// What was done for the words of a process, and what is left of the database that they name.
#[derive(Drop)]
enum Ran<D: Disk> {
    /// All but a session, up to the first trouble.
    Done(Result<(), Trouble>, Option<LeftDatabase<D>>),
    /// A session: the status that it gave, or the trouble that kept it from its first line.
    Served(Result<u8, Trouble>, Option<LeftDatabase<D>>),
}

/// Does what the words ask for, up to the first trouble, or holds a session. All files of a line or a script are read
/// before the database is opened.
fn run_words<S: sqlite::Start, R: BufRead, O: Write, E: Write>(
    rt: &HostRuntime,
    words: &[String],
    input: &mut R,
    start: S,
    out: &mut O,
    err: &mut E,
) -> Ran<FileFrom<S>>
    // Refused words, and a line or a script that cannot be run, are reported, and nothing goes out.
    // Otherwise the work is done over the database that the words name, or the check, the export,
    // the reading or the explanation, or a session is held.
    ensures { RanFor O.contents (map string_bytes words.now) out.old out.new err.old err.new
        (R.remaining input.old) (R.remaining input.new) result }
{
    let alloc = rt.alloc();
    let files = HostFiles::new(rt);
    match read_words(alloc, words) {
        Ok(Order::Line(line)) => {
            let asked = Work::of_line(alloc, &line, &files);
            let (done, left) = open_and_perform(rt, line.db.as_str(), asked, start, out);
            Ran::Done(done, left)
        }
        Ok(Order::Script(script)) => {
            let asked = Work::of_script(alloc, &script, &files);
            let (done, left) = open_and_perform(rt, script.db.as_str(), asked, start, out);
            Ran::Done(done, left)
        }
        Ok(Order::Session(path)) => {
            let (done, left) = hold_session(rt, path.as_str(), input, start, out, err);
            Ran::Served(done, left)
        }
        Ok(Order::Check(path)) => Ran::Done(check_path(rt, path.as_str(), out), None),
        Ok(Order::Export(asked)) => Ran::Done(export(rt, &asked, &files, out), None),
        Ok(Order::Lint(asked)) => Ran::Done(lint(alloc, &asked, &files, out), None),
        Ok(Order::Explain(topic)) => Ran::Done(explain(alloc, &topic, out), None),
        Err(usage) => Ran::Done(Err(Trouble::Usage(usage)), None),
    }
}

/// Reports the trouble that ended a run, if one did. Returns the status to end with, and whether all of it went out.
fn tell<E: Write>(done: Result<(), Trouble>, err: &mut E) -> (u8, bool)
    // Without a trouble the status is 0 and nothing is written. With one the status is the
    // trouble's, and its text or a prefix of it goes out.
    ensures { TellsTrouble E.contents err.old err.new done result.0 result.1 }
{
    match done {
        Ok(()) => (0, true),
        Err(trouble) => {
            let is_told = trouble.write(err);
            (trouble.status(), is_told)
        }
    }
}

/// Reports the trouble that ended a run, if one did, and returns how it ended.
fn ended<D: Disk, E: Write>(
    run: (Result<(), Trouble>, Option<LeftDatabase<D>>),
    err: &mut E,
) -> End<D>
    // The trouble is reported with its status, and what is left of the database is handed on.
    ensures { EndsSo E.contents err.old err.new run.0 run.1 result }
{
    let (done, left) = run;
    let (status, is_told) = tell(done, err);
    End {
        status,
        is_told,
        left,
    }
}

/// Returns how a session ended, and reports the trouble that kept it from its first line, if one did.
fn served<D: Disk, E: Write>(
    done: Result<u8, Trouble>,
    left: Option<LeftDatabase<D>>,
    err: &mut E,
) -> End<D>
    ensures { EndsServed E.contents err.old err.new done left result }
{
    match done {
        Ok(status) => End {
            status,
            is_told: true,
            left,
        },
        Err(trouble) => ended((Err(trouble), left), err),
    }
}

/// Returns how what was done ended, and reports its trouble, if there is one.
fn ended_ran<D: Disk, E: Write>(ran: Ran<D>, err: &mut E) -> End<D>
    ensures { EndsRan E.contents err.old err.new ran result }
{
    match ran {
        Ran::Done(done, left) => ended((done, left), err),
        Ran::Served(done, left) => served(done, left, err),
    }
}

/// Runs the demonstration, and returns the status to end with: 0, or 1 on a fault, which is not reported.
fn demonstrate<O: Write>(alloc: Global, out: &mut O) -> u8
    ensures { Demonstrates (O.contents out.old) (O.contents out.new) result }
{
    match demo(alloc, out) {
        None => 0,
        Some(_) => 1,
    }
}

/// Does what the words of a process ask for, of which the first is the program's name, whatever the files of the
/// database held at first. With no other word it runs the demonstration. What is printed goes to `out`, and the text of
/// a trouble to `err`. The lines of a session come from `input`. Words that could not be read are reported as such.
pub fn run_with<S: sqlite::Start, R: BufRead, O: Write, E: Write>(
    rt: &HostRuntime,
    words: io::Result<Vec<String>>,
    input: &mut R,
    start: S,
    out: &mut O,
    err: &mut E,
) -> End<FileFrom<S>>
    // Without a word after the program's name the demonstration runs: with status 0 all of it went
    // out, else the status is 1, and nothing goes to `err`. Otherwise what the words ask for is done up to the first
    // trouble, which is reported with its status. Words that cannot be read are reported as no
    // UTF-8 text, or as out of memory, and nothing goes out. Only work opens a database.
    ensures { RunsProcess O.contents E.contents out.old out.new err.old err.new
        (R.remaining input.old) (R.remaining input.new) result words }
{
    match words {
        Ok(words) if words.len() <= 1 => End {
            status: demonstrate(rt.alloc(), out),
            is_told: true,
            left: None,
        },
        Ok(words) => ended_ran(run_words(rt, words.as_slice(), input, start, out, err), err),
        Err(error) => ended((Err(unheard(&error)), None), err),
    }
}

/// Returns the words of the command line.
fn words(rt: &HostRuntime) -> io::Result<Vec<String>> {
    Ok(env::args(rt)?.collect(rt.alloc())?)
}

/// Returns whether the words ask for a session, in which nothing is shown on a terminal but its answers.
fn asks_for_session(words: &io::Result<Vec<String>>) -> bool {
    match words {
        Ok(words) => words.get(1).is_some_and(|word| word.as_str() == "session"),
        Err(_) => false,
    }
}

/// Returns whether the terminal can wipe a line: a dumb one cannot.
fn can_wipe(rt: &HostRuntime) -> bool {
    match env::var(rt, "TERM") {
        Ok(term) => term.as_str() != "dumb",
        Err(_) => true,
    }
}

/// Returns whether standard output is a file, so that none of its bytes come to a terminal.
fn writes_to_file(rt: &HostRuntime) -> bool {
    match fs::metadata(rt, "/dev/stdout") {
        Ok(found) => found.is_file(),
        Err(_) => false,
    }
}

/// Returns how many answers the words give at least, as far as that is known.
fn expected_answers(rt: &HostRuntime, hints: &Option<Hints>) -> Option<Expected> {
    match hints {
        Some(hints) => hints.expected(rt),
        None => None,
    }
}

/// Shows on a terminal what there is to say of a line or a script, as `Hints` does.
fn show_hints<D: Disk, E: Write>(
    rt: &HostRuntime,
    hints: &Option<Hints>,
    end: &End<D>,
    err: &mut E,
) {
    if let Some(hints) = hints {
        hints.tell(rt, end.status, &end.left, err);
    }
}

/// Does what the words of the command line ask for, as `run_with`, with the input and the outputs of the process. Nothing
/// is assumed of the database file. If standard error is a terminal, it shows in the meantime how many answers have gone
/// out of how many, after how many seconds, and the last one. At the end it shows what `Hints` says. Returns the status
/// to end with.
pub fn run(rt: &HostRuntime) -> u8
    // The status is that of some call of `run_with`, over some words, some outputs and a database
    // file with any contents; or it is 4.
    ensures { EndsAsRun ⟦<FileFrom<Wary> as Disk>⟧
        ⟦<Watched<BufWriter<Stdout>, Stderr> as Write>⟧.contents
        ⟦<Cleared<Stderr> as Write>⟧.contents result
        ⊎ (result ≡ fault_status Fault.Memory) }
{
    let words = words(rt);
    let is_terminal = rt.stderr().is_terminal() && !asks_for_session(&words);
    let can_wipe = can_wipe(rt);
    let mut err = Cleared::new(rt.stderr(), is_terminal && can_wipe);
    let hints = if is_terminal {
        Hints::before(rt, &words)
    } else {
        None
    };
    match BufWriter::new(rt.alloc(), rt.stdout()) {
        Ok(out) => {
            let terminal = is_terminal.then_some(rt.stderr());
            let is_to_file = writes_to_file(rt);
            let expected = expected_answers(rt, &hints);
            let signs = Signs::new(terminal, *rt, can_wipe, is_to_file, expected);
            let mut out = Watched::new(out, signs);
            out.begin();
            let mut input = rt.reader();
            let end = run_with(rt, words, &mut input, Wary, &mut out, &mut err);
            out.end();
            show_hints(rt, &hints, &end, &mut err);
            end.status
        }
        Err(_) => tell(Err(Trouble::Fault(Fault::Memory)), &mut err).0,
    }
}
