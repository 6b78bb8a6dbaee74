//! The database that words name: it is opened, the work done over it, and it is closed.

ghost use Rattle.std.specs.Prelude.{◌≡◌, IfErr};
ghost use Rattle.wu_process.specs.Closing.{IsLeftByClose};
ghost use Rattle.wu_process.specs.Running.{ExportsIfDone, OpensAndDoes, RunsWork};
ghost use Rattle.wu_process.specs.Serving.{OpensAndServes, ServesAt};

use crate::barring::bar;
use crate::files::HostFiles;
use crate::opening::{MOST_PAGES, open_at, pages_for};
use sqlite::{Connection, Error, FileFrom, FileStore, Files, Leftover, Start};
use sqlite_disk::Disk;
use std::io::{BufRead, Write};
use wu_cli::{Trouble, Work, export_each, serve_over, unopened};

/// What is left of the database that words name.
pub enum LeftDatabase<D: Disk> {
    /// It could not be opened: the error, and what is left of its files, if they were opened.
    Unopened(Error, Option<Leftover<D>>),
    /// It was closed, and these are its files.
    Closed(Files<D>),
    /// It could not be closed.
    Unclosed(Error, FileStore<D>),
}

// It is written out, so that a caller does not prove again how each part is dropped.
impl<D: Disk + Drop> Drop for LeftDatabase<D> {
    fn drop(self) {
        match self {
            LeftDatabase::Unopened(_error, _left) => {}
            LeftDatabase::Closed(_files) => {}
            LeftDatabase::Unclosed(_error, _store) => {}
        }
    }
}

/// Closes a database, as far as its files let it.
fn close_database<D: Disk + Drop>(conn: Connection<FileStore<D>>) -> LeftDatabase<D>
    // The files come back closed, with the last commit in the database file if the disk is clean.
    // Or the store comes back, with the error.
    ensures { IsLeftByClose conn result }
{
    match conn.close_files() {
        Ok(files) => LeftDatabase::Closed(files),
        Err((error, store)) => LeftDatabase::Unclosed(error, store),
    }
}

/// Opens a database, does the work over it, and closes it. Where the database cannot be opened, that is returned, and
/// nothing is written.
fn open_and_do<S: Start, O: Write>(
    rt: &HostRuntime,
    database: &str,
    work: &Work,
    start: S,
    out: &mut O,
) -> (Result<(), Trouble>, LeftDatabase<FileFrom<S>>)
    // The work is done over the opened database, which is then closed; or nothing is opened, and that is reported.
    ensures { OpensAndDoes O.contents database.now work.now out.old out.new result.0 result.1 }
{
    let pages = pages_for(rt, database, work);
    match open_at(rt, database, start, pages) {
        Ok(conn) => {
            let (conn, done) = work.perform_over(rt.alloc(), conn, out);
            (done, close_database(conn))
        }
        Err((error, left)) => {
            let trouble = unopened(&error);
            (Err(trouble), LeftDatabase::Unopened(error, left))
        }
    }
}

/// Makes what the work asks to be made of a copy of the project, if all else of it is done. This process still holds the
/// files of the database, which is closed.
fn export_if_done<O: Write>(
    rt: &HostRuntime,
    database: &str,
    work: &Work,
    done: Result<(), Trouble>,
    out: &mut O,
) -> Result<(), Trouble>
    ensures { ExportsIfDone O.contents database.now work.now out.old out.new done result }
{
    match done {
        Ok(()) => export_each(&HostFiles::new(rt), database, work.exports(), out),
        Err(trouble) => Err(trouble),
    }
}

/// Opens the database, does the work that is asked over it, and closes it. Then it makes the exports with which the work
/// ends. The work holds what its files held, so these were read before. If `asked` is a trouble, or the database must not
/// or cannot be opened, that is returned, and nothing is written.
pub fn open_and_perform<S: Start, O: Write>(
    rt: &HostRuntime,
    database: &str,
    asked: Result<Work, Trouble>,
    start: S,
    out: &mut O,
) -> (Result<(), Trouble>, Option<LeftDatabase<FileFrom<S>>>)
    // A database is opened, its work is done and written, and it is closed; the path names no log.
    // Then the exports of the work are made, if all else was done. Or it cannot be opened, which is
    // reported, and nothing goes out. If `asked` is a trouble, that is returned, and nothing is
    // opened.
    ensures { RunsWork O.contents database.now asked out.old out.new result.0 result.1 }
{
    match asked {
        Ok(work) => match bar(rt, database) {
            Ok(()) => {
                let (done, left) = open_and_do(rt, database, &work, start, out);
                (export_if_done(rt, database, &work, done, out), Some(left))
            }
            Err(barred) => (Err(barred), None),
        },
        Err(trouble) => (Err(trouble), None),
    }
}

/// Opens a database, answers the lines of the input over it, and closes it. Where the database cannot be opened, that is
/// returned, and nothing is written.
fn open_and_serve<S: Start, R: BufRead, O: Write, E: Write>(
    rt: &HostRuntime,
    path: &str,
    input: &mut R,
    start: S,
    out: &mut O,
    err: &mut E,
) -> (Result<u8, Trouble>, LeftDatabase<FileFrom<S>>)
    // The lines are answered over the opened database, which is then closed; or nothing is opened, and
    // that is reported.
    ensures serves { OpensAndServes O.contents path.now out.old out.new
        (R.remaining input.old) (R.remaining input.new) result.0 result.1 }
    // Where the database is not opened, or not adopted, nothing is written on standard error.
    ensures silent { IfErr result.0 (λ _. err.new ≡ err.old) }
{
    let files = HostFiles::new(rt);
    match open_at(rt, path, start, MOST_PAGES) {
        Ok(conn) => {
            let (conn, served) = serve_over(rt.alloc(), conn, path, input, &files, out, err);
            (served, close_database(conn))
        }
        Err((error, left)) => {
            let why = unopened(&error);
            (Err(why), LeftDatabase::Unopened(error, left))
        }
    }
}

/// Holds a session over the database at the path: opens it, answers the lines of the input, and closes it. Where the
/// database must not or cannot be opened, that is returned, and nothing is written.
pub fn hold_session<S: Start, R: BufRead, O: Write, E: Write>(
    rt: &HostRuntime,
    path: &str,
    input: &mut R,
    start: S,
    out: &mut O,
    err: &mut E,
) -> (Result<u8, Trouble>, Option<LeftDatabase<FileFrom<S>>>)
    // A database is opened, the lines are answered over it, and it is closed; the path names no log.
    // Or it is not opened, which is reported, no line is read, and nothing goes out.
    ensures serves { ServesAt O.contents path.now out.old out.new
        (R.remaining input.old) (R.remaining input.new) result.0 result.1 }
    // Where the database is not opened, or not adopted, nothing is written on standard error.
    ensures silent { IfErr result.0 (λ _. err.new ≡ err.old) }
{
    match bar(rt, path) {
        Ok(()) => {
            let (done, left) = open_and_serve(rt, path, input, start, out, err);
            (done, Some(left))
        }
        Err(barred) => (Err(barred), None),
    }
}
