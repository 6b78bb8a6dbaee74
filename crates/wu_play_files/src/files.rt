//! What is done over two files: they are opened, a visitor is given the database, and they are closed as far as their
//! calls succeed.
//!
//! A visitor is written for any store, and one function alone works over files: that two files serve as a store is
//! proved again in each function that needs it.

use crate::disks::PlayFiles;
use anyhow::Result;
use sqlite::{Alter, Connection, FileStore, Files, Options};
use sqlite_disk::Disk;
use std::alloc::Global;

/// How many pages a database keeps in memory.
#[derive(Clone, Copy)]
pub enum Pages {
    /// All that a scenario reads and writes.
    All,
    /// Next to none: each query reads the files, and each write goes to the log at once.
    Few,
}

/// More pages than the database of a scenario has. An opening takes memory for as many as it may keep, and most of the
/// time of a scenario goes into openings.
const ALL: usize = 200;

/// Returns the options of an opening with this seed.
pub fn options(seed: u64, pages: Pages) -> Options {
    let mut options = Options::new(seed);
    match pages {
        Pages::All => options.cache_pages = ALL,
        Pages::Few => {
            options.cache_pages = 1;
            options.spill_pages = 0;
        }
    }
    options
}

/// What is done with an open database.
pub trait Visit: Drop {
    /// What the visitor reports.
    type Told: Drop;

    /// Returns the database and what the visitor reports. Fails if the scenario has gone wrong.
    fn visit<S: Alter + Drop>(
        self,
        alloc: Global,
        conn: Connection<S>,
    ) -> Result<(Connection<S>, Self::Told)>;
}

/// What a visit left of its files.
pub struct Left<F: Drop, T: Drop> {
    files: F,
    told: Option<T>,
    is_closed: bool,
}

// It is written out, so that a caller does not prove again how each part is dropped.
impl<F: Drop, T: Drop> Drop for Left<F, T> {
    fn drop(self) {
        let Left {
            files: _files,
            told: _told,
            is_closed: _is_closed,
        } = self;
    }
}

impl<F: Drop, T: Drop> Left<F, T> {
    /// Returns what is left of files that could not be opened.
    fn unopened(files: F) -> Left<F, T> {
        Left {
            files,
            told: None,
            is_closed: false,
        }
    }

    /// Returns the files, what the visitor reported, and whether the close succeeded. The second is `None` if the files
    /// could not be opened.
    pub fn into_parts(self) -> (F, Option<T>, bool) {
        let Left {
            files,
            told,
            is_closed,
        } = self;
        (files, told, is_closed)
    }

    /// Returns what the visitor reported; `None` if the files could not be opened.
    pub fn into_told(self) -> Option<T> {
        let Left {
            files: _files,
            told,
            is_closed: _is_closed,
        } = self;
        told
    }
}

/// Closes a database as far as the calls on its files succeed.
fn close<D: Disk + Drop, T: Drop>(conn: Connection<FileStore<D>>, told: T) -> Left<Files<D>, T> {
    let (files, is_closed) = match conn.close_files() {
        Ok(files) => (files, true),
        Err((_, store)) => (store.close(), false),
    };
    Left {
        files,
        told: Some(told),
        is_closed,
    }
}

/// Opens files, visits the database, and closes them as far as their calls succeed.
fn visit_files<D: Disk + Drop, V: Visit>(
    alloc: Global,
    files: Files<D>,
    options: Options,
    visitor: V,
) -> Result<Left<Files<D>, V::Told>> {
    if !files.may_be_used() {
        return Ok(Left::unopened(files));
    }
    match Connection::open_files(alloc, files, options) {
        Ok(conn) => {
            let (conn, told) = visitor.visit(alloc, conn)?;
            Ok(close(conn, told))
        }
        Err((_, left)) => Ok(Left::unopened(left.into_files())),
    }
}

/// Opens the files of a scenario, visits the database, and closes them as far as their calls succeed.
pub fn visit_play<V: Visit>(
    alloc: Global,
    files: PlayFiles,
    options: Options,
    visitor: V,
) -> Result<Left<PlayFiles, V::Told>> {
    let left = visit_files(alloc, files.into_files(), options, visitor)?;
    let (files, told, is_closed) = left.into_parts();
    Ok(Left {
        files: PlayFiles::from_files(files),
        told,
        is_closed,
    })
}
