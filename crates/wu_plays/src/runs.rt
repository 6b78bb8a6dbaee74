//! Runs of one act over two files: the adoption, or a line of a script.

use crate::seen::{Seen, look, see};
use crate::sessions::{adopt, do_action, views};
use anyhow::{Result, bail};
use sqlite::{Alter, Connection};
use std::alloc::Global;
use std::io;
use wu_arguments::Action;
use wu_core::Fault;
use wu_drive::Project;
use wu_play_files::{Pages, PlayFiles, Saved, Visit, options, visit_play};

/// How far a run came.
#[derive(Clone, Copy, PartialEq, Eq)]
pub enum Reach {
    /// No session began.
    Unbegun,
    /// The session began, and this fault ended the act.
    Cut(Fault),
    /// The act was answered.
    Done,
}

impl Reach {
    /// Returns whether the act was answered.
    pub fn is_done(self) -> bool {
        matches!(self, Reach::Done)
    }
}

/// How an act ended.
pub struct End {
    pub reach: Reach,
    /// A snapshot of the project from a session that began again over the same database, after a fault that ended the
    /// first.
    pub again: Option<Seen>,
}

// It is written out, so that a caller does not prove again how each part is dropped.
impl Drop for End {
    fn drop(self) {
        let End {
            reach: _reach,
            again: _again,
        } = self;
    }
}

/// What a run left of its files, and how its act ended.
pub struct Left {
    pub files: PlayFiles,
    pub end: End,
    /// Whether the close was answered too.
    pub is_closed: bool,
}

// It is written out, so that a caller does not prove again how each part is dropped.
impl Drop for Left {
    fn drop(self) {
        let Left {
            files: _files,
            end: _end,
            is_closed: _is_closed,
        } = self;
    }
}

impl Left {
    /// Returns what the files hold after a crash: what was not synced is lost.
    pub fn after_stop(self, alloc: Global) -> io::Result<Saved> {
        let Left {
            files,
            end: _end,
            is_closed: _is_closed,
        } = self;
        files.after_stop(alloc)
    }
}

/// Begins a session again. Returns the database, and a snapshot of its project if the files let it be taken.
fn begin_again<S: Alter + Drop>(
    alloc: Global,
    project: Project<S>,
) -> (Connection<S>, Option<Seen>) {
    match project.begin_again() {
        Ok(project) => {
            let (conn, seen) = see(alloc, project);
            (conn, seen.ok())
        }
        Err((conn, _)) => (conn, None),
    }
}

/// Runs an action, if there is one, in a session, and begins a session again if that one ended. Returns the database,
/// and how the act ended.
fn act<S: Alter + Drop>(
    alloc: Global,
    mut project: Project<S>,
    action: Option<&Action>,
) -> (Connection<S>, End) {
    let reach = match do_action(alloc, &mut project, action) {
        Some(fault) => Reach::Cut(fault),
        None => Reach::Done,
    };
    let (conn, again) = if project.ended() {
        begin_again(alloc, project)
    } else {
        (project.release(), None)
    };
    (conn, End { reach, again })
}

/// A visitor that runs an act in a session.
#[derive(Drop)]
struct Acting<'a> {
    action: Option<&'a Action>,
}

impl<'a> Visit for Acting<'a> {
    type Told = End;

    fn visit<S: Alter + Drop>(
        self,
        alloc: Global,
        conn: Connection<S>,
    ) -> Result<(Connection<S>, End)> {
        match Project::adopt(conn) {
            Ok(project) => Ok(act(alloc, project, self.action)),
            Err((conn, _)) => Ok((conn, unbegun())),
        }
    }
}

/// Returns the end of an act whose session did not begin.
fn unbegun() -> End {
    End {
        reach: Reach::Unbegun,
        again: None,
    }
}

/// Opens files, adopts the project in them, runs an action, if there is one, and closes them. If a call on the files
/// fails, the run ends early, and what it left is returned.
pub fn run_over(
    alloc: Global,
    files: PlayFiles,
    action: Option<&Action>,
    pages: Pages,
) -> Result<Left> {
    let left = visit_play(alloc, files, options(1, pages), Acting { action })?;
    let (files, told, is_closed) = left.into_parts();
    let end = match told {
        Some(end) => end,
        None => unbegun(),
    };
    Ok(Left {
        files,
        end,
        is_closed,
    })
}

/// Returns what a visitor reports over files that do not fail. Fails if they can't be opened.
pub fn told_over<V: Visit>(alloc: Global, saved: &Saved, visitor: V) -> Result<V::Told> {
    let left = visit_play(alloc, saved.files(alloc)?, options(2, Pages::All), visitor)?;
    match left.into_told() {
        Some(told) => Ok(told),
        None => bail!("the files can't be opened"),
    }
}

/// A visitor that reports all views of a project, which it begins if there is none.
#[derive(Drop)]
struct Looking;

impl Visit for Looking {
    type Told = Vec<u8>;

    fn visit<S: Alter + Drop>(
        self,
        alloc: Global,
        conn: Connection<S>,
    ) -> Result<(Connection<S>, Vec<u8>)> {
        let mut project = adopt(conn)?;
        let seen = views(alloc, &mut project)?;
        Ok((project.release(), seen))
    }
}

/// Returns all views of the project in files. A project is begun if there is none.
pub fn views_of(alloc: Global, saved: &Saved) -> Result<Vec<u8>> {
    told_over(alloc, saved, Looking)
}

/// A visitor that takes a snapshot of the project in a database.
#[derive(Drop)]
struct Seeing;

impl Visit for Seeing {
    type Told = Seen;

    fn visit<S: Alter + Drop>(
        self,
        alloc: Global,
        conn: Connection<S>,
    ) -> Result<(Connection<S>, Seen)> {
        look(alloc, conn)
    }
}

/// Returns a snapshot of the project in files.
pub fn seen_of(alloc: Global, saved: &Saved) -> Result<Seen> {
    told_over(alloc, saved, Seeing)
}
