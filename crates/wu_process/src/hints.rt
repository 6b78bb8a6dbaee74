//! What a terminal shows beside the answers: that a database was made, or why it cannot be opened, why a file cannot be
//! read, that an import came before, and that a template lets no job succeed. No clause speaks of it.

use crate::barring::why_barred;
use crate::copy::copy_in_memory;
use crate::database::LeftDatabase;
use sqlite_disk::Disk;
use std::fs::{self, File};
use std::io::{self, ErrorKind, Write};
use std::time::SystemTime;
use wu_arguments::{Asking, Order, read_words};
use wu_cli::{Reason, Trouble};
use wu_feed::{LONGEST_TEMPLATE, read_template};
use wu_host::{Expected, expected_of, read_file};

/// The file of a database before the words are done.
#[derive(Drop)]
enum Before {
    /// There was none, or an empty one.
    Absent,
    /// It was last written to at this moment, as far as that is known.
    Written(Option<SystemTime>),
}

/// What is known of a line or a script before it is done.
#[derive(Drop)]
pub struct Hints {
    order: Order,
    before: Before,
}

/// Returns the path of the database that a line or a script works on.
fn database_of(order: &Order) -> Option<&str> {
    match order {
        Order::Line(line) => Some(line.db.as_str()),
        Order::Script(script) => Some(script.db.as_str()),
        _ => None,
    }
}

/// Returns how the file at the path is.
fn look_at(rt: &HostRuntime, path: &str) -> Before {
    match fs::metadata(rt, path) {
        Ok(found) if found.len() == 0 => Before::Absent,
        Ok(found) => Before::Written(found.modified().ok()),
        Err(error) if error.kind() == ErrorKind::NotFound => Before::Absent,
        Err(_) => Before::Written(None),
    }
}

/// Returns whether a status says that no database could be opened, where this is left of one.
fn is_unopened<D: Disk>(status: u8, left: &Option<LeftDatabase<D>>) -> bool {
    match left {
        None | Some(LeftDatabase::Unopened(_, _)) => status == Trouble::Unopened.status(),
        Some(_) => false,
    }
}

/// Returns why the files of the database at the path were not opened: why a check does not copy them either, as for a
/// journal, or else `Refused`, as where the file or its folder may not be written.
fn why_refused(rt: &HostRuntime, path: &str) -> Reason {
    match copy_in_memory(rt, path) {
        Ok(_files) => Reason::Refused,
        Err(Reason::Memory) => Reason::Refused,
        Err(reason) => reason,
    }
}

/// Returns whether the folder of a path is there.
fn has_folder(rt: &HostRuntime, path: &str) -> bool {
    match path.rsplit_once('/') {
        Some((folder, _)) if !folder.is_empty() => {
            fs::metadata(rt, folder).is_ok_and(|found| found.is_dir())
        }
        _ => true,
    }
}

/// Returns why the database at the path cannot be opened, where this is left of it; `None` if a check, which opens a copy
/// of it, names the cause.
fn why_unopened<D: Disk>(
    rt: &HostRuntime,
    path: &str,
    left: &Option<LeftDatabase<D>>,
) -> Option<Reason> {
    match why_barred(rt, path) {
        None => {}
        // a missing file is made, so its folder may not be written
        Some(Reason::NoFile) if has_folder(rt, path) => return Some(Reason::Refused),
        barred => return barred,
    }
    let Some(LeftDatabase::Unopened(error, files)) = left else {
        return None;
    };
    match Reason::of(error) {
        Reason::NoDatabase | Reason::Damaged => None,
        // files that were opened are still locked, and so are not copied
        Reason::Refused if files.is_none() => Some(why_refused(rt, path)),
        reason => Some(reason),
    }
}

/// Shows that a check names the cause, with its command line as a shell takes it. Out of memory nothing is shown.
fn tell_check<E: Write>(rt: &HostRuntime, path: &str, err: &mut E) {
    if let Ok(quoted) = path.replace(rt.alloc(), '\'', "'\\''") {
        let _ = writeln!(
            err,
            "a check names the cause: lintelthyme check --db='{}'",
            quoted.as_str()
        );
    }
}

/// Shows why the database at the path cannot be opened, where this is left of it, or that a check names the cause.
fn tell_why<D: Disk, E: Write>(
    rt: &HostRuntime,
    path: &str,
    left: &Option<LeftDatabase<D>>,
    err: &mut E,
) {
    match why_unopened(rt, path, left) {
        Some(reason) => {
            let _ = writeln!(err, "{}", reason.words());
        }
        None => tell_check(rt, path, err),
    }
}

/// Returns the paths of the files that a line or a script reads before a database is opened.
fn files_of(order: &Order) -> [Option<&str>; 2] {
    match order {
        Order::Line(line) => match &line.asking {
            Asking::Import { file, .. } => [Some(file.as_str()), template_of(order)],
            _ => [None, None],
        },
        Order::Script(script) => [Some(script.file.as_str()), None],
        _ => [None, None],
    }
}

/// Returns why what lies at the path cannot be read, as far as that can be found out. A pipe is not opened, since it would
/// wait for a writer.
fn why_unreadable(rt: &HostRuntime, path: &str) -> Option<Reason> {
    match fs::metadata(rt, path) {
        Ok(found) if found.is_dir() => Some(Reason::Refused),
        Ok(found) if !found.is_file() => None,
        Ok(_) => match File::open(rt, path) {
            Ok(_file) => None,
            Err(error) => Some(Reason::of_file(&error)),
        },
        Err(error) => Some(Reason::of_file(&error)),
    }
}

/// Shows of each file that cannot be read why not.
fn tell_unreadable<E: Write>(rt: &HostRuntime, order: &Order, err: &mut E) {
    for file in files_of(order) {
        if let Some(path) = file
            && let Some(reason) = why_unreadable(rt, path)
        {
            let _ = writeln!(err, "{path}: {}", reason.words());
        }
    }
}

/// Returns whether the line imports a file.
fn is_import(order: &Order) -> bool {
    match order {
        Order::Line(line) => matches!(line.asking, Asking::Import { .. }),
        _ => false,
    }
}

/// Returns the path of the template of the line's batch.
fn template_of(order: &Order) -> Option<&str> {
    let Order::Line(line) = order else {
        return None;
    };
    match &line.asking {
        Asking::Import {
            template: Some(path),
            ..
        } => Some(path.as_str()),
        _ => None,
    }
}

/// Returns whether the template at the path allows fewer instances than a quorum needs. Only a file is read, since a pipe
/// can be read once alone.
fn never_succeeds(rt: &HostRuntime, path: &str) -> bool {
    if !fs::metadata(rt, path).is_ok_and(|found| found.is_file()) {
        return false;
    }
    let Ok(Some(text)) = read_file(rt, path, LONGEST_TEMPLATE) else {
        return false;
    };
    match read_template(rt.alloc(), text.as_slice()) {
        Ok(params) => params.max_total_results() < params.min_quorum(),
        Err(_) => false,
    }
}

impl Hints {
    /// Returns what is known of a line or a script before it is done; `None` for any other words.
    pub fn before(rt: &HostRuntime, words: &io::Result<Vec<String>>) -> Option<Self> {
        let Ok(words) = words else {
            return None;
        };
        let order = read_words(rt.alloc(), words.as_slice()).ok()?;
        let before = look_at(rt, database_of(&order)?);
        Some(Hints { order, before })
    }

    /// Returns how many answers the line or the script gives at least, as far as that is known.
    pub fn expected(&self, rt: &HostRuntime) -> Option<Expected> {
        expected_of(rt, &self.order)
    }

    /// Returns whether the line is an import that changed nothing, since nothing was written to the database.
    fn came_before(&self, rt: &HostRuntime) -> bool {
        if !is_import(&self.order) {
            return false;
        }
        let Some(path) = database_of(&self.order) else {
            return false;
        };
        match (&self.before, look_at(rt, path)) {
            (Before::Written(Some(first)), Before::Written(Some(last))) => *first == last,
            _ => false,
        }
    }

    /// Returns whether the database was made.
    fn was_made(&self, rt: &HostRuntime, path: &str) -> bool {
        match self.before {
            Before::Absent => !matches!(look_at(rt, path), Before::Absent),
            Before::Written(_) => false,
        }
    }

    /// Shows what there is to say of a line or a script that was done and left its database closed or not.
    pub fn tell<D: Disk, E: Write>(
        &self,
        rt: &HostRuntime,
        status: u8,
        left: &Option<LeftDatabase<D>>,
        err: &mut E,
    ) {
        if let Some(path) = database_of(&self.order) {
            if self.was_made(rt, path) {
                let _ = writeln!(err, "made {path}");
            }
            if is_unopened(status, left) {
                tell_why(rt, path, left, err);
            }
        }
        if status != 0 && left.is_none() {
            tell_unreadable(rt, &self.order, err);
        }
        if status != 0 || !matches!(left, Some(LeftDatabase::Closed(_))) {
            return;
        }
        if self.came_before(rt) {
            let _ = writeln!(err, "came before: nothing done");
        }
        if let Some(path) = template_of(&self.order)
            && never_succeeds(rt, path)
        {
            let _ = writeln!(
                err,
                "{path}: max_total_results is below min_quorum, so no job can succeed"
            );
        }
    }
}
