//! A line of the command line: a command or a view, and the project that it is for.

ghost use Rattle.std.specs.Prelude.{◌≡◌};

use crate::word::Word;
use wu_core::ImportKind;
use wu_machine::View;
use wu_rules::Pass;

/// What a line asks of a project, with the values of its options as they were written. Names, moments and files are
/// read later. Limits and ages are any 64-bit numbers.
pub enum Asking {
    /// Imports a file under a name. A batch may have a template, with the parameters of its jobs.
    Import {
        kind: ImportKind,
        name: Word,
        file: Word,
        template: Option<Word>,
    },
    /// Runs a pass. Validation and deletion have no moment, and only the purge has a least age.
    Pass {
        pass: Pass,
        now: Option<Word>,
        limit: u64,
        min_age: Option<u64>,
    },
    /// Runs the commands of a cycle.
    Cycle {
        now: Word,
        limit: u64,
        min_age: u64,
    },
    /// Gives a workunit up.
    Cancel {
        workunit: Word,
    },
    /// Prints a view.
    Show(View),
    /// Lists the imports. Those of one name are printed with their skipped rows.
    Imports {
        name: Option<Word>,
    },
    /// Prints what waits for the passes at a moment.
    Status {
        now: Word,
    },
    /// Brings the schema to the present version.
    Upgrade,
}

// It is written out, so that a caller does not prove again how each part is dropped.
impl Drop for Asking {
    fn drop(self) {
        match self {
            Asking::Import {
                kind: _kind,
                name: _name,
                file: _file,
                template: _template,
            } => {}
            Asking::Pass {
                pass: _pass,
                now: _now,
                limit: _limit,
                min_age: _min_age,
            } => {}
            Asking::Cycle {
                now: _now,
                limit: _limit,
                min_age: _min_age,
            } => {}
            Asking::Cancel {
                workunit: _workunit,
            } => {}
            Asking::Show(_view) => {}
            Asking::Imports { name: _name } => {}
            Asking::Status { now: _now } => {}
            Asking::Upgrade => {}
        }
    }
}

/// A command or a view, and the project that it is for.
pub struct Line {
    /// The file that holds the project.
    pub db: Word,
    pub asking: Asking,
}

// It is written out, so that a caller does not prove again how each part is dropped.
impl Drop for Line {
    fn drop(self) {
        let Line {
            db: _db,
            asking: _asking,
        } = self;
    }
}
