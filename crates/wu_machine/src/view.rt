//! Views of a project.

ghost use Rattle.std.specs.Prelude.{◌≡◌, IfOk};

use std::alloc::AllocError;
use wu_core::{Moment, Name};

/// A view of a project.
pub enum View {
    /// A line for each workunit, in order of number.
    Workunits,
    /// A line for each instance, in order of its workunit's number and of its own.
    Results,
    /// A line for each host that was granted credit, in order of the bytes of its name.
    Hosts,
    /// A line for each archived workunit, in order of its assimilation.
    Archive,
    /// Twelve lines: the version, the next number, and counts.
    Summary,
    /// A line for each host that has a class, in order of the bytes of its name.
    Classes,
    /// A line for each import, in order of its kind and of the bytes of its name.
    Imports,
    /// The imports of this name, in order of kind: its line, and one for each row that was skipped.
    Import(Name),
    /// What is open at this moment: how many workunits each pass would change, what is undecided, given up or overdue,
    /// and the hosts that fail most.
    Status(Moment),
}

// It is written out, so that a caller does not prove again how each part is dropped.
impl Drop for View {
    fn drop(self) {
        match self {
            View::Import(_name) => {}
            View::Status(_now) => {}
            View::Workunits
            | View::Results
            | View::Hosts
            | View::Archive
            | View::Summary
            | View::Classes
            | View::Imports => {}
        }
    }
}

impl View {
    /// Returns a copy of the view.
    pub fn copy(&self) -> Result<Self, AllocError>
        // If there is memory, the result is the same view.
        ensures { IfOk result (λ view. view ≡ self.now) }
    {
        let view = match self {
            View::Workunits => View::Workunits,
            View::Results => View::Results,
            View::Hosts => View::Hosts,
            View::Archive => View::Archive,
            View::Summary => View::Summary,
            View::Classes => View::Classes,
            View::Imports => View::Imports,
            View::Import(name) => View::Import(name.copy()?),
            View::Status(now) => View::Status(*now),
        };
        Ok(view)
    }
}
