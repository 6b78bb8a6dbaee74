//! The imports of one name, within the session of a project.

ghost use Rattle.wu_schema.specs.Refines.{Refines};
ghost use Rattle.wu_views.specs.Lines.{AreImportsStorable, FindsLinesNamed};

use crate::project::Project;
use sqlite::Alter;
use std::alloc::Global;
use wu_core::{Fault, Name};
use wu_views::{ImportLine, import_lines_named};

impl<S: Alter> Project<S> {
    ghost use Rattle.wu_passes.specs.Projects.{Looks};

    /// Returns the lines of the imports of this name, in order of kind: at most four. It changes no table; `Broken` ends
    /// the session.
    ///
    /// `NotAProject` means that the row of such an import is invalid. Over an older version the answer is `OldSchema`,
    /// and nothing is read.
    pub fn imports_named(&mut self, alloc: Global, name: &Name) -> Result<Vec<ImportLine>, Fault>
        // With Ok each kind of which there is an import of this name has its line, in each world
        // that the tables represent. Where the imports can be read, it is not refused.
        ensures { Looks self.old self.new result Refines (FindsLinesNamed name.now)
            AreImportsStorable }
    {
        if self.has_ended {
            return Err(Fault::Ended);
        }
        if let Some(version) = self.older {
            return Err(Fault::OldSchema(version));
        }
        match import_lines_named(&mut self.conn, alloc, name) {
            Ok(lines) => Ok(lines),
            Err(fault) => {
                if fault == Fault::Broken {
                    self.has_ended = true;
                }
                Err(fault)
            }
        }
    }
}
