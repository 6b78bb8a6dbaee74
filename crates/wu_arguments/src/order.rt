//! What the words of the command line ask for.

ghost use Rattle.std.specs.Prelude.{◌≡◌};
ghost use Rattle.wu_arguments.specs.Lines.{export_place};

use crate::line::Line;
use crate::word::Word;

/// A script: a file with a command a line, over the project in a database.
#[derive(Drop)]
pub struct ScriptFile {
    /// The file that holds the project.
    pub db: Word,
    /// Where the script lies.
    pub file: Word,
}

/// The outputs of archived workunits, each as a file of its own.
#[derive(Drop)]
pub struct OutputFiles {
    /// The folder of the files.
    pub folder: Word,
    /// The workunit whose output alone is kept; `None` for all.
    pub name: Option<Word>,
}

/// What is made of a copy of a project.
#[derive(Drop)]
pub enum Export {
    /// A backup, in a new file at this path.
    Backup(Word),
    /// The outputs of its archived workunits.
    Outputs(OutputFiles),
}

impl Export {
    /// Returns where it is made: the path of a file or of a folder.
    pub fn place(&self) -> &str
        // A backup has the path of its file, and outputs have that of their folder.
        ensures { result.now ≡ export_place self.now }
    {
        match self {
            Export::Backup(to) => to.as_str(),
            Export::Outputs(files) => files.folder.as_str(),
        }
    }
}

/// An export: the database that is copied, and what is made of it.
#[derive(Drop)]
pub struct ExportOrder {
    /// The file that holds the project.
    pub db: Word,
    pub export: Export,
}

/// A file that is read as an import or a script reads it, and nothing more.
#[derive(Drop)]
pub struct LintOrder {
    /// The word of what the file is for.
    pub kind: Word,
    /// Where it lies.
    pub file: Word,
}

/// What is explained: a topic, of views and files with the name of one, or without a topic what topics there are.
#[derive(Drop)]
pub struct Topic {
    pub name: Option<Word>,
    pub detail: Option<Word>,
    /// The next word of a fault, as it is printed.
    pub fault_detail: Option<Word>,
    /// The last word of a fault, as it is printed.
    pub fault_cause: Option<Word>,
}

/// What words ask for.
#[derive(Drop)]
pub enum Order {
    /// A command or a view.
    Line(Line),
    /// The lines of a script.
    Script(ScriptFile),
    /// The lines of standard input, over the project in the database at this path.
    Session(Word),
    /// A check of the database at this path.
    Check(Word),
    /// What is made of a copy of a sound project.
    Export(ExportOrder),
    /// A reading of a file.
    Lint(LintOrder),
    /// An explanation.
    Explain(Topic),
}
