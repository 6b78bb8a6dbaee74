//! What is imported: a batch of jobs, or a file of sends, of reports or of classes of hosts.

ghost use Rattle.std.specs.Prelude.{◌≡◌};
ghost use Rattle.wu_core.specs.Codes.{Decodes, import_kind_code};
ghost use Rattle.wu_core.specs.Words.{import_kind_word};
ghost use Rattle.wu_core.specs.World.{last_skip};

/// What an imported file holds.
#[derive(Clone, Copy, PartialEq, Eq)]
pub enum ImportKind {
    Batch = 1,
    Sent = 2,
    Reported = 3,
    Classes = 4,
}

impl ImportKind {
    /// Returns the number of the kind in this project, as a table stores it: 1 to 4.
    pub fn code(self) -> u32
        // The result is the number of the kind.
        ensures { result ≡ import_kind_code self }
    {
        self as u32
    }

    /// Returns the kind of a stored number, or `None` if no kind has it.
    pub fn from_code(code: u32) -> Option<Self>
        // The number of a kind reads as that kind, and any other number as `None`.
        ensures { Decodes import_kind_code code result }
    {
        match code {
            1 => Some(ImportKind::Batch),
            2 => Some(ImportKind::Sent),
            3 => Some(ImportKind::Reported),
            4 => Some(ImportKind::Classes),
            _ => None,
        }
    }

    /// Returns the word of the subcommand that imports such a file, as views and checks print it.
    pub fn word(self) -> &'static str
        // The word is that of the kind.
        ensures { result.now ≡ import_kind_word self }
    {
        match self {
            ImportKind::Batch => "batch",
            ImportKind::Sent => "sent",
            ImportKind::Reported => "reported",
            ImportKind::Classes => "classes",
        }
    }

    /// Returns the highest number of a verdict on a row of such a file: 0 where no row is skipped.
    pub fn last_skip(self) -> u8
        // Sends have four reasons to skip a row, reports five, batches and classes none.
        ensures { result ≡ last_skip self }
    {
        match self {
            ImportKind::Batch | ImportKind::Classes => 0,
            ImportKind::Sent => 4,
            ImportKind::Reported => 5,
        }
    }
}
