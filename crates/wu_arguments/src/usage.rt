//! Why words are no command line.

ghost use Rattle.std.specs.Prelude.{◌≡◌};
ghost use Rattle.wu_arguments.specs.declared.usage.Usage.TheVariants.{Memory};
ghost use Rattle.wu_arguments.specs.Refusals.{IsTold};

use crate::word::Word;
use clap::Error;
use clap::error::ErrorKind;
use std::alloc::{AllocError, Global};

/// Why words are no command line.
#[derive(Drop)]
pub enum Usage {
    /// `clap` refused the words, or they ask for help: the text of its error, of which no contract of `clap` speaks.
    Refused(Word),
    /// What is to be shown is no view.
    UnknownView,
    /// What is to be explained is no topic, with the topic that is near to it.
    UnknownTopic(Option<Word>),
    /// What a file is for is no kind of files.
    UnknownKind,
    /// The words of the process are no UTF-8 text.
    NotText,
    /// A line of a session is too long.
    LongLine,
    /// `clap` took the words, and found no subcommand, no value of an option that has to be given, or no number of 64
    /// bits where one has to be given. Only tests show that this never happens.
    Incomplete,
    /// A growth of memory was refused.
    Memory,
}

impl From<AllocError> for Usage {
    ghost from_gives = { λ _ usage. usage ≡ Memory };

    fn from(_error: AllocError) -> Usage {
        Usage::Memory
    }
}

/// Returns the text of an error of `clap`, unless it is out of memory. Memory for the text may run out too.
pub fn told(alloc: Global, error: &Error) -> Usage
    // An error of `clap` is reported as a refusal, or as out of memory; one of out of memory never
    // as a refusal.
    ensures { IsTold error.now result }
{
    if error.kind() == ErrorKind::OutOfMemory {
        return Usage::Memory;
    }
    match error.to_string(alloc) {
        Ok(text) => Usage::Refused(Word::from_string(text)),
        Err(_) => Usage::Memory,
    }
}
