//! Why a line of a session was not done.

ghost use Rattle.std.specs.Prelude.{◌≡◌};
ghost use Rattle.wu_report.specs.Writing.{WritesTo};
ghost use Rattle.wu_cli.specs.Answering.{cause_line, cuts_text, first_line, line_trouble_status, refused_text};

use crate::texts::{text_of_refusal, write_line};
use crate::trouble::{Trouble, write_trouble};
use std::io::Write;
use wu_arguments::{Refusal, Usage};
use wu_core::Fault;

/// Why a line of a session was not done.
pub enum LineTrouble {
    /// It is no line, or it is refused, or it failed with a fault.
    Refused(Refusal),
    /// The export that it asks for is not made.
    Export(Trouble),
}

// It is written out, so that a caller does not prove again how each part is dropped.
impl Drop for LineTrouble {
    fn drop(self) {
        match self {
            LineTrouble::Refused(_why) => {}
            LineTrouble::Export(_trouble) => {}
        }
    }
}

/// Returns the first line of a text, without its end.
fn first_line(text: &str) -> &str
    ensures { result.now ≡ first_line text.now }
{
    match text.split_once('\n') {
        Some((line, _)) => line,
        None => text,
    }
}

/// Writes why a line is refused, on one line: of what clap prints the first line.
fn write_refused<W: Write>(out: &mut W, why: &Refusal) -> Result<(), Fault>
    ensures { WritesTo W.contents out.old out.new (refused_text why.now) result }
{
    match why {
        Refusal::Words(Usage::Refused(text)) => write_line(out, first_line(text.as_str())),
        _ => text_of_refusal(out, why),
    }
}

impl LineTrouble {
    /// Returns whether it is that the output failed, so that the text of the line was cut.
    pub fn cuts(&self) -> bool
        // It cuts the text exactly if it is a refusal with the fault of the output.
        ensures { result ≡ cuts_text self.now }
    {
        match self {
            LineTrouble::Refused(Refusal::Fault(Fault::Output)) => true,
            _ => false,
        }
    }

    /// Returns the status that answers the line, which is that of the refusal or the trouble.
    pub fn status(&self) -> u8
        // The status is that of the refusal, or of why there is no export.
        ensures { result ≡ line_trouble_status self.now }
    {
        match self {
            LineTrouble::Refused(why) => why.status(),
            LineTrouble::Export(trouble) => trouble.status(),
        }
    }

    /// Writes it on one line, and flushes.
    pub fn write<W: Write>(&self, out: &mut W) -> Result<(), Fault>
        // With Ok exactly its line is written, and else a prefix of it.
        ensures { WritesTo W.contents out.old out.new (cause_line self.now) result }
    {
        match self {
            LineTrouble::Refused(why) => write_refused(out, why),
            LineTrouble::Export(trouble) => write_trouble(trouble, out),
        }
    }
}
