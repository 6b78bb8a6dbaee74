//! What `lintelthyme explain` prints: what each fault, status, view, file and key means, what stands afterwards, and
//! what to do. The texts stand here alone; `tools/docs` holds `docs/OPERATING.md` against them.
#![tactic(auto)]

ghost use Rattle.std.specs.Prelude.{◌≤◌, IfSome, length};

mod faults;
mod files;
mod index;
mod lowered;
mod near;
mod statuses;
mod subjects;
mod topics;
mod views;

use faults::fault_text;
use files::file_text;
pub use near::nearest;
use statuses::status_text;
use subjects::subject_text;
use topics::topic_of_words;
use views::view_text;

/// Returns the text of a topic: of a view, a file or a status by its kind and its name, of a fault by its number, of
/// another subject by its name; of the empty topic the list of all. Returns `None` if there is no such topic.
fn text_of<'a>(topic: &str) -> Option<&'a str>
    // A text that is returned is not empty.
    ensures { IfSome result (λ text. 1 ≤ length text.now) }
{
    match topic.split_once(' ') {
        Some(("view", name)) => view_text(name),
        Some(("file", name)) => file_text(name),
        Some(("status", name)) => status_text(name),
        _ => fault_text(topic).or(subject_text(topic)),
    }
}

/// Returns the text up to its first blank, and what stands after that blank.
fn first_word(text: &str) -> (&str, &str) {
    text.split_once(' ').unwrap_or((text, ""))
}

/// Returns the explanation of a topic: its words, in any case, each empty where there is none. Without a word it is the
/// list of all topics. The first word may hold all of them, after blanks, as where they are quoted. A fault may go on
/// with further words, as it is printed, and its number may be left out. It may also stand after `=` and a status, as a
/// session prints it, or after `line` and `NUMBER:`, as it is printed of a script. Why a row was skipped may stand after
/// `row` and `NUMBER:`. What begins with `cannot` or `unknown` is explained by the word after it. By its first word is
/// explained what answers say, and what a check, a backup, outputs, a lint or the reading of a command line report. A line
/// of a host is explained by its view. Why a database cannot be opened is explained by the words that begin it, and so is
/// a line that a script or a session does not take. Returns `None` if there is no such topic.
pub fn explanation<'a>(first: &str, second: &str, third: &str, fourth: &str) -> Option<&'a str>
    // A text that is returned is not empty.
    ensures { IfSome result (λ text. 1 ≤ length text.now) }
{
    if !second.is_empty() {
        return text_of(topic_of_words(first, second, third, fourth)?);
    }
    let (first, rest) = first_word(first.trim_start());
    let (second, rest) = first_word(rest);
    let (third, rest) = first_word(rest);
    let (fourth, _) = first_word(rest);
    text_of(topic_of_words(first, second, third, fourth)?)
}
