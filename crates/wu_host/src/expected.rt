//! How many answers a line or a script gives, as far as its words say so before it is done. The progress line shows it,
//! and no clause speaks of it.

use crate::file::read_file;
use std::fs;
use wu_arguments::{Asking, Order, ScriptFile};
use wu_feed::{LONGEST_FILE, ScriptLine, read_script};

/// How many answers a cycle gives: one a pass.
const ANSWERS_OF_CYCLE: u64 = 7;

/// The number of answers that are expected.
#[derive(Clone, Copy)]
pub struct Expected {
    pub answers: u64,
    /// Whether there may be more, since a pass is repeated or a cycle is tried.
    pub may_be_more: bool,
}

/// Returns how many answers a line of a script gives at least.
fn of_script_line(line: &ScriptLine) -> Expected {
    let first = match &line.words {
        Ok(words) => words.as_slice().first(),
        Err(_) => None,
    };
    match first {
        Some(word) if word.as_str() == "cycle" => Expected {
            answers: ANSWERS_OF_CYCLE,
            may_be_more: false,
        },
        Some(word) => Expected {
            answers: 1,
            may_be_more: word.as_str() == "repeat" || word.as_str() == "try",
        },
        None => Expected {
            answers: 0,
            may_be_more: false,
        },
    }
}

/// Returns how many answers a script gives at least. Only a file is read, since a pipe can be read once alone.
fn of_script(rt: &HostRuntime, script: &ScriptFile) -> Option<Expected> {
    let path = script.file.as_str();
    if !fs::metadata(rt, path).ok()?.is_file() {
        return None;
    }
    let text = read_file(rt, path, LONGEST_FILE).ok()??;
    let lines = read_script(rt.alloc(), text.as_slice()).ok()?;
    let mut expected = Expected {
        answers: 0,
        may_be_more: false,
    };
    for line in lines.as_slice() {
        let more = of_script_line(line);
        expected.answers = expected.answers.saturating_add(more.answers);
        expected.may_be_more = expected.may_be_more || more.may_be_more;
    }
    Some(expected)
}

/// Returns how many answers a cycle or a script gives at least; `None` for other words, and where it is not known.
pub fn expected_of(rt: &HostRuntime, order: &Order) -> Option<Expected> {
    match order {
        Order::Line(line) => match line.asking {
            Asking::Cycle { .. } => Some(Expected {
                answers: ANSWERS_OF_CYCLE,
                may_be_more: false,
            }),
            _ => None,
        },
        Order::Script(script) => of_script(rt, script),
        _ => None,
    }
}
