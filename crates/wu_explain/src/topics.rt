//! The topic of words as they are typed, or as the program prints them.

use crate::index::{topic_of, topic_of_any, topic_of_beginning};
use crate::lowered::{MOST_BYTES, lowered};

/// Returns the topic of a column with its value, as a view or a check prints it, by its name; of another word that of a
/// state. `None` if there is neither.
fn topic_of_cell(word: &str) -> Option<&'static str> {
    match word.split_once('=') {
        Some((name, _value)) => topic_of("column", name).or(topic_of("count", name)),
        None => topic_of("state", word),
    }
}

/// Returns the topic of one word: the list of all topics if it is empty. A column may have its value after it.
fn topic_of_word(word: &str) -> Option<&'static str> {
    if word.is_empty() {
        return Some("");
    }
    if word.split_once('=').is_some() {
        return topic_of_cell(word);
    }
    topic_of_any(word)
}

/// Returns the topic of the fault of this number and this name; `None` if there is no such fault.
fn topic_of_numbered(number: &str, name: &str) -> Option<&'static str> {
    let topic = topic_of("number", number)?;
    // the name of F17 alone is a cause of F3
    if topic == "F17" && name == "output" || topic_of("fault", name)? == topic {
        return Some(topic);
    }
    None
}

/// Returns the topic of a fault as it is printed, with its number or without.
fn topic_of_fault(first: &str, second: &str) -> Option<&'static str> {
    topic_of_numbered(first, second).or(topic_of("fault", first))
}

/// Returns the topic of a line that counts, with its number or `-`.
fn topic_of_count(first: &str, second: &str) -> Option<&'static str> {
    match second.as_bytes().first() {
        Some(byte) if byte.is_ascii_digit() || *byte == b'-' => topic_of("count", first),
        _ => None,
    }
}

/// Returns the topic of an answer, of what a lint prints, or of what is said of a command line, by its first word.
fn topic_of_begun(first: &str) -> Option<&'static str> {
    topic_of("answer", first)
        .or(topic_of("reading", first))
        .or(topic_of("usage", first))
}

/// Returns the topic of words by the first two, and by whether further words stand after them.
fn topic_of_two(first: &str, second: &str, goes_on: bool) -> Option<&'static str> {
    if goes_on {
        return topic_of_fault(first, second)
            .or(topic_of_begun(first))
            .or(topic_of("report", first));
    }
    match first {
        _ if second.is_empty() => topic_of_word(first),
        "view" | "file" | "status" => topic_of(first, second),
        _ => topic_of_fault(first, second)
            .or(topic_of_count(first, second))
            .or(topic_of_begun(first)),
    }
}

/// Returns whether these words stand before a fault where it is printed: `=` and a status in a session, or `line` and its
/// number with a colon for a script.
fn stands_before_fault(first: &str, second: &str) -> bool {
    match (first, second.strip_suffix(':')) {
        ("=", None) => topic_of("status", second).is_some(),
        ("line", Some(number)) => number.parse::<u16>().is_ok(),
        _ => false,
    }
}

/// Returns whether these words stand before why a row was skipped where it is printed: `row` and its number with a colon.
fn stands_before_skip(first: &str, second: &str) -> bool {
    match (first, second.strip_suffix(':')) {
        ("row", Some(number)) => number.parse::<u16>().is_ok(),
        _ => false,
    }
}

/// Returns the topic of why something was not done, by the first two words of the reason: a fault, what cannot be done or
/// is unknown, or what is said of a command line.
fn topic_of_reason(first: &str, second: &str) -> Option<&'static str> {
    match first {
        "cannot" | "unknown" => topic_of(first, second),
        "line" | "only" => Some("scripts"),
        _ => topic_of_numbered(first, second).or(topic_of("usage", first)),
    }
}

/// Returns the topic of a line that was not done, as a session or a script reports it: of the reason after the first two
/// words, of what a check reports there, or else of the status or of scripts.
fn topic_of_line(first: &str, second: &str, third: &str, fourth: &str) -> Option<&'static str> {
    let otherwise = match (first, second) {
        ("=", "1") => topic_of("report", third).or(Some("status 1")),
        ("=", _) => topic_of("status", second),
        _ => Some("scripts"),
    };
    topic_of_reason(third, fourth).or(otherwise)
}

/// Returns the view that prints a line of a host, whatever its name, by the column after that; `None` if it is no such
/// line.
fn view_of_host(second: &str) -> Option<&'static str> {
    match second.split_once('=') {
        Some(("class", _value)) => Some("view classes"),
        Some(("total", _value)) => Some("view hosts"),
        _ => None,
    }
}

/// Returns the topic of a line that a view prints, by a state or a column that it has; `None` if it has none.
fn topic_of_row(second: &str, third: &str) -> Option<&'static str> {
    // one view alone prints a mask third
    if third.starts_with("mask=") {
        return Some("view archive");
    }
    topic_of_cell(second).or(topic_of_cell(third))
}

/// Returns the topic of `ok` by the word after it: a check prints the version there, and a lint a path, which may have
/// blanks.
fn topic_of_ok(second: &str) -> Option<&'static str> {
    if second.is_empty() || second.starts_with("version=") {
        Some("checks")
    } else {
        Some("lint")
    }
}

/// Returns the topic of these words in lower case.
fn topic_of_lowered(first: &str, second: &str, third: &str, fourth: &str) -> Option<&'static str> {
    if stands_before_fault(first, second) {
        return topic_of_line(first, second, third, fourth);
    }
    if stands_before_skip(first, second) {
        return topic_of("skip", third);
    }
    if let Some(view) = view_of_host(second) {
        return Some(view);
    }
    if let Some(topic) = topic_of_beginning(&[first, second, third, fourth]) {
        return Some(topic);
    }
    match (first, second) {
        ("made", _) if !second.is_empty() => Some("openings"),
        ("cannot", _) => topic_of("cannot", second),
        ("unknown", word) if !word.is_empty() => topic_of("unknown", word),
        (_, "skipped:") => Some("skips"),
        ("host", _) if third == "errors" => Some("waits"),
        (_, "max_total_results") if third == "is" => Some("template"),
        ("ok", _) => topic_of_ok(second),
        _ => topic_of_two(first, second, !third.is_empty() || !fourth.is_empty()).or(topic_of_row(
            second, third,
        )),
    }
}

/// Returns the topic of these words, in any case, each empty where there is none; `None` if there is no such topic.
pub fn topic_of_words(
    first: &str,
    second: &str,
    third: &str,
    fourth: &str,
) -> Option<&'static str> {
    // as F17 prints it; in other cases it is a cause of F3
    if first == "Output" && second.is_empty() && third.is_empty() {
        return Some("F17");
    }
    let mut first_room = [0; MOST_BYTES];
    let mut second_room = [0; MOST_BYTES];
    let mut third_room = [0; MOST_BYTES];
    let mut fourth_room = [0; MOST_BYTES];
    topic_of_lowered(
        lowered(first, &mut first_room)?,
        lowered(second, &mut second_room)?,
        lowered(third, &mut third_room)?,
        lowered(fourth, &mut fourth_room)?,
    )
}
