//! The topic that words nearly name.

use crate::index::{Entry, INDEX};
use crate::lowered::{MOST_BYTES, lowered};
use std::alloc::Global;
use strsim::osa_distance;

/// How many letters of a name a word has at least that is taken for its beginning. A name of fewer letters, as that of
/// a status, is near to itself alone.
const FEWEST_LETTERS: usize = 3;

/// Returns whether a name begins with this word, which has enough letters for that.
fn is_beginning(word: &str, name: &str) -> bool {
    FEWEST_LETTERS <= word.len() && name.starts_with(word)
}

/// Returns whether one edit makes this word of a name: a letter more, less or another, or two neighbouring letters
/// exchanged. Out of memory it is `false`.
fn is_one_edit_from(alloc: Global, word: &str, name: &str) -> bool {
    FEWEST_LETTERS <= name.len() && osa_distance(alloc, word, name).is_ok_and(|edits| edits == 1)
}

/// Returns whether a word is a name, its beginning, or one edit from it. Out of memory it may be `false`.
fn is_near(alloc: Global, word: &str, name: &str) -> bool {
    word == name || is_beginning(word, name) || is_one_edit_from(alloc, word, name)
}

/// Returns the first of these words that begins with this one.
fn begun_among(words: &'static str, word: &str) -> Option<&'static str> {
    for name in words.split(' ') {
        if is_beginning(word, name) {
            return Some(name);
        }
    }
    None
}

/// Returns the first of these words that is one edit from this one. Out of memory it is `None`.
fn one_edit_among(alloc: Global, words: &'static str, word: &str) -> Option<&'static str> {
    for name in words.split(' ') {
        if is_one_edit_from(alloc, word, name) {
            return Some(name);
        }
    }
    None
}

/// Returns the first word of the index that begins with this one. The number of a fault is near to no word.
fn begun_by(word: &str) -> Option<&'static str> {
    for line in INDEX.lines() {
        if let Some(entry) = Entry::of_line(line)
            && entry.kind != "number"
            && let Some(name) = begun_among(entry.words, word)
        {
            return Some(name);
        }
    }
    None
}

/// Returns the first word of the index that is one edit from this one. The number of a fault is near to no word. Out of
/// memory it is `None`.
fn one_edit_from(alloc: Global, word: &str) -> Option<&'static str> {
    for line in INDEX.lines() {
        if let Some(entry) = Entry::of_line(line)
            && entry.kind != "number"
            && let Some(name) = one_edit_among(alloc, entry.words, word)
        {
            return Some(name);
        }
    }
    None
}

/// Returns the first topic with a kind that the first word is near to, and with a name that the second word is near to;
/// where the second word is empty, the first topic of the kind.
fn nearest_of_kind(alloc: Global, first: &str, second: &str) -> Option<&'static str> {
    for line in INDEX.lines() {
        if let Some(entry) = Entry::of_line(line)
            && let Some((kind, name)) = entry.topic.split_once(' ')
            && is_near(alloc, first, kind)
            && (second.is_empty() || is_near(alloc, second, name))
        {
            return Some(entry.topic);
        }
    }
    None
}

/// Returns the topic that a word nearly names: the first that it begins, else the first that is one edit from it, else
/// the first of the kind that it is near to.
fn nearest_to_word(alloc: Global, word: &str) -> Option<&'static str> {
    if let Some(name) = begun_by(word) {
        return Some(name);
    }
    if let Some(name) = one_edit_from(alloc, word) {
        return Some(name);
    }
    nearest_of_kind(alloc, word, "")
}

/// Returns the topic that these words nearly name, as it is typed behind `explain`; the words are in any case, and the
/// second one is empty where there is none. A word is near to a name that it is, that begins with three or more of its
/// letters, or that differs by one edit: a letter more, less or another, or two neighbouring letters exchanged.
///
/// One word names the first topic that is near, as `hosts`. `file`, or a word that is near to it alone, names the first of
/// its kind, `file jobs`; `view` and `status` are topics of their own. Of two words the first
/// has to be near to `view`, `file` or `status`, and the second to a name of that kind: `view hosts`. Returns `None` if
/// there is no such topic, or if memory runs out. No clause says which topic is near.
pub fn nearest(alloc: Global, first: &str, second: &str) -> Option<&'static str> {
    let mut first_room = [0; MOST_BYTES];
    let mut second_room = [0; MOST_BYTES];
    let first = lowered(first, &mut first_room)?;
    let second = lowered(second, &mut second_room)?;
    if second.is_empty() {
        nearest_to_word(alloc, first)
    } else {
        nearest_of_kind(alloc, first, second)
    }
}
