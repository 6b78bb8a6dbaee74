//! The lines of a script as lines of the command line.

ghost use Rattle.std.specs.Prelude.{◌≡◌, ◌++◌, ◌∷◌, ◌<◌, codes, drop, IfOk, length, map, string_bytes};
ghost use Rattle.wu_arguments.specs.Scripts.{begins_line, command_words, may_be_line, mode_of, mode_of_word, outsider_first, outsider_of_words, outsider_word, ReadsRepeated, ReadsTried, ReadsWords, ReadsWordsOf, stranger_among, stranger_word};

use crate::line::{Asking, Line};
use crate::order::Order;
use crate::refusal::{Outsider, Refusal};
use crate::words::read_words;
use std::alloc::{AllocError, Global};
use wu_feed::Words;

/// Makes the word that names the database.
fn database_word(alloc: Global, db: &str) -> Result<String, AllocError>
    ensures { IfOk result (λ word. string_bytes word ≡ codes "--db=" ++ db.now) }
{
    let mut word = String::from_str(alloc, "--db=")?;
    word.push_str(db)?;
    Ok(word)
}

/// Makes the words of a script's line, after the program's name.
fn words_behind_name(alloc: Global, words: Words) -> Result<Vec<String>, AllocError>
    ensures { IfOk result (λ all. map string_bytes all.items ≡ codes "lintelthyme" ∷ words) }
{
    let name = String::from_str(alloc, "lintelthyme")?;
    let mut all = words.into_vec();
    all.insert(0, name)?;
    Ok(all)
}

/// Makes words of the command line of the words of a script's line: after the program's name, with the database at
/// their end.
fn words_of_command(alloc: Global, db: &str, words: Words) -> Result<Vec<String>, AllocError>
    ensures { IfOk result (λ all. map string_bytes all.items ≡ command_words db.now words) }
{
    let mut all = words_behind_name(alloc, words)?;
    all.push(database_word(alloc, db)?)?;
    Ok(all)
}

/// Returns what a line that begins with this word asks for, if it takes no database and so is no line of a script.
fn outsider_word(word: &str) -> Option<Outsider>
    ensures { result ≡ outsider_word word.now }
{
    match word {
        "help" => Some(Outsider::Help),
        "lint" => Some(Outsider::Lint),
        "explain" => Some(Outsider::Explanation),
        _ => None,
    }
}

/// Returns what a line of these words asks for, if its first word says that it takes no database.
fn outsider_first(words: &[String]) -> Option<Outsider>
    ensures { result ≡ outsider_first (map string_bytes words.now) }
{
    match words.first() {
        Some(word) => outsider_word(word.as_str()),
        None => None,
    }
}

/// Returns what a word asks for that stands in no line: help, or a database of the line's own, as `--db` or `--db=PATH`.
fn stranger_word(word: &str) -> Option<Outsider>
    ensures { result ≡ stranger_word word.now }
{
    match word {
        "--db" => Some(Outsider::Database),
        "--help" | "-h" => Some(Outsider::Help),
        _ if word.as_bytes().starts_with(b"--db=") => Some(Outsider::Database),
        _ => None,
    }
}

/// Returns what the first such word of these asks for.
fn stranger_among(words: &[String]) -> Option<Outsider>
    ensures { result ≡ stranger_among (map string_bytes words.now) }
{
    for word in words {
        if let Some(outsider) = stranger_word(word.as_str()) {
            return Some(outsider);
        }
    }
    None
}

/// Returns what a line of these words asks for, if one of them says that it is none of a script.
fn outsider_of_words(words: &[String]) -> Option<Outsider>
    ensures { result ≡ outsider_of_words (map string_bytes words.now) }
{
    match outsider_first(words) {
        Some(outsider) => Some(outsider),
        None => stranger_among(words),
    }
}

/// Returns the line that these words of a script ask for.
fn line_of_words(alloc: Global, db: &str, words: Words) -> Result<Line, Refusal>
    ensures { ReadsWords db.now words result }
{
    if let Some(outsider) = outsider_of_words(words.as_slice()) {
        return Err(Refusal::Outsider(outsider));
    }
    let words = words_of_command(alloc, db, words)?;
    match read_words(alloc, words.as_slice())? {
        Order::Line(line) => Ok(line),
        Order::Script(_) => Err(Refusal::Outsider(Outsider::Script)),
        Order::Session(_) => Err(Refusal::Outsider(Outsider::Session)),
        Order::Check(_) => Err(Refusal::Outsider(Outsider::Check)),
        Order::Export(asked) => Err(Refusal::Outsider(Outsider::Export(asked.export))),
        Order::Lint(_) => Err(Refusal::Outsider(Outsider::Lint)),
        Order::Explain(_) => Err(Refusal::Outsider(Outsider::Explanation)),
    }
}

/// Returns whether a word may begin what is repeated or tried: it is neither `repeat` nor `try`.
fn begins_line(word: &str) -> bool
    ensures { result ≡ begins_line word.now }
{
    match word {
        "repeat" | "try" => false,
        _ => true,
    }
}

/// Returns whether these words may be what is repeated or tried: there is a first one, and that may begin it.
fn may_be_line(words: &[String]) -> bool
    ensures { result ≡ may_be_line (map string_bytes words.now) }
{
    match words.first() {
        Some(word) => begins_line(word.as_str()),
        None => false,
    }
}

/// Returns the pass that these words of a script ask for, which stand after `repeat`.
fn pass_of_words(alloc: Global, db: &str, words: Words) -> Result<Line, Refusal>
    ensures { ReadsRepeated db.now words result }
{
    if !may_be_line(words.as_slice()) {
        return Err(Refusal::Repeat);
    }
    match line_of_words(alloc, db, words) {
        Ok(line) => match line.asking {
            Asking::Pass { .. } => Ok(line),
            _ => Err(Refusal::Repeat),
        },
        Err(why) => Err(why.of_repeated()),
    }
}

/// Returns the line that these words of a script ask for, which stand after `try`.
fn tried_of_words(alloc: Global, db: &str, words: Words) -> Result<Line, Refusal>
    ensures { ReadsTried db.now words result }
{
    if !may_be_line(words.as_slice()) {
        return Err(Refusal::Try);
    }
    match line_of_words(alloc, db, words) {
        Ok(line) => Ok(line),
        Err(why) => Err(why.of_tried()),
    }
}

/// How a line of a script is done.
#[derive(Clone, Copy, PartialEq, Eq)]
pub enum Mode {
    /// Once; each fault ends the script.
    Once,
    /// Until its pass handles less than its limit; each fault ends the script.
    Repeated,
    /// Once; the script goes on after a refusal.
    Tried,
}

/// Returns how a line is done that begins with this word.
fn mode_of_word(word: &str) -> Mode
    ensures { result ≡ mode_of_word word.now }
{
    match word {
        "repeat" => Mode::Repeated,
        "try" => Mode::Tried,
        _ => Mode::Once,
    }
}

/// Returns how the line of these words is done, by the first of them.
pub fn mode_of(words: &[String]) -> Mode
    // The first word says how: `repeat` and `try` do, and any other word is of a line that is done
    // once.
    ensures { result ≡ mode_of (map string_bytes words.now) }
{
    match words.first() {
        Some(word) => mode_of_word(word.as_str()),
        None => Mode::Once,
    }
}

/// Returns the words without the first one, of which there is one.
fn without_first(words: Words) -> Words
    requires { 0 < length words }
    ensures { result ≡ drop 1 words }
{
    let mut words = words.into_vec();
    words.remove(0);
    Words::from_vec(words)
}

/// Returns the line that a script's words ask for, which is done in this way.
pub fn line_of_all(alloc: Global, db: &str, words: Words, mode: Mode) -> Result<Line, Refusal>
    // The first word of the line says how it is done.
    requires { mode ≡ mode_of words }
    // A line is the command line of its words, with the program's name before and the database
    // after. It is refused by `clap`, for an unknown view, a missing value, what stands in no
    // script, or out of memory. Only a pass can be repeated, and no export tried.
    ensures { ReadsWordsOf db.now words mode result }
{
    match mode {
        Mode::Once => line_of_words(alloc, db, words),
        Mode::Repeated => pass_of_words(alloc, db, without_first(words)),
        Mode::Tried => tried_of_words(alloc, db, without_first(words)),
    }
}
