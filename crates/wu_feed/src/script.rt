//! Scripts: a command on each line, with its words separated by blanks.

ghost use Rattle.std.specs.Prelude.{◌≡◌, ◌==◌, IfErr, IfOk, None, Ok, Some, map, option_map};
ghost use Rattle.std.specs.List.{enumerate_from, filter_map, list_all, slice_split};
ghost use Rattle.std.specs.Str.Lines.{strip_carriage_return};
ghost use Rattle.csv.specs.Machine.{line_feed};
ghost use Rattle.csv.specs.Records.{fields_of};
ghost use Rattle.wu_core.specs.Reads.{FailsForMemory, IsOrWantsMemory};
ghost use Rattle.wu_feed.specs.Rows.{IsFileFault, TellsTooLong};
ghost use Rattle.wu_feed.specs.Scripts.{field_cause, fields_in, first_read, is_blank, is_plain_byte, line_with, script_line_of, script_of, text_of_line, words_among, words_at, TellsLate};

use crate::limits::{LONGEST_FILE, MOST_LINES};
use crate::records::{fault_at, read_record};
use crate::rows::Rows;
use crate::words::Words;
use csv::{ByteRecord, ReaderBuilder, Terminator};
use std::alloc::{AllocError, Global};
use wu_core::{Fault, FileCause};

/// Why a line of a script has no words.
#[derive(Clone, Copy, PartialEq, Eq)]
pub enum LineCause {
    /// A quote is not closed on its line.
    OpenQuote,
    /// A word is no UTF-8 text.
    NotText,
    /// The line comes after the last one that a script may have.
    TooManyLines,
}

/// A line of a script that has words, or a cause for which it has none.
#[derive(Drop)]
pub struct ScriptLine {
    /// The number of the line in its text, from 1.
    pub number: u64,
    pub words: Result<Words, LineCause>,
}

/// Returns the line without the carriage return at its end, if it has one.
fn without_return(line: &[u8]) -> &[u8]
    ensures { result.now ≡ strip_carriage_return line.now }
{
    match line {
        [front @ .., b'\r'] => front,
        _ => line,
    }
}

/// Returns the text of a line alone: without the carriage return at its end, and with a line feed.
fn as_text(alloc: Global, line: &[u8]) -> Result<Vec<u8>, AllocError>
    ensures { IfOk result (λ text. text.items ≡ text_of_line line.now) }
{
    let mut text = Vec::new(alloc);
    text.extend_from_slice(without_return(line))?;
    text.push(b'\n')?;
    Ok(text)
}

/// Reads the first record of a text; returns `None` if there is no more than a comment. The only fault is `Memory`.
fn first_record(alloc: Global, text: &[u8]) -> Result<Option<ByteRecord>, Fault>
    ensures found { IfOk result (λ row. option_map fields_of row
        ≡ option_map (λ read. read.0) (first_read text.now)) }
    ensures refused { FailsForMemory result }
{
    let mut reader = ReaderBuilder::new()
        .has_headers(false)
        .flexible(true)
        .delimiter(b' ')
        .comment(Some(b'#'))
        .terminator(Terminator::Any(b'\n'))
        .from_reader(alloc, text);
    read_record(alloc, &mut reader)
}

/// Reads the fields of a line. The only fault is `Memory`.
fn read_fields(alloc: Global, line: &[u8]) -> Result<ByteRecord, Fault>
    ensures found { IfOk result (λ row. fields_of row ≡ fields_in line.now) }
    ensures refused { FailsForMemory result }
{
    let text = as_text(alloc, line)?;
    match first_record(alloc, text.as_slice())? {
        Some(row) => Ok(row),
        // A comment, or nothing.
        None => Ok(ByteRecord::new(alloc)),
    }
}

/// Returns the field as a word. An open quote takes in the line feed, and is a cause.
fn read_word(field: &[u8]) -> Result<&str, LineCause>
    // A result is the field itself, which has no cause.
    ensures word { IfOk result (λ word. (word.now ≡ field.now) × (field_cause field.now ≡ None)) }
    // A fault is the cause of the field.
    ensures cause { IfErr result (λ cause. field_cause field.now ≡ Some cause) }
{
    if field.contains(&b'\n') {
        return Err(LineCause::OpenQuote);
    }
    match std::str::from_utf8(field) {
        Ok(word) => Ok(word),
        Err(_) => Err(LineCause::NotText),
    }
}

/// Returns the words among the fields of a line: those that are not empty. The first field that is no word decides.
fn words_among(alloc: Global, row: &ByteRecord) -> Result<Result<Words, LineCause>, Fault>
    ensures { IsOrWantsMemory result (Ok (words_among (fields_of row.now))) }
{
    let mut words = Vec::new(alloc);
    for field in row {
        let word = match read_word(field) {
            Ok(word) => word,
            Err(cause) => return Ok(Err(cause)),
        };
        if !word.is_empty() {
            words.push(String::from_str(alloc, word)?)?;
        }
    }
    Ok(Ok(Words::from_vec(words)))
}

/// Returns whether the line has no byte but blanks and those from `$` on that are ASCII: no quote and no comment.
fn is_plain(line: &[u8]) -> bool
    ensures { result ≡ list_all is_plain_byte line.now }
{
    line.iter()
        .all(|byte| *byte == b' ' || (*byte > b'#' && *byte < 128))
}

/// Returns the parts of a line between its blanks.
fn split_blanks(alloc: Global, line: &[u8]) -> Result<Vec<&[u8]>, AllocError>
    ensures { IfOk result (λ fields. map (λ field. field.now) fields.items
        ≡ slice_split is_blank line.now) }
{
    line.split(|byte| *byte == b' ').collect(alloc)
}

/// Returns the words among these fields: those that are not empty. The first field that is no word decides.
fn words_of(alloc: Global, fields: &[&[u8]]) -> Result<Result<Words, LineCause>, Fault>
    ensures { IsOrWantsMemory result (Ok (words_among (map (λ field. field.now) fields.now))) }
{
    let mut words = Vec::new(alloc);
    for field in fields {
        let word = match read_word(field) {
            Ok(word) => word,
            Err(cause) => return Ok(Err(cause)),
        };
        if !word.is_empty() {
            words.push(String::from_str(alloc, word)?)?;
        }
    }
    Ok(Ok(Words::from_vec(words)))
}

/// Reads the words of a line. A line without quotes and comments has them between its blanks, and needs no reader.
fn read_line_words(alloc: Global, line: &[u8]) -> Result<Result<Words, LineCause>, Fault>
    ensures { IsOrWantsMemory result (Ok (words_among (fields_in line.now))) }
{
    if is_plain(line) {
        let fields = split_blanks(alloc, line)?;
        return words_of(alloc, fields.as_slice());
    }
    let row = read_fields(alloc, line)?;
    words_among(alloc, &row)
}

/// Reads the words of the line of this number, or returns the cause for which it has none.
fn read_words(alloc: Global, number: u64, line: &[u8]) -> Result<Result<Words, LineCause>, Fault>
    // The line reads as its words or its cause, or as out of memory.
    ensures exact { IsOrWantsMemory result (Ok (words_at number line.now)) }
    // A line after the thousandth has that cause, even if the program is out of memory.
    ensures late { TellsLate number result (words_at number line.now) }
{
    if number > MOST_LINES as u64 {
        return Ok(Err(LineCause::TooManyLines));
    }
    read_line_words(alloc, line)
}

/// Returns the line with its words or its cause; `None` for a line without words.
fn line_with(number: u64, words: Result<Words, LineCause>) -> Option<ScriptLine>
    ensures { result ≡ line_with number words }
{
    match words {
        Ok(words) if words.as_slice().is_empty() => None,
        words => Some(ScriptLine { number, words }),
    }
}

/// Reads the line of this number; returns `None` for a line without words.
fn read_line(alloc: Global, number: u64, line: &[u8]) -> Result<Option<ScriptLine>, Fault>
    // The line reads as its words or its cause, or as out of memory; a line without words gives
    // `None`.
    ensures exact { IsOrWantsMemory result (Ok (script_line_of (number, line.now))) }
    // A line after the thousandth has that cause, even if the program is out of memory, unless it
    // has no byte.
    ensures late { TellsLate number result (script_line_of (number, line.now)) }
{
    if line.is_empty() {
        return Ok(None);
    }
    let words = read_words(alloc, number, line)?;
    Ok(line_with(number, words))
}

/// Reads the lines of a text, numbered from 1. The only fault is `Memory`.
fn read_lines(alloc: Global, lines: &[&[u8]]) -> Result<Rows<ScriptLine>, Fault>
    ensures { IsOrWantsMemory result (Ok (filter_map script_line_of
        (enumerate_from 1 (map (λ line. line.now) lines.now)))) }
{
    let mut items = Vec::new(alloc);
    let mut number = 0;
    for line in lines {
        number += 1;
        if let Some(item) = read_line(alloc, number, line)? {
            items.push(item)?;
        }
    }
    Ok(Rows::from_vec(items))
}

/// Returns the parts of a text between its line feeds.
fn split_lines(alloc: Global, text: &[u8]) -> Result<Vec<&[u8]>, AllocError>
    ensures { IfOk result (λ lines. map (λ line. line.now) lines.items
        ≡ slice_split (λ byte. byte == line_feed) text.now) }
{
    text.split(|byte| *byte == b'\n').collect(alloc)
}

/// Reads the lines of a script of at most 1,048,576 bytes, each with its number, from 1, and its words. Words are
/// separated by blanks. A word in double quotes may contain blanks, and quotes written twice; no word is empty. Lines
/// that begin with `#` and lines without words are left out.
///
/// A faulty line has a cause in place of its words: an open quote, a word that is no UTF-8 text, or a number above
/// 1,000, which comes first. A longer text is `BadFile` with row 0 and `TooLong`.
pub fn read_script(alloc: Global, text: &[u8]) -> Result<Rows<ScriptLine>, Fault>
    // A script reads as its lines between line feeds, numbered from 1, without comments and lines
    // without a word, or as out of memory. Words are the fields that `csv` reads with a blank as
    // separator. A line with an open quote, with a word that is no text, or after the thousandth
    // has this cause in place of words.
    ensures exact { IsOrWantsMemory result (script_of text.now) }
    // A script above 1,048,576 bytes is refused as too long, even if the program is out of memory.
    ensures long { TellsTooLong result text.now }
    // A fault is `Memory`, or `BadFile` with a row and a cause.
    ensures told { IfErr result IsFileFault }
{
    if text.len() > LONGEST_FILE {
        return Err(fault_at(0, FileCause::TooLong));
    }
    let lines = split_lines(alloc, text)?;
    read_lines(alloc, lines.as_slice())
}
