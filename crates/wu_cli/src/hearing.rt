//! The lines of a session, as they are read.

ghost use Rattle.std.specs.Prelude.{◌≡◌, ℕ, IfOk, List, OnOk, option_map, slice_get};
ghost use Rattle.wu_cli.specs.Hearing.{heard_lines, heard_text, HearsNext, IsKeptOf, IsPartOfLine, IsUnread, kept_line, KeepsLine, TakesPart};

use memchr::memchr;
use std::alloc::Global;
use std::io::{self, BufRead, ErrorKind};
use wu_arguments::{Refusal, Usage};
use wu_core::{Fault, FileCause};

/// How many bytes a line of a session has at most.
pub const LONGEST_LINE: usize = 65_536;

/// What is heard of a line: its text, without its end; or why it has none.
pub type Heard = Result<Vec<u8>, Refusal>;

/// Returns how many of these bytes a line takes, with its end, and whether it ends there. Without bytes it ends too.
fn part_of_line(ready: &[u8]) -> (usize, bool)
    ensures { IsPartOfLine ready.now result.0 result.1 }
{
    match memchr(b'\n', ready) {
        Some(place) => (place + 1, true),
        None => (ready.len(), ready.is_empty()),
    }
}

/// Keeps a part of a line, as far as 65,537 bytes are kept of it.
fn keep_part(text: &mut Vec<u8>, part: &[u8]) -> io::Result<()>
    ensures { OnOk result (text.new.items ≡ kept_line text.old.items part.now) }
{
    let room = (LONGEST_LINE + 1).saturating_sub(text.len());
    text.extend_from_slice(&part[..part.len().min(room)])?;
    Ok(())
}

/// Takes the part of a line that is ready, and keeps it. Returns whether the line ends there.
fn take_part<R: BufRead>(input: &mut R, text: &mut Vec<u8>) -> io::Result<bool>
    ensures { IfOk result (λ ended. TakesPart (R.remaining input.old) (R.remaining input.new)
        text.old.items text.new.items ended) }
{
    let ready = match input.fill_buf() {
        Ok(ready) => ready,
        Err(error) if error.kind() == ErrorKind::Interrupted => return Ok(false),
        Err(error) => return Err(error),
    };
    let (length, ended) = part_of_line(ready);
    keep_part(text, &ready[..length])?;
    input.consume(length);
    Ok(ended)
}

/// Reads a line to its end. Returns its bytes with its end, and of a longer line the first 65,537.
fn take_line<R: BufRead>(alloc: Global, input: &mut R) -> io::Result<Vec<u8>>
    ensures { IfOk result (λ text.
        KeepsLine (R.remaining input.old) (R.remaining input.new) text.items) }
{
    let mut text = Vec::new(alloc);
    for _ in 0..u64::MAX {
        if take_part(input, &mut text)? {
            return Ok(text);
        }
    }
    Err(ErrorKind::Other.into())
}

/// Returns what is heard of the bytes that were kept of a line; `None` without bytes, at the end of the input.
fn heard_of(mut text: Vec<u8>) -> Option<Heard>
    ensures { (bytes : List ℕ) → IsKeptOf bytes text.items
        → option_map heard_text result ≡ slice_get (heard_lines bytes) 0 }
{
    if text.last() == Some(&b'\n') {
        text.pop();
        return Some(Ok(text));
    }
    if text.len() > LONGEST_LINE {
        return Some(Err(Refusal::Words(Usage::LongLine)));
    }
    if text.is_empty() {
        None
    } else {
        Some(Ok(text))
    }
}

/// Returns that the input cannot be read: `BadFile` with row 0 and `Unreadable`.
pub fn unreadable() -> Refusal
    // It is one of the refusals of an input that cannot be read.
    ensures { IsUnread result }
{
    Refusal::Fault(Fault::BadFile {
        row: 0,
        cause: FileCause::Unreadable,
    })
}

/// Returns why the input could not be read: `Memory`, or else that it is unreadable.
fn unread(error: &io::Error) -> Refusal
    ensures { IsUnread result }
{
    match error.kind() {
        ErrorKind::OutOfMemory => Refusal::Fault(Fault::Memory),
        _ => unreadable(),
    }
}

/// Reads the next line, and holds at most 65,537 bytes of it. Returns what is heard of it; `None` at the end of the input;
/// `Memory`, or `BadFile` with row 0 and `Unreadable`, where the input cannot be read.
pub fn hear<R: BufRead>(alloc: Global, input: &mut R) -> Result<Option<Heard>, Refusal>
    // The next line is taken, and what follows it is left; or the input is at its end, or cannot be
    // read.
    ensures { HearsNext (R.remaining input.old) (R.remaining input.new) result }
{
    match take_line(alloc, input) {
        Ok(text) => Ok(heard_of(text)),
        Err(error) => Err(unread(&error)),
    }
}
