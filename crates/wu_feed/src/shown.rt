//! The field of a file that a fault refuses, as a report shows it.

ghost use Rattle.std.specs.Prelude.{◌≡◌, IfOk, option_map, string_bytes};
ghost use Rattle.std.specs.List.{list_all};
ghost use Rattle.wu_core.specs.Reads.{FailsForMemory};
ghost use Rattle.wu_feed.specs.Shown.{is_printable, is_shown, shown, shown_at};

use crate::limits::MOST_SHOWN;
use crate::records::first_records;
use std::alloc::{AllocError, Global};
use wu_core::Fault;

/// Returns whether each byte of the field is a printable ASCII character.
fn is_printable(field: &[u8]) -> bool
    ensures { result ≡ list_all is_printable field.now }
{
    field.iter().all(|byte| b' ' <= *byte && *byte <= b'~')
}

/// Returns whether a report shows the field: 1 to 64 printable ASCII characters.
fn is_shown(field: &[u8]) -> bool
    ensures { result ≡ is_shown field.now }
{
    1 <= field.len() && field.len() <= MOST_SHOWN && is_printable(field)
}

/// Copies the text of a field that is shown; returns `None` for any other field.
fn shown(alloc: Global, field: &[u8]) -> Result<Option<String>, AllocError>
    ensures { IfOk result (λ text. option_map string_bytes text ≡ shown field.now) }
{
    if !is_shown(field) {
        return Ok(None);
    }
    match std::str::from_utf8(field) {
        Ok(text) => Ok(Some(String::from_str(alloc, text)?)),
        Err(_) => Ok(None),
    }
}

/// Copies the text of the field in a row and a column of a file, both counted from 0 and with the header as row 0.
/// Returns `None` where the file has no such field or a report does not show it. The only fault is `Memory`.
pub fn shown_field(
    alloc: Global,
    file: &[u8],
    row: usize,
    column: usize,
) -> Result<Option<String>, Fault>
    // The text is that of the field, which is there and has 1 to 64 printable ASCII characters; of
    // any other there is none.
    ensures found { IfOk result (λ text.
        option_map string_bytes text ≡ shown_at file.now row column) }
    // The only fault is `Memory`.
    ensures refused { FailsForMemory result }
{
    let records = first_records(alloc, file)?;
    let Some(record) = records.as_slice().get(row) else {
        return Ok(None);
    };
    match record.get(column) {
        Some(field) => Ok(shown(alloc, field)?),
        None => Ok(None),
    }
}
