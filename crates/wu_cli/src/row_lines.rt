//! In which line of a file its rows stand: empty lines are no rows.

ghost use Rattle.std.specs.Prelude.{◌≡◌, ◌==◌, IfOk, map};
ghost use Rattle.std.specs.List.{slice_split};
ghost use Rattle.wu_cli.specs.RowLines.{holds_row, line_at_row, line_in_file};

use std::alloc::{AllocError, Global};

/// Returns whether a line of a file holds a row: it is neither empty nor a carriage return alone.
fn holds_row(line: &[u8]) -> bool
    ensures { result ≡ holds_row line.now }
{
    match line {
        [] | [b'\r'] => false,
        _ => true,
    }
}

/// Returns which of these lines, from 1, holds the row of this number, from 1; 0 if there are not so many rows.
fn line_at_row(lines: &[&[u8]], row: u32) -> u64
    ensures { result ≡ line_at_row (map (λ line. line.now) lines.now) row }
{
    let mut left = row;
    for index in 0..lines.len() {
        if !holds_row(lines[index]) {
            continue;
        }
        if left <= 1 {
            return index as u64 + 1;
        }
        left -= 1;
    }
    0
}

/// Returns the lines of a file, without the line feeds between them.
fn lines_of_file(alloc: Global, bytes: &[u8]) -> Result<Vec<&[u8]>, AllocError>
    ensures { IfOk result (λ lines. map (λ line. line.now) lines.items
        ≡ slice_split (λ byte. byte == 10) bytes.now) }
{
    bytes.split(|byte| *byte == b'\n').collect(alloc)
}

/// Returns in which line of a file, from 1, the row of this number stands, from 1, where each row before it takes one
/// line; 0 if there are not so many rows.
pub fn line_in_file(alloc: Global, bytes: &[u8], row: u32) -> Result<u64, AllocError>
    // It is the line of that place among those that are not empty.
    ensures { IfOk result (λ line. line ≡ line_in_file bytes.now row) }
{
    let lines = lines_of_file(alloc, bytes)?;
    Ok(line_at_row(lines.as_slice(), row))
}
