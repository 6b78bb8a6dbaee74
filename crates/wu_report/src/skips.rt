//! The rows of imported files that were skipped, and why.

ghost use Rattle.std.specs.Prelude.{◌≡◌, flat_map, option_map};
ghost use Rattle.wu_report.specs.Texts.{import_detail, report_skip_word, send_skip_word, skip_line, skip_lines, skip_word};
ghost use Rattle.wu_report.specs.Writing.{Prints};

use crate::output::{Piece, Printed, write_pieces};
use std::io::Write;
use wu_core::{Fault, ImportKind};
use wu_rules::{ReportVerdict, SendVerdict};
use wu_views::ImportLine;

/// Returns why a row of sends was skipped, by the number of its verdict; `None` if it was applied.
fn send_skip_word(verdict: u8) -> Option<&'static str>
    ensures { option_map (λ word. word.now) result ≡ send_skip_word verdict }
{
    SendVerdict::from_code(verdict)?.word()
}

/// Returns why a row of reports was skipped, by the number of its verdict; `None` if it was applied.
fn report_skip_word(verdict: u8) -> Option<&'static str>
    ensures { option_map (λ word. word.now) result ≡ report_skip_word verdict }
{
    ReportVerdict::from_code(verdict)?.word()
}

/// Returns why a row of a file of this kind was skipped, by the number of its verdict; `None` if it was applied.
fn skip_word(kind: ImportKind, verdict: u8) -> Option<&'static str>
    ensures { option_map (λ word. word.now) result ≡ skip_word kind verdict }
{
    match kind {
        ImportKind::Sent => send_skip_word(verdict),
        ImportKind::Reported => report_skip_word(verdict),
        ImportKind::Batch | ImportKind::Classes => None,
    }
}

/// Writes the line of a row, if it was skipped.
fn write_skip<W: Write>(out: &mut W, kind: ImportKind, row: u64, verdict: u8) -> Result<(), Fault>
    ensures { Prints W.contents out.old out.new (skip_line (skip_word kind) (row, verdict)) result }
{
    let Some(word) = skip_word(kind, verdict) else {
        return Ok(());
    };
    write_pieces(
        out,
        &[
            Piece::Text("  row "),
            Piece::Number(row),
            Piece::Text(": "),
            Piece::Text(word),
            Piece::Text("\n"),
        ],
    )
}

/// Writes a line for each row of a file of this kind that was skipped. The first row after the header is row 2.
pub fn write_skips<W: Write>(out: &mut W, kind: ImportKind, verdicts: &[u8]) -> Result<(), Fault>
    // With Ok exactly the lines of the skipped rows are written. Else the fault is `Output`, and a
    // part of them is missing.
    ensures { Prints W.contents out.old out.new (skip_lines (skip_word kind) verdicts.now) result }
{
    for (place, verdict) in verdicts.iter().enumerate() {
        write_skip(out, kind, place as u64 + 2, *verdict)?;
    }
    Ok(())
}

/// Writes the line of an import, and a line for each of its rows that was skipped.
fn write_detail<W: Write>(out: &mut W, line: &ImportLine) -> Result<(), Fault>
    ensures { Prints W.contents out.old out.new (import_detail line.now) result }
{
    line.write(out)?;
    write_skips(out, line.kind, line.verdicts.as_slice())
}

/// Writes the lines of these imports in turn, each with those of its skipped rows.
pub fn write_details<W: Write>(out: &mut W, lines: &[ImportLine]) -> Result<(), Fault>
    // With Ok exactly their lines are written. Else the fault is `Output`, and a part of them is
    // missing.
    ensures { Prints W.contents out.old out.new (flat_map import_detail lines.now) result }
{
    for line in lines {
        write_detail(out, line)?;
    }
    Ok(())
}
