//! The texts of answers.

ghost use Rattle.wu_drive.specs.Texts.{batch_text, classes_text, import_text, reply_text};
ghost use Rattle.wu_machine.specs.Requests.{Cancelled, Passed, Upgraded};
ghost use Rattle.wu_drive.specs.Writing.{answer_text, applied_text};
ghost use Rattle.wu_report.specs.Writing.{Prints, PrintsAndFlushes};

use std::io::Write;
use wu_core::{Fault, ImportKind, Name};
use wu_passes::{Answer, Pass};
use wu_report::{
    Piece, applied_count, flush, number_or_dash, pass_word, write_pieces, write_skips,
};

/// Writes how many rows of a file were applied and how many skipped, and why each of these was.
fn write_applied<W: Write>(
    out: &mut W,
    kind: ImportKind,
    name: &Name,
    verdicts: &[u8],
) -> Result<(), Fault>
    ensures { Prints W.contents out.old out.new (applied_text kind name.now verdicts.now) result }
{
    let applied = applied_count(verdicts);
    write_pieces(
        out,
        &[
            Piece::Text(kind.word()),
            Piece::Text(" "),
            Piece::Text(name.as_str()),
            Piece::Text(": "),
            Piece::Number(applied as u64),
            Piece::Text(" applied, "),
            Piece::Number((verdicts.len() - applied) as u64),
            Piece::Text(" skipped\n"),
        ],
    )?;
    write_skips(out, kind, verdicts)
}

/// Writes how many workunits a batch added, and the first one's number.
fn write_batch<W: Write>(out: &mut W, name: &Name, first: u64, verdicts: &[u8]) -> Result<(), Fault>
    ensures { Prints W.contents out.old out.new (batch_text name.now first verdicts.now) result }
{
    write_pieces(
        out,
        &[
            Piece::Text("batch "),
            Piece::Text(name.as_str()),
            Piece::Text(": "),
            Piece::Number(verdicts.len() as u64),
            Piece::Text(" added, first "),
            number_or_dash(first),
            Piece::Text("\n"),
        ],
    )
}

/// Writes how many rows of a file of classes were applied: all are.
fn write_classes<W: Write>(out: &mut W, name: &Name, verdicts: &[u8]) -> Result<(), Fault>
    ensures { Prints W.contents out.old out.new (classes_text name.now verdicts.now) result }
{
    write_pieces(
        out,
        &[
            Piece::Text("classes "),
            Piece::Text(name.as_str()),
            Piece::Text(": "),
            Piece::Number(verdicts.len() as u64),
            Piece::Text(" applied\n"),
        ],
    )
}

/// Writes the text of an import's answer.
fn write_import<W: Write>(
    out: &mut W,
    kind: ImportKind,
    name: &Name,
    first: u64,
    verdicts: &[u8],
) -> Result<(), Fault>
    ensures { Prints W.contents out.old out.new
        (import_text kind name.now first verdicts.now) result }
{
    match kind {
        ImportKind::Batch => write_batch(out, name, first, verdicts),
        ImportKind::Sent | ImportKind::Reported => write_applied(out, kind, name, verdicts),
        ImportKind::Classes => write_classes(out, name, verdicts),
    }
}

/// Writes how many workunits a pass changed.
fn write_passed<W: Write>(out: &mut W, pass: Pass, handled: u32) -> Result<(), Fault>
    ensures { Prints W.contents out.old out.new (reply_text (Passed pass handled)) result }
{
    write_pieces(
        out,
        &[
            Piece::Text(pass_word(pass)),
            Piece::Text(": "),
            Piece::Number(u64::from(handled)),
            Piece::Text("\n"),
        ],
    )
}

/// Writes which version the schema had, and which it has.
fn write_upgraded<W: Write>(out: &mut W, from: u64, to: u64) -> Result<(), Fault>
    ensures { Prints W.contents out.old out.new (reply_text (Upgraded from to)) result }
{
    write_pieces(
        out,
        &[
            Piece::Text("upgrade: "),
            Piece::Number(from),
            Piece::Text(" to "),
            Piece::Number(to),
            Piece::Text("\n"),
        ],
    )
}

/// Writes that a workunit was given up.
fn write_cancelled<W: Write>(out: &mut W, workunit: &Name) -> Result<(), Fault>
    ensures { Prints W.contents out.old out.new (reply_text (Cancelled workunit.now)) result }
{
    write_pieces(
        out,
        &[
            Piece::Text("cancel "),
            Piece::Text(workunit.as_str()),
            Piece::Text(": done"),
            Piece::Text("\n"),
        ],
    )
}

/// Writes the text of an answer. One that went out whole is never reported as failed.
fn write_answer_text<W: Write>(out: &mut W, answer: &Answer) -> Result<(), Fault>
    // With Ok exactly the text of the answer is written. Else the fault is `Output`, and a part of it
    // is missing.
    ensures { Prints W.contents out.old out.new (answer_text answer.now) result }
{
    match answer {
        Answer::Imported {
            kind,
            name,
            first,
            verdicts,
        } => write_import(out, *kind, name, *first, verdicts.as_slice()),
        Answer::Passed { pass, handled } => write_passed(out, *pass, *handled),
        Answer::Cancelled { workunit } => write_cancelled(out, workunit),
        Answer::Upgraded { from, to } => write_upgraded(out, *from, *to),
    }
}

/// Writes the text of an answer, and flushes. With `Output` a prefix of the text was written, or all of it and the
/// flush failed.
pub fn write_answer<W: Write>(out: &mut W, answer: &Answer) -> Result<(), Fault>
    // With Ok exactly the text of the answer is written, and else a prefix of it; a skipped row has
    // the word of its verdict.
    ensures { PrintsAndFlushes W.contents out.old out.new (answer_text answer.now) result }
{
    write_answer_text(out, answer)?;
    flush(out)
}
