//! The lines that the program writes on its standard error.

ghost use Rattle.std.specs.Prelude.{◌≡◌, ◌++◌, codes, flat_map};
ghost use Rattle.std.specs.Fmt.{decimal};
ghost use Rattle.wu_core.specs.declared.fault.Fault.TheVariants.{Output};
ghost use Rattle.wu_report.specs.Texts.{line_end};
ghost use Rattle.wu_report.specs.Writing.{PrintsAndFlushes, WritesTo, piece_text};
ghost use Rattle.wu_cli.specs.Endings.{bad_line_text, cause_text, fault_line, line_fault_text, line_front, outsider_line, refusal_text, usage_text, WritesAll};

use std::io::Write;
use wu_arguments::{BadLine, Export, LineFault, Outsider, Refusal, Usage, Word};
use wu_core::Fault;
use wu_feed::LineCause;
use wu_report::{Piece, flush, write_pieces};

/// Writes the pieces in turn, and flushes.
pub(crate) fn write_flushed<W: Write>(out: &mut W, pieces: &[Piece<'_>]) -> Result<(), Fault>
    // With Ok exactly the texts of the pieces are written, and else a prefix of them.
    ensures { PrintsAndFlushes W.contents out.old out.new (flat_map piece_text pieces.now) result }
{
    write_pieces(out, pieces)?;
    flush(out)
}

/// Writes a text, and flushes.
pub(crate) fn write_text<W: Write>(out: &mut W, text: &str) -> Result<(), Fault>
    // With Ok exactly the text is written, and else a prefix of it.
    ensures { PrintsAndFlushes W.contents out.old out.new text.now result }
{
    write_pieces(out, &[Piece::Text(text)])?;
    flush(out)
}

/// Writes a line.
pub(crate) fn write_line<W: Write>(out: &mut W, text: &str) -> Result<(), Fault>
    // With Ok exactly the line is written, and else a prefix of it.
    ensures { WritesTo W.contents out.old out.new (text.now ++ line_end) result }
{
    write_flushed(out, &[Piece::Text(text), Piece::Text("\n")])
}

/// Writes a line that ends in a word.
pub(crate) fn worded<'a, W: Write>(out: &mut W, text: &'a str, word: &'a str) -> Result<(), Fault>
    // With Ok exactly the text and the word are written as a line, and else a prefix of it.
    ensures { WritesTo W.contents out.old out.new (text.now ++ word.now ++ line_end) result }
{
    write_flushed(
        out,
        &[Piece::Text(text), Piece::Text(word), Piece::Text("\n")],
    )
}

/// Writes a line that ends in a number.
fn numbered<W: Write>(out: &mut W, text: &str, number: u64) -> Result<(), Fault>
    ensures { WritesTo W.contents out.old out.new (text.now ++ decimal number ++ line_end) result }
{
    write_flushed(
        out,
        &[Piece::Text(text), Piece::Number(number), Piece::Text("\n")],
    )
}

/// Writes a line that ends in a number and a word.
pub(crate) fn placed<'a, W: Write>(
    out: &mut W,
    text: &'a str,
    row: u64,
    cause: &'a str,
) -> Result<(), Fault>
    // With Ok exactly the text, the number and the word are written as a line, and else a prefix of
    // it.
    ensures { WritesTo W.contents out.old out.new
        (text.now ++ decimal row ++ codes " " ++ cause.now ++ line_end) result }
{
    write_flushed(
        out,
        &[
            Piece::Text(text),
            Piece::Number(row),
            Piece::Text(" "),
            Piece::Text(cause),
            Piece::Text("\n"),
        ],
    )
}

/// Writes the line of a fault.
pub(crate) fn line_of_fault<W: Write>(out: &mut W, fault: Fault) -> Result<(), Fault>
    // With Ok exactly the line of the fault is written, and else a prefix of it.
    ensures { WritesTo W.contents out.old out.new (fault_line fault) result }
{
    match fault {
        Fault::BadName => write_line(out, "F1 BadName"),
        Fault::BadTemplate(key) => worded(out, "F2 BadTemplate ", key.word()),
        Fault::BadFile { row, cause } => {
            placed(out, "F3 BadFile ", u64::from(row), cause.word())
        }
        Fault::NameUsed => write_line(out, "F4 NameUsed"),
        Fault::WorkunitUsed(row) => numbered(out, "F5 WorkunitUsed ", u64::from(row)),
        Fault::TooMany => write_line(out, "F6 TooMany"),
        Fault::BadMoment => write_line(out, "F7 BadMoment"),
        Fault::BadLimit => write_line(out, "F8 BadLimit"),
        Fault::UnknownWorkunit => write_line(out, "F9 UnknownWorkunit"),
        Fault::NotOpenToCancel => write_line(out, "F10 NotOpenToCancel"),
        Fault::OldSchema(version) => numbered(out, "F11 OldSchema ", version),
        Fault::NewSchema(version) => numbered(out, "F12 NewSchema ", version),
        Fault::NotAProject => write_line(out, "F13 NotAProject"),
        Fault::Memory => write_line(out, "F14 Memory"),
        Fault::Broken => write_line(out, "F15 Broken"),
        Fault::Ended => write_line(out, "F16 Ended"),
        Fault::Output => write_line(out, "F17 Output"),
    }
}

/// Writes that a topic is unknown, and which one is near, if one is.
fn text_of_unknown_topic<W: Write>(out: &mut W, near: &Option<Word>) -> Result<(), Fault>
    ensures { WritesTo W.contents out.old out.new
        (usage_text (Usage.UnknownTopic near.now)) result }
{
    match near {
        Some(near) => worded(out, "unknown topic, perhaps ", near.as_str()),
        None => write_line(out, "unknown topic: lintelthyme explain lists them"),
    }
}

/// Writes the text of why words are no command line.
pub(crate) fn text_of_usage<W: Write>(out: &mut W, usage: &Usage) -> Result<(), Fault>
    // With Ok exactly the text of why the words are refused is written, and else a prefix of it.
    ensures { WritesTo W.contents out.old out.new (usage_text usage.now) result }
{
    match usage {
        Usage::Refused(text) => write_flushed(out, &[Piece::Text(text.as_str())]),
        Usage::UnknownView => write_line(out, "unknown view"),
        Usage::UnknownTopic(near) => text_of_unknown_topic(out, near),
        Usage::UnknownKind => {
            write_line(
                out,
                "unknown kind: it is jobs, sends, reports, classes, template or script",
            )
        }
        Usage::LongLine => write_line(out, "line too long"),
        Usage::NotText => text_of_cause(out, LineCause::NotText),
        Usage::Incomplete => write_line(out, "a value is missing"),
        Usage::Memory => line_of_fault(out, Fault::Memory),
    }
}

/// Writes the line of a fault and flushes, without taking memory. Returns whether all of it went out.
pub fn write_fault<W: Write>(fault: &Fault, out: &mut W) -> bool
    // With true exactly the line of the fault went out, and else a prefix of it.
    ensures { WritesAll (W.contents out.old) (W.contents out.new) (fault_line fault.now) result }
{
    match line_of_fault(out, *fault) {
        Ok(()) => true,
        Err(_) => false,
    }
}

/// Writes which line of a script it is.
fn line_number<W: Write>(out: &mut W, number: u64) -> Result<(), Fault>
    ensures { WritesTo W.contents out.old out.new (line_front number) result }
{
    write_pieces(
        out,
        &[
            Piece::Text("line "),
            Piece::Number(number),
            Piece::Text(": "),
        ],
    )
}

/// Writes why a line of a script cannot be split into words.
fn text_of_cause<W: Write>(out: &mut W, cause: LineCause) -> Result<(), Fault>
    ensures { WritesTo W.contents out.old out.new (cause_text cause) result }
{
    match cause {
        LineCause::OpenQuote => write_line(out, "a quote is not closed"),
        LineCause::NotText => write_line(out, "the words are no UTF-8 text"),
        LineCause::TooManyLines => write_line(out, "a script has at most 1000 lines"),
    }
}

/// Returns the line of what cannot stand in a script.
fn outsider_line(outsider: &Outsider) -> &'static str
    ensures { result.now ≡ outsider_line outsider.now }
{
    match outsider {
        Outsider::Script => "a script is no line of a script or a session\n",
        Outsider::Session => "a session is no line of a script or a session\n",
        Outsider::Check => "a check is no line of a script or a session\n",
        Outsider::Export(Export::Backup(_)) => "a backup cannot stand here\n",
        Outsider::Export(Export::Outputs(_)) => "outputs cannot stand here\n",
        Outsider::Lint => "a lint is no line of a script or a session\n",
        Outsider::Explanation => "an explanation is no line of a script or a session\n",
        Outsider::Help => "help is no line of a script or a session\n",
        Outsider::Database => "--db cannot stand here\n",
    }
}

/// Writes why a line of a script cannot be run.
pub(crate) fn text_of_refusal<W: Write>(out: &mut W, why: &Refusal) -> Result<(), Fault>
    // With Ok exactly the text of the refusal is written, and else a prefix of it.
    ensures { WritesTo W.contents out.old out.new (refusal_text why.now) result }
{
    match why {
        Refusal::Text(cause) => text_of_cause(out, *cause),
        Refusal::Words(usage) => text_of_usage(out, usage),
        Refusal::Outsider(outsider) => write_text(out, outsider_line(outsider)),
        Refusal::Repeat => write_line(out, "only a pass can be repeated"),
        Refusal::Try => write_line(out, "only a command or a view can be tried"),
        Refusal::AfterExport => write_line(out, "after a backup or outputs only these can come"),
        Refusal::Fault(fault) => line_of_fault(out, *fault),
    }
}

/// Writes why a line cannot be run, as it is reported of a line by itself, and flushes, without taking memory. Returns
/// whether all of it went out.
pub fn write_refusal<W: Write>(why: &Refusal, out: &mut W) -> bool
    // With true exactly the text of the refusal went out, and else a prefix of it.
    ensures { WritesAll (W.contents out.old) (W.contents out.new) (refusal_text why.now) result }
{
    match text_of_refusal(out, why) {
        Ok(()) => true,
        Err(_) => false,
    }
}

/// Writes which line of a script cannot be run, and why.
pub(crate) fn line_of_bad_line<W: Write>(out: &mut W, bad: &BadLine) -> Result<(), Fault>
    // With Ok exactly the number of the line and why it cannot be run are written, and else a
    // prefix of that.
    ensures { WritesTo W.contents out.old out.new (bad_line_text bad.now) result }
{
    line_number(out, bad.number)?;
    text_of_refusal(out, &bad.why)
}

/// Writes the number of the line of a script whose fault ended it, and the line of the fault.
pub(crate) fn line_of_line_fault<W: Write>(out: &mut W, end: LineFault) -> Result<(), Fault>
    // With Ok exactly the number of the line and its fault are written, and else a prefix of that.
    ensures { WritesTo W.contents out.old out.new (line_fault_text end) result }
{
    line_number(out, end.number)?;
    line_of_fault(out, end.fault)
}
