//! The lines of views, each written from the values that it shows.

ghost use Rattle.std.specs.Prelude.{◌≡◌};
ghost use Rattle.wu_report.specs.Texts.{applied_count, bytes_text, counted, failures_line, next_line, number_or_dash, or_dash, pass_word, summary_lines};
ghost use Rattle.wu_report.specs.Writing.{piece_text, Prints};

use crate::output::{Piece, Printed, write_pieces};
use std::io::Write;
use wu_core::{Archived, Bytes, Deadline, Fault, HostClass, Name};
use wu_rules::Pass;
use wu_schema::rows::HostSum;
use wu_views::{HostFailures, ImportLine, ResultLine, StatusLine, Summary, WorkunitLine};

impl Printed for WorkunitLine {
    ghost use Rattle.wu_report.specs.Texts.{workunit_line};

    ghost text = { workunit_line };

    fn write<W: Write>(&self, out: &mut W) -> Result<(), Fault> {
        let params = self.params;
        write_pieces(
            out,
            &[
                Piece::Number(self.number),
                Piece::Text(" "),
                Piece::Text(self.name.as_str()),
                Piece::Text(" input="),
                Piece::Number(self.input),
                Piece::Text(" quorum="),
                Piece::Number(u64::from(params.min_quorum())),
                Piece::Text(" target="),
                Piece::Number(u64::from(params.target_nresults())),
                Piece::Text(" max_error="),
                Piece::Number(u64::from(params.max_error_results())),
                Piece::Text(" max_total="),
                Piece::Number(u64::from(params.max_total_results())),
                Piece::Text(" max_success="),
                Piece::Number(u64::from(params.max_success_results())),
                Piece::Text(" delay="),
                Piece::Number(u64::from(params.delay_bound())),
                Piece::Text(" credit="),
                Piece::Number(u64::from(params.credit())),
                Piece::Text(" mask="),
                Piece::Number(u64::from(self.error_mask.code())),
                Piece::Text(" canonical="),
                Piece::Place(self.canonical),
                Piece::Text(" assimilate="),
                Piece::Text(self.assimilate.word()),
                Piece::Text(" delete="),
                Piece::Text(self.file_delete.word()),
                Piece::Text(" done="),
                Piece::When(self.done_at),
                Piece::Text(" class="),
                Piece::Number(u64::from(self.class)),
                Piece::Text("\n"),
            ],
        )
    }
}

/// Returns the name, or `-`.
fn name_or_dash(name: &Option<Name>) -> Piece<'_>
    ensures { piece_text result ≡ or_dash (λ text. text) name.now }
{
    match name {
        Some(name) => Piece::Text(name.as_str()),
        None => Piece::Text("-"),
    }
}

impl Printed for ResultLine {
    ghost use Rattle.wu_report.specs.Texts.{result_line};

    ghost text = { result_line };

    fn write<W: Write>(&self, out: &mut W) -> Result<(), Fault> {
        write_pieces(
            out,
            &[
                Piece::Text(self.workunit.as_str()),
                Piece::Text("_"),
                Piece::Number(u64::from(self.n)),
                Piece::Text(" "),
                Piece::Text(self.server_state.word()),
                Piece::Text(" "),
                Piece::Text(self.outcome.word()),
                Piece::Text(" "),
                Piece::Text(self.validate_state.word()),
                Piece::Text(" "),
                Piece::Text(self.file_delete.word()),
                Piece::Text(" host="),
                name_or_dash(&self.host),
                Piece::Text(" sent="),
                Piece::When(self.sent_at),
                Piece::Text(" deadline="),
                Piece::Due(self.deadline),
                Piece::Text(" received="),
                Piece::When(self.received_at),
                Piece::Text(" output="),
                Piece::Number(self.output),
                Piece::Text("\n"),
            ],
        )
    }
}

impl Printed for HostSum {
    ghost use Rattle.wu_report.specs.Texts.{host_line};

    ghost text = { host_line };

    fn write<W: Write>(&self, out: &mut W) -> Result<(), Fault> {
        write_pieces(
            out,
            &[
                Piece::Text(self.name.as_str()),
                Piece::Text(" total="),
                Piece::Number(self.total),
                Piece::Text(" grants="),
                Piece::Number(self.grants),
                Piece::Text("\n"),
            ],
        )
    }
}

/// Returns the bytes in hex, or `-` where there are none.
fn hex_or_dash(bytes: &Bytes) -> Piece<'_>
    ensures { piece_text result ≡ bytes_text bytes.now }
{
    if bytes.is_empty() {
        Piece::Text("-")
    } else {
        Piece::Hex(bytes.as_slice())
    }
}

impl Printed for Archived {
    ghost use Rattle.wu_report.specs.Texts.{archived_line};

    ghost text = { archived_line };

    fn write<W: Write>(&self, out: &mut W) -> Result<(), Fault> {
        write_pieces(
            out,
            &[
                Piece::Number(self.number),
                Piece::Text(" "),
                Piece::Text(self.name.as_str()),
                Piece::Text(" mask="),
                Piece::Number(u64::from(self.error_mask.code())),
                Piece::Text(" canonical="),
                Piece::Place(self.canonical),
                Piece::Text(" done="),
                Piece::When(Some(self.done_at)),
                Piece::Text(" output="),
                hex_or_dash(&self.output),
                Piece::Text("\n"),
            ],
        )
    }
}

impl Printed for HostClass {
    ghost use Rattle.wu_report.specs.Texts.{class_line};

    ghost text = { class_line };

    fn write<W: Write>(&self, out: &mut W) -> Result<(), Fault> {
        write_pieces(
            out,
            &[
                Piece::Text(self.host.as_str()),
                Piece::Text(" class="),
                Piece::Number(u64::from(self.class)),
                Piece::Text("\n"),
            ],
        )
    }
}

/// Returns how many rows of a file were applied, by the verdict on each.
pub fn applied_count(verdicts: &[u8]) -> usize
    // It is the number of the verdicts that are 0.
    ensures { result ≡ applied_count verdicts.now }
{
    verdicts.iter().filter(|verdict| **verdict == 0).count()
}

/// Returns the number, or `-` for 0.
pub fn number_or_dash(number: u64) -> Piece<'static>
    // The text is that of the number, and `-` for 0.
    ensures { piece_text result ≡ number_or_dash number }
{
    if number == 0 {
        Piece::Text("-")
    } else {
        Piece::Number(number)
    }
}

impl Printed for ImportLine {
    ghost use Rattle.wu_report.specs.Texts.{import_line};

    ghost text = { import_line };

    fn write<W: Write>(&self, out: &mut W) -> Result<(), Fault> {
        let verdicts = self.verdicts.as_slice();
        let applied = applied_count(verdicts);
        write_pieces(
            out,
            &[
                Piece::Text(self.kind.word()),
                Piece::Text(" "),
                Piece::Text(self.name.as_str()),
                Piece::Text(" rows="),
                Piece::Number(verdicts.len() as u64),
                Piece::Text(" applied="),
                Piece::Number(applied as u64),
                Piece::Text(" skipped="),
                Piece::Number((verdicts.len() - applied) as u64),
                Piece::Text(" first="),
                number_or_dash(self.first_number),
                Piece::Text("\n"),
            ],
        )
    }
}

/// Returns the word of a pass, in its answer and in the view of what waits.
pub fn pass_word(pass: Pass) -> &'static str
    // The word is that of the pass.
    ensures { result.now ≡ pass_word pass }
{
    match pass {
        Pass::Transition => "transition",
        Pass::Validate => "validate",
        Pass::Assimilate => "assimilate",
        Pass::Delete => "delete",
        Pass::Purge => "purge",
    }
}

/// Writes a word and a number, as a line.
pub fn write_counted<W: Write>(out: &mut W, word: &str, number: u64) -> Result<(), Fault>
    // With Ok exactly the line is written. Else the fault is `Output`, and a part of it is missing.
    ensures { Prints W.contents out.old out.new (counted word.now number) result }
{
    write_pieces(
        out,
        &[
            Piece::Text(word),
            Piece::Text(" "),
            Piece::Number(number),
            Piece::Text("\n"),
        ],
    )
}

/// Writes the earliest deadline that is still awaited, as a line.
fn write_next<W: Write>(out: &mut W, deadline: Option<Deadline>) -> Result<(), Fault>
    ensures { Prints W.contents out.old out.new (next_line deadline) result }
{
    write_pieces(
        out,
        &[
            Piece::Text("next_deadline "),
            Piece::Due(deadline),
            Piece::Text("\n"),
        ],
    )
}

/// Writes how many instances of a host ended with an error, and how many without a reply, as a line.
fn write_failures<W: Write>(out: &mut W, host: &HostFailures) -> Result<(), Fault>
    ensures { Prints W.contents out.old out.new (failures_line host.now) result }
{
    write_pieces(
        out,
        &[
            Piece::Text("host "),
            Piece::Text(host.host.as_str()),
            Piece::Text(" errors "),
            Piece::Number(host.errors),
            Piece::Text(" no_reply "),
            Piece::Number(host.no_replies),
            Piece::Text("\n"),
        ],
    )
}

impl Printed for StatusLine {
    ghost use Rattle.wu_report.specs.Texts.{status_line};

    ghost text = { status_line };

    fn write<W: Write>(&self, out: &mut W) -> Result<(), Fault> {
        match self {
            StatusLine::Due(due) => write_counted(out, pass_word(due.pass), due.count),
            StatusLine::Undecided(number) => write_counted(out, "undecided", *number),
            StatusLine::GivenUp(number) => write_counted(out, "given_up", *number),
            StatusLine::Overdue(number) => write_counted(out, "overdue", *number),
            StatusLine::NextDeadline(deadline) => write_next(out, *deadline),
            StatusLine::Host(host) => write_failures(out, host),
        }
    }
}

/// Writes the twelve lines of a summary.
pub fn write_summary<W: Write>(out: &mut W, summary: &Summary) -> Result<(), Fault>
    // With Ok exactly the twelve lines of the summary are written. Else the fault is `Output`, and a
    // part of them is missing.
    ensures { Prints W.contents out.old out.new (summary_lines summary.now) result }
{
    write_pieces(
        out,
        &[
            Piece::Text("version "),
            Piece::Number(summary.version),
            Piece::Text("\nnext "),
            Piece::Number(summary.next_number),
            Piece::Text("\nworkunits "),
            Piece::Number(summary.workunits),
            Piece::Text("\nresults "),
            Piece::Number(summary.results),
            Piece::Text("\nunsent "),
            Piece::Number(summary.unsent),
            Piece::Text("\nin_progress "),
            Piece::Number(summary.in_progress),
            Piece::Text("\nover "),
            Piece::Number(summary.over),
            Piece::Text("\narchived "),
            Piece::Number(summary.archived),
            Piece::Text("\ngrants "),
            Piece::Number(summary.grants),
            Piece::Text("\ncredit "),
            Piece::Number(summary.credit),
            Piece::Text("\nimports "),
            Piece::Number(summary.imports),
            Piece::Text("\nclasses "),
            Piece::Number(summary.classes),
            Piece::Text("\n"),
        ],
    )
}
