//! Whether a file reads as its import or its script would read it. No database is opened.

ghost use Rattle.std.specs.Prelude.{◌≡◌, ◌⊎◌, IfOk, Ok};
ghost use Rattle.wu_core.specs.declared.fault.Fault.TheVariants.{Memory, Output};
ghost use Rattle.wu_core.specs.Reads.{IsOrWantsMemory};
ghost use Rattle.wu_report.specs.Writing.{PrintsAndFlushes, WritesTo};
ghost use Rattle.wu_cli.specs.Linting.{column_line, column_of, field_line, found_by, found_text, header_wanted, in_line, kind_named, line_by, line_text, Lints, LintsFile, LintsKind, LintsScript, longest_of, nothing_of, read_as, sound_file_text, unfound, unread, unread_text, wanted, wanted_line, wanted_of_key, wanted_text};

use crate::row_lines::line_in_file;
use crate::texts::{line_of_fault, worded, write_flushed};
use crate::trouble::Trouble;
use crate::work::Work;
use std::alloc::{AllocError, Global};
use std::io::Write;
use wu_arguments::{LintOrder, ReadFile, ScriptFile, Usage, Word};
use wu_core::{Fault, FileCause, TemplateKey};
use wu_feed::{
    LONGEST_FILE, LONGEST_TEMPLATE, read_classes, read_jobs, read_reports, read_sends,
    read_template, shown_field,
};
use wu_report::Piece;

/// What a file that an import takes is read as.
#[derive(Clone, Copy)]
pub enum FileKind {
    Jobs,
    Sends,
    Reports,
    Classes,
    Template,
}

/// A file that does not read as its import would read it, and the import's fault.
#[derive(Drop)]
pub struct Unread {
    pub kind: FileKind,
    pub fault: Fault,
    /// In which line of the file the row stands that is refused; 0 if none is.
    pub line: u64,
    /// The field that is refused, if a report shows it.
    pub found: Option<Word>,
}

/// What a file is read as.
#[derive(Clone, Copy)]
pub enum LintKind {
    /// A file that an import takes.
    Imported(FileKind),
    Script,
}

/// Returns what a file is read as, by its word.
fn kind_named(word: &str) -> Option<LintKind>
    ensures { result ≡ kind_named word.now }
{
    match word {
        "jobs" => Some(LintKind::Imported(FileKind::Jobs)),
        "sends" => Some(LintKind::Imported(FileKind::Sends)),
        "reports" => Some(LintKind::Imported(FileKind::Reports)),
        "classes" => Some(LintKind::Imported(FileKind::Classes)),
        "template" => Some(LintKind::Imported(FileKind::Template)),
        "script" => Some(LintKind::Script),
        _ => None,
    }
}

/// Returns the header that such a file has.
#[tactic(auto, unfolding(crate::specs::Linting::joined))]
fn header_wanted(kind: FileKind) -> &'static str
    ensures { result.now ≡ header_wanted kind }
{
    match kind {
        FileKind::Jobs => "the header name,input",
        FileKind::Sends => "the header result,host,moment",
        FileKind::Reports => "the header result,host,moment,status,output",
        FileKind::Classes => "the header host,class",
        FileKind::Template => "keys and numbers",
    }
}

/// Returns what is wanted in place of what a cause refuses.
#[tactic(auto, unfolding(crate::specs::Linting::digits))]
fn wanted(kind: FileKind, cause: FileCause) -> &'static str
    ensures { result.now ≡ wanted kind cause }
{
    match cause {
        FileCause::Unreadable => "a file that can be read",
        FileCause::TooLong => "at most 1048576 bytes",
        FileCause::Header => header_wanted(kind),
        FileCause::TooManyRows => "at most 1000 rows",
        FileCause::Fields => "as many fields as the header has",
        FileCause::Name | FileCause::Host => "1 to 64 ASCII letters, digits, _, . or -",
        FileCause::Input => "hex, 0 to 4096 bytes",
        FileCause::Result => "the name of a workunit, _ and a number from 0 to 99",
        FileCause::Moment => "a moment as 2026-03-01T12:00:00Z",
        FileCause::Status => "success, client_error or detached",
        FileCause::Output => "hex, 0 to 65536 bytes, of a success alone",
        FileCause::Class => "a number from 1 to 65535",
    }
}

/// Returns what is wanted of a template that is refused with this key.
#[tactic(auto, unfolding(crate::specs::Linting::digits))]
fn wanted_of_key(key: TemplateKey) -> &'static str
    ensures { result.now ≡ wanted_of_key key }
{
    match key {
        TemplateKey::Document => "TOML with each key once, at most 65536 bytes",
        TemplateKey::Unknown => {
            "no keys but min_quorum, target_nresults, max_error_results, max_total_results, max_success_results, delay_bound and credit"
        }
        TemplateKey::MinQuorum => "a whole number from 1 to 20",
        TemplateKey::TargetNresults => "a whole number from min_quorum to 20",
        TemplateKey::MaxTotalResults => "a whole number from 1 to 100",
        TemplateKey::MaxErrorResults | TemplateKey::MaxSuccessResults => {
            "a whole number from 0 to 100"
        }
        TemplateKey::DelayBound => "a whole number from 1 to 31536000",
        TemplateKey::Credit => "a whole number from 0 to 1000000",
    }
}

/// Returns the column, from 1, of the field that a cause refuses in such a file; 0 if it refuses no field.
fn column_of(kind: FileKind, cause: FileCause) -> u64
    ensures { result ≡ column_of kind cause }
{
    match (kind, cause) {
        (FileKind::Classes, FileCause::Host) => 1,
        (_, FileCause::Name | FileCause::Result) => 1,
        (_, FileCause::Input | FileCause::Host | FileCause::Class) => 2,
        (_, FileCause::Moment) => 3,
        (_, FileCause::Status) => 4,
        (_, FileCause::Output) => 5,
        _ => 0,
    }
}

/// Writes what is wanted in a column.
fn write_wanted_in<'a, W: Write>(out: &mut W, column: u64, wanted: &'a str) -> Result<(), Fault>
    ensures { WritesTo W.contents out.old out.new (column_line column wanted.now) result }
{
    write_flushed(
        out,
        &[
            Piece::Text("wanted in column "),
            Piece::Number(column),
            Piece::Text(": "),
            Piece::Text(wanted),
            Piece::Text("\n"),
        ],
    )
}

/// Writes what is wanted in a column, or in the file.
fn write_wanted<'a, W: Write>(out: &mut W, column: u64, wanted: &'a str) -> Result<(), Fault>
    ensures { WritesTo W.contents out.old out.new (wanted_line column wanted.now) result }
{
    if column == 0 {
        worded(out, "wanted: ", wanted)
    } else {
        write_wanted_in(out, column, wanted)
    }
}

/// Writes what is wanted where a file of rows or a template is refused; nothing for any other fault.
fn write_wanted_of<W: Write>(out: &mut W, kind: FileKind, fault: Fault) -> Result<(), Fault>
    ensures { WritesTo W.contents out.old out.new (wanted_text kind fault) result }
{
    match fault {
        Fault::BadFile { row: _row, cause } => {
            write_wanted(out, column_of(kind, cause), wanted(kind, cause))
        }
        Fault::BadTemplate(key) => write_wanted(out, 0, wanted_of_key(key)),
        _ => Ok(()),
    }
}

/// Writes the number of a line, and flushes.
fn write_in_line<W: Write>(out: &mut W, line: u64) -> Result<(), Fault>
    ensures { WritesTo W.contents out.old out.new (in_line line) result }
{
    write_flushed(
        out,
        &[
            Piece::Text("in line "),
            Piece::Number(line),
            Piece::Text("\n"),
        ],
    )
}

/// Writes in which line of the file the row stands that is refused; nothing if none is.
fn write_line_of<W: Write>(out: &mut W, line: u64) -> Result<(), Fault>
    ensures { WritesTo W.contents out.old out.new (line_text line) result }
{
    if line == 0 {
        Ok(())
    } else {
        write_in_line(out, line)
    }
}

/// Writes the field that is refused between quotes, which show its blanks.
fn write_field<'a, W: Write>(out: &mut W, field: &'a str) -> Result<(), Fault>
    ensures { WritesTo W.contents out.old out.new (field_line field.now) result }
{
    write_flushed(
        out,
        &[
            Piece::Text("found: '"),
            Piece::Text(field),
            Piece::Text("'\n"),
        ],
    )
}

/// Writes the field that is refused, if a report shows it.
fn write_found<W: Write>(out: &mut W, found: &Option<Word>) -> Result<(), Fault>
    ensures { WritesTo W.contents out.old out.new (found_text found.now) result }
{
    match found {
        Some(field) => write_field(out, field.as_str()),
        None => Ok(()),
    }
}

/// Writes the fault of a file, in which line it is, what was found there and what is wanted.
pub(crate) fn text_of_unread<W: Write>(out: &mut W, unread: &Unread) -> Result<(), Fault>
    // With Ok exactly the fault, the line of its row, the field that is refused and what is wanted
    // are written, and else a prefix of them.
    ensures { WritesTo W.contents out.old out.new (unread_text unread.now) result }
{
    line_of_fault(out, unread.fault)?;
    write_line_of(out, unread.line)?;
    write_found(out, &unread.found)?;
    write_wanted_of(out, unread.kind, unread.fault)
}

/// Returns how many bytes such a file has at most.
fn longest_of(kind: FileKind) -> usize
    ensures { result ≡ longest_of kind }
{
    match kind {
        FileKind::Template => LONGEST_TEMPLATE,
        _ => LONGEST_FILE,
    }
}

/// Returns whether a reading succeeded, or its fault.
fn nothing_of<T: Drop, E: Drop>(read: Result<T, E>) -> Result<(), E>
    ensures { result ≡ nothing_of read }
{
    match read {
        Ok(_read) => Ok(()),
        Err(fault) => Err(fault),
    }
}

/// Reads the bytes of a file as its import does. The fault is that of the import.
fn read_as(alloc: Global, kind: FileKind, bytes: &[u8]) -> Result<(), Fault>
    ensures { IsOrWantsMemory result (read_as kind bytes.now) }
{
    match kind {
        FileKind::Jobs => nothing_of(read_jobs(alloc, bytes)),
        FileKind::Sends => nothing_of(read_sends(alloc, bytes)),
        FileKind::Reports => nothing_of(read_reports(alloc, bytes)),
        FileKind::Classes => nothing_of(read_classes(alloc, bytes)),
        FileKind::Template => nothing_of(read_template(alloc, bytes)),
    }
}

/// Returns the field of a file that a fault refuses, if a report shows it.
fn found_by(
    alloc: Global,
    kind: FileKind,
    bytes: &[u8],
    fault: Fault,
) -> Result<Option<Word>, Fault>
    ensures { IsOrWantsMemory result (Ok (found_by kind bytes.now fault)) }
{
    let Fault::BadFile { row, cause } = fault else {
        return Ok(None);
    };
    let column = column_of(kind, cause);
    if column == 0 {
        return Ok(None);
    }
    let (row, column) = (row.saturating_sub(1), column.saturating_sub(1));
    match shown_field(alloc, bytes, row as usize, column as usize)? {
        Some(text) => Ok(Some(Word::from_string(text))),
        None => Ok(None),
    }
}

/// Returns in which line of a file the row stands that a fault refuses; 0 if it refuses none.
fn line_by(alloc: Global, bytes: &[u8], fault: Fault) -> Result<u64, AllocError>
    ensures { IfOk result (λ line. line ≡ line_by bytes.now fault) }
{
    match fault {
        Fault::BadFile { row, cause: _cause } if row > 0 => line_in_file(alloc, bytes, row),
        _ => Ok(0),
    }
}

/// Returns the file of this kind that is refused with a fault, with the line and the field that are refused.
fn unread_of(alloc: Global, kind: FileKind, bytes: &[u8], fault: Fault) -> Unread
    ensures { (result ≡ unread kind bytes.now fault) ⊎ (result ≡ unfound kind Memory) }
{
    let Ok(line) = line_by(alloc, bytes, fault) else {
        return unfound(kind, Fault::Memory);
    };
    match found_by(alloc, kind, bytes, fault) {
        Ok(found) => Unread {
            kind,
            fault,
            line,
            found,
        },
        Err(fault) => unfound(kind, fault),
    }
}

/// Returns the file of this kind that is refused with a fault at no field.
fn unfound(kind: FileKind, fault: Fault) -> Unread
    ensures { result ≡ unfound kind fault }
{
    Unread {
        kind,
        fault,
        line: 0,
        found: None,
    }
}

/// Reads a file as its import does. One that cannot be read is `BadFile` with row 0 and `Unreadable`.
fn lint_file<F: ReadFile>(
    alloc: Global,
    kind: FileKind,
    path: &str,
    files: &F,
) -> Result<(), Unread>
    ensures { LintsFile (F.ReadFile.gives files.now) kind path.now result }
{
    match files.read(path, longest_of(kind)) {
        Ok(Some(bytes)) => match read_as(alloc, kind, bytes.as_slice()) {
            Ok(()) => Ok(()),
            Err(fault) => Err(unread_of(alloc, kind, bytes.as_slice(), fault)),
        },
        Ok(None) => Err(unfound(
            kind,
            Fault::BadFile {
                row: 0,
                cause: FileCause::Unreadable,
            },
        )),
        Err(fault) => Err(unfound(kind, fault)),
    }
}

/// Reads a script with the files of its lines, as before it is run over a project.
fn lint_script<F: ReadFile>(alloc: Global, path: &str, files: &F) -> Result<(), Trouble>
    ensures { LintsScript (F.ReadFile.gives files.now) path.now result }
{
    let script = ScriptFile {
        db: Word::from_text(alloc, "project.db")?,
        file: Word::from_text(alloc, path)?,
    };
    nothing_of(Work::of_script(alloc, &script, files))
}

/// Reads a file as what it is for.
fn lint_as<F: ReadFile>(alloc: Global, kind: LintKind, path: &str, files: &F) -> Result<(), Trouble>
    ensures { LintsKind (F.ReadFile.gives files.now) kind path.now result }
{
    match kind {
        LintKind::Imported(kind) => {
            match lint_file(alloc, kind, path, files) {
                Ok(()) => Ok(()),
                Err(unread) => Err(Trouble::Unread(unread)),
            }
        }
        LintKind::Script => lint_script(alloc, path, files),
    }
}

/// Writes that the file reads well, and flushes.
fn write_sound_file<W: Write>(out: &mut W, path: &str) -> Result<(), Fault>
    ensures { PrintsAndFlushes W.contents out.old out.new (sound_file_text path.now) result }
{
    write_flushed(
        out,
        &[Piece::Text("ok "), Piece::Text(path), Piece::Text("\n")],
    )
}

/// Reads a file as its import or its script would read it, and says that it can. Else the trouble is the first fault of
/// that reading, with what was found and what is wanted there, or of a script the first line that cannot be run. An unknown kind is refused with status 2.
///
/// A script's lines are read as over a project in `project.db`, which is not opened.
pub fn lint<F: ReadFile, W: Write>(
    alloc: Global,
    asked: &LintOrder,
    files: &F,
    out: &mut W,
) -> Result<(), Trouble>
    // The kind is unknown, which is reported. Or the file reads as it should, and its path goes
    // out, or a prefix of that line with `Output`. Or the first fault of its reading is reported,
    // and nothing goes out.
    ensures { Lints (F.ReadFile.gives files.now) W.contents asked.now out.old out.new result }
{
    let Some(kind) = kind_named(asked.kind.as_str()) else {
        return Err(Trouble::Usage(Usage::UnknownKind));
    };
    lint_as(alloc, kind, asked.file.as_str(), files)?;
    write_sound_file(out, asked.file.as_str())?;
    Ok(())
}
