//! The lines that a check writes.

ghost use Rattle.std.specs.Prelude.{◌≡◌, ◌++◌, codes};
ghost use Rattle.std.specs.Fmt.{decimal};
ghost use Rattle.wu_report.specs.Texts.{line_end};
ghost use Rattle.wu_report.specs.Writing.{PrintsAndFlushes, WritesTo};
ghost use Rattle.wu_cli.specs.Checks.{barred_line, finding_line, key_text, misfit_line, missing_text, row_line, sound_line, sums_line, taken_line};

use crate::texts::{placed, write_flushed, write_line};
use std::io::Write;
use wu_check::{Counts, Finding, Key};
use wu_core::Fault;
use wu_loader::finding::WrongRow;
use wu_loader::totals::OtherSums;
use wu_report::{Piece, write_pieces};
use wu_schema::ProjectTable;
use wu_tables::{Misfit, form_of};

/// Writes a word and a number.
fn write_counted<W: Write>(out: &mut W, word: &str, number: u64) -> Result<(), Fault>
    ensures { WritesTo W.contents out.old out.new (word.now ++ decimal number) result }
{
    write_pieces(out, &[Piece::Text(word), Piece::Number(number)])
}

/// Writes a table and the key of one of its rows.
fn write_key<W: Write>(out: &mut W, key: &Key) -> Result<(), Fault>
    ensures { WritesTo W.contents out.old out.new (key_text key.now) result }
{
    match key {
        Key::Project => write_pieces(out, &[Piece::Text("project")]),
        Key::Workunit(number) => write_counted(out, "workunit ", *number),
        Key::Grant(place) => write_counted(out, "credit_grant ", *place),
        Key::Archived(place) => write_counted(out, "archived ", *place),
        Key::Import(kind, name) => write_pieces(
            out,
            &[
                Piece::Text("import "),
                Piece::Text(kind.word()),
                Piece::Text(" "),
                Piece::Text(name.as_str()),
            ],
        ),
        Key::HostClass(host) => write_pieces(
            out,
            &[Piece::Text("host_class "), Piece::Text(host.as_str())],
        ),
    }
}

/// Writes a line on a table.
fn of_table<'a, W: Write>(out: &mut W, name: &'a str, what: &'a str) -> Result<(), Fault>
    ensures { WritesTo W.contents out.old out.new
        (codes "table " ++ name.now ++ what.now ++ line_end) result }
{
    write_flushed(
        out,
        &[
            Piece::Text("table "),
            Piece::Text(name),
            Piece::Text(what),
            Piece::Text("\n"),
        ],
    )
}

/// Returns what is written behind the name of a table that is missing. Without its first table there is no project.
fn missing_text(table: ProjectTable) -> &'static str
    ensures { result.now ≡ missing_text table }
{
    match table {
        ProjectTable::Project => " is missing: there is no project yet",
        _ => " is missing",
    }
}

/// Writes why the tables are not those of a project.
fn line_of_misfit<W: Write>(out: &mut W, misfit: Misfit) -> Result<(), Fault>
    ensures { WritesTo W.contents out.old out.new (misfit_line misfit) result }
{
    match misfit {
        Misfit::Missing(table) => of_table(out, form_of(table).name, missing_text(table)),
        Misfit::Altered(table) => of_table(out, form_of(table).name, " is not that of a project"),
        Misfit::HostNames => write_line(
            out,
            "table host has an index that does not compare names by their bytes",
        ),
    }
}

/// Writes which name of a new project something has, where there is no table `project`.
fn line_of_barred<W: Write>(out: &mut W, name: &str) -> Result<(), Fault>
    ensures { WritesTo W.contents out.old out.new (barred_line name.now) result }
{
    write_flushed(
        out,
        &[
            Piece::Text("there is no table project to read, and something has the name "),
            Piece::Text(name),
            Piece::Text(": no project can be made"),
            Piece::Text("\n"),
        ],
    )
}

/// Writes which row is wrong, and how.
fn line_of_row<W: Write>(out: &mut W, key: &Key, what: &str) -> Result<(), Fault>
    ensures { WritesTo W.contents out.old out.new
        (key_text key.now ++ (codes " " ++ what.now ++ line_end)) result }
{
    write_key(out, key)?;
    write_flushed(
        out,
        &[Piece::Text(" "), Piece::Text(what), Piece::Text("\n")],
    )
}

/// Writes which row is that of no value, or is missing, by its table and its place there.
fn line_of_wrong<W: Write>(out: &mut W, wrong: WrongRow) -> Result<(), Fault>
    ensures { WritesTo W.contents out.old out.new (row_line wrong) result }
{
    write_flushed(
        out,
        &[
            Piece::Text(form_of(wrong.table).name),
            Piece::Text(" row "),
            Piece::Number(wrong.place),
            Piece::Text(" is missing, or none of a project"),
            Piece::Text("\n"),
        ],
    )
}

/// Writes the sums that the row of a host keeps, and those of its grants.
fn line_of_sums<W: Write>(out: &mut W, sums: &OtherSums) -> Result<(), Fault>
    ensures { WritesTo W.contents out.old out.new (sums_line sums.now) result }
{
    write_flushed(
        out,
        &[
            Piece::Text("host "),
            Piece::Text(sums.kept.name.as_str()),
            Piece::Text(": total "),
            Piece::Number(sums.kept.total),
            Piece::Text(" and "),
            Piece::Number(sums.kept.grants),
            Piece::Text(" grants, its grants have "),
            Piece::Number(sums.credit),
            Piece::Text(" and "),
            Piece::Number(sums.grants),
            Piece::Text("\n"),
        ],
    )
}

/// Writes which name of an upgrade from this version something has.
fn line_of_taken<W: Write>(out: &mut W, version: u64, name: &str) -> Result<(), Fault>
    ensures { WritesTo W.contents out.old out.new (taken_line version name.now) result }
{
    write_flushed(
        out,
        &[
            Piece::Text("version "),
            Piece::Number(version),
            Piece::Text(" has no "),
            Piece::Text(name),
            Piece::Text(", and something has that name: an upgrade cannot make it"),
            Piece::Text("\n"),
        ],
    )
}

/// Writes what was found.
pub(crate) fn line_of_finding<W: Write>(out: &mut W, finding: &Finding) -> Result<(), Fault>
    // With Ok exactly the line of the finding is written, and else a prefix of it.
    ensures { WritesTo W.contents out.old out.new (finding_line finding.now) result }
{
    match finding {
        Finding::Tables(misfit) => line_of_misfit(out, *misfit),
        Finding::Barred(name) => line_of_barred(out, *name),
        Finding::Row(wrong) => line_of_wrong(out, *wrong),
        Finding::Sums(sums) => line_of_sums(out, sums),
        Finding::Version(version) => placed(out, "version ", *version, "is not known"),
        Finding::World(wrong, key) => line_of_row(out, key, wrong.word()),
        Finding::Queue => write_line(
            out,
            "table queue or one of its indexes is missing, or is not that of a project",
        ),
        Finding::Marks(place) => placed(
            out,
            "queue row ",
            *place,
            "is missing, or not that of its workunit",
        ),
        Finding::Taken(version, name) => line_of_taken(out, *version, *name),
    }
}

/// Writes that a database holds a sound project, and flushes.
pub fn write_sound<W: Write>(out: &mut W, counts: Counts) -> Result<(), Fault>
    // With Ok exactly the line with the three numbers is written, and else a prefix of it.
    ensures { PrintsAndFlushes W.contents out.old out.new (sound_line counts) result }
{
    write_flushed(
        out,
        &[
            Piece::Text("ok version="),
            Piece::Number(counts.version),
            Piece::Text(" workunits="),
            Piece::Number(counts.workunits),
            Piece::Text(" results="),
            Piece::Number(counts.results),
            Piece::Text("\n"),
        ],
    )
}
