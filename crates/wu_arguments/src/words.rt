//! What the words of the command line ask for.

ghost use Rattle.std.specs.Prelude.{◌≡◌, map, string_bytes, IfErr, IfOk, None};
ghost use Rattle.clap.specs.Words.{found_of, rows_of, subcommand_rows_of};
ghost use Rattle.wu_arguments.specs.CommandLine.{file_option, takes_age, takes_moment};
ghost use Rattle.wu_arguments.specs.Lines.{HoldsValues, IsLineIn, IsNumberIf, IsOrder, IsTemplate, IsTextIf};
ghost use Rattle.wu_arguments.specs.Refusals.{Explains, HasText, IsLacking, IsOrderOf, IsSeen, RefusesValues, IsWithout, LacksText, OfTaken, ReadsValues, WantsOnly};

use crate::line::{Asking, Line};
use crate::option::LineOption;
use crate::order::{Export, ExportOrder, LintOrder, Order, OutputFiles, ScriptFile, Topic};
use crate::parse::parse;
use crate::subcommand::Subcommand;
use crate::usage::Usage;
use crate::values::{number, text, text_if_any, view};
use crate::word::Word;
use clap::ArgMatches;
use std::alloc::Global;
use wu_core::ImportKind;
use wu_rules::Pass;

/// Returns the option that names the file of such an import.
fn file_option(kind: ImportKind) -> LineOption
    ensures { result ≡ file_option kind }
{
    match kind {
        ImportKind::Batch => LineOption::Jobs,
        ImportKind::Sent => LineOption::Sends,
        ImportKind::Reported => LineOption::Reports,
        ImportKind::Classes => LineOption::Classes,
    }
}

/// Returns the template of an import: only a batch may have one.
fn template(alloc: Global, kind: ImportKind, found: &ArgMatches<'_>) -> Result<Option<Word>, Usage>
    ensures value { IfOk result (IsTemplate (rows_of (found_of found.now)) kind) }
    ensures refused { IfErr result (λ usage. usage ≡ Usage.Memory) }
{
    match kind {
        ImportKind::Batch => text_if_any(alloc, found, LineOption::Template),
        _ => Ok(None),
    }
}

/// Reads the values of an import.
fn read_import(alloc: Global, kind: ImportKind, found: &ArgMatches<'_>) -> Result<Asking, Usage>
    ensures { ReadsValues result (rows_of (found_of found.now)) (Subcommand.Import kind)
        HoldsValues }
{
    Ok(Asking::Import {
        kind,
        name: text(alloc, found, LineOption::Name)?,
        file: text(alloc, found, file_option(kind))?,
        template: template(alloc, kind, found)?,
    })
}

/// Returns whether the pass takes a moment.
fn takes_moment(pass: Pass) -> bool
    ensures { result ≡ takes_moment pass }
{
    match pass {
        Pass::Transition | Pass::Assimilate | Pass::Purge => true,
        Pass::Validate | Pass::Delete => false,
    }
}

/// Reads the moment of a pass that takes one.
fn moment(alloc: Global, pass: Pass, found: &ArgMatches<'_>) -> Result<Option<Word>, Usage>
    ensures value { IfOk result
        (IsTextIf (takes_moment pass) (rows_of (found_of found.now)) LineOption.Now) }
    ensures refused { IfErr result
        (IsLacking (rows_of (found_of found.now)) (Subcommand.Pass pass)) }
{
    if takes_moment(pass) {
        Ok(Some(text(alloc, found, LineOption::Now)?))
    } else {
        Ok(None)
    }
}

/// Reads the least age of a purge. It takes no memory.
fn min_age(pass: Pass, found: &ArgMatches<'_>) -> Result<Option<u64>, Usage>
    ensures value { IfOk result
        (IsNumberIf (takes_age pass) (rows_of (found_of found.now)) LineOption.MinAge) }
    ensures refused { IfErr result
        (IsLacking (rows_of (found_of found.now)) (Subcommand.Pass pass)) }
{
    match pass {
        Pass::Purge => Ok(Some(number(found, LineOption::MinAge)?)),
        _ => Ok(None),
    }
}

/// Reads the values of a pass.
fn read_pass(alloc: Global, pass: Pass, found: &ArgMatches<'_>) -> Result<Asking, Usage>
    ensures { ReadsValues result (rows_of (found_of found.now)) (Subcommand.Pass pass) HoldsValues }
{
    Ok(Asking::Pass {
        pass,
        limit: number(found, LineOption::Limit)?,
        min_age: min_age(pass, found)?,
        now: moment(alloc, pass, found)?,
    })
}

/// Reads the values of a cycle.
fn read_cycle(alloc: Global, found: &ArgMatches<'_>) -> Result<Asking, Usage>
    ensures { ReadsValues result (rows_of (found_of found.now)) Subcommand.Cycle HoldsValues }
{
    Ok(Asking::Cycle {
        limit: number(found, LineOption::Limit)?,
        min_age: number(found, LineOption::MinAge)?,
        now: text(alloc, found, LineOption::Now)?,
    })
}

/// Reads the values of a cancel.
fn read_cancel(alloc: Global, found: &ArgMatches<'_>) -> Result<Asking, Usage>
    ensures { ReadsValues result (rows_of (found_of found.now)) Subcommand.Cancel HoldsValues }
{
    Ok(Asking::Cancel {
        workunit: text(alloc, found, LineOption::Workunit)?,
    })
}

/// Reads the name of the imports that are shown, where one is given.
fn read_imports(alloc: Global, found: &ArgMatches<'_>) -> Result<Asking, Usage>
    ensures { ReadsValues result (rows_of (found_of found.now)) Subcommand.Imports HoldsValues }
{
    Ok(Asking::Imports {
        name: text_if_any(alloc, found, LineOption::Imported)?,
    })
}

/// Reads the moment of what waits.
fn read_status(alloc: Global, found: &ArgMatches<'_>) -> Result<Asking, Usage>
    ensures { ReadsValues result (rows_of (found_of found.now)) Subcommand.Status HoldsValues }
{
    Ok(Asking::Status {
        now: text(alloc, found, LineOption::Now)?,
    })
}

/// Makes the line that asks this, of the database that is named.
fn line(alloc: Global, asking: Asking, found: &ArgMatches<'_>) -> Result<Order, Usage>
    ensures line { IfOk result (IsLineIn (rows_of (found_of found.now)) asking) }
    ensures refused { IfErr result
        (IsWithout (LacksText (rows_of (found_of found.now)) LineOption.Database)) }
    ensures wants { WantsOnly result
        (HasText (rows_of (found_of found.now)) LineOption.Database) }
{
    Ok(Order::Line(Line {
        db: text(alloc, found, LineOption::Database)?,
        asking,
    }))
}

/// Reads a script's file, and the database that it is for.
fn script(alloc: Global, found: &ArgMatches<'_>) -> Result<Order, Usage>
    ensures { ReadsValues result (rows_of (found_of found.now)) Subcommand.Script IsOrder }
{
    Ok(Order::Script(ScriptFile {
        db: text(alloc, found, LineOption::Database)?,
        file: text(alloc, found, LineOption::Commands)?,
    }))
}

/// Reads the database that is backed up, and the file that is made.
fn read_backup(alloc: Global, found: &ArgMatches<'_>) -> Result<Order, Usage>
    ensures { ReadsValues result (rows_of (found_of found.now)) Subcommand.Backup IsOrder }
{
    Ok(Order::Export(ExportOrder {
        db: text(alloc, found, LineOption::Checked)?,
        export: Export::Backup(text(alloc, found, LineOption::To)?),
    }))
}

/// Reads the database whose outputs are kept, the folder of the files, and which output alone is.
fn read_outputs(alloc: Global, found: &ArgMatches<'_>) -> Result<Order, Usage>
    ensures { ReadsValues result (rows_of (found_of found.now)) Subcommand.Outputs IsOrder }
{
    Ok(Order::Export(ExportOrder {
        db: text(alloc, found, LineOption::Checked)?,
        export: Export::Outputs(OutputFiles {
            folder: text(alloc, found, LineOption::Folder)?,
            name: text_if_any(alloc, found, LineOption::Only)?,
        }),
    }))
}

/// Reads the file that is only read, and what it is for.
fn read_lint(alloc: Global, found: &ArgMatches<'_>) -> Result<Order, Usage>
    ensures { ReadsValues result (rows_of (found_of found.now)) Subcommand.Lint IsOrder }
{
    Ok(Order::Lint(LintOrder {
        kind: text(alloc, found, LineOption::Kind)?,
        file: text(alloc, found, LineOption::Linted)?,
    }))
}

/// Reads the topic of an explanation, and what a fault prints after its name.
fn read_topic(alloc: Global, found: &ArgMatches<'_>) -> Result<Order, Usage>
    ensures order { IfOk result (IsOrder (rows_of (found_of found.now)) Subcommand.Explain) }
    ensures refused { IfErr result (λ usage. usage ≡ Usage.Memory) }
{
    Ok(Order::Explain(Topic {
        name: text_if_any(alloc, found, LineOption::Topic)?,
        detail: text_if_any(alloc, found, LineOption::Detail)?,
        fault_detail: text_if_any(alloc, found, LineOption::FaultDetail)?,
        fault_cause: text_if_any(alloc, found, LineOption::FaultCause)?,
    }))
}

/// Returns what a subcommand asks for, with the values that `clap` found. A view is read before memory is taken: an
/// unknown one is never reported as out of memory.
fn order_of(alloc: Global, subcommand: Subcommand, found: &ArgMatches<'_>) -> Result<Order, Usage>
    ensures order { IfOk result (IsOrder (rows_of (found_of found.now)) subcommand) }
    ensures refused { IfErr result (RefusesValues (rows_of (found_of found.now)) subcommand) }
    // An unknown view is never reported as out of memory.
    ensures wants { WantsOnly result
        (subcommand ≡ Subcommand.Show → IsSeen (rows_of (found_of found.now))) }
{
    match subcommand {
        Subcommand::Import(kind) => line(alloc, read_import(alloc, kind, found)?, found),
        Subcommand::Pass(its) => line(alloc, read_pass(alloc, its, found)?, found),
        Subcommand::Cancel => line(alloc, read_cancel(alloc, found)?, found),
        Subcommand::Cycle => line(alloc, read_cycle(alloc, found)?, found),
        Subcommand::Show => line(alloc, Asking::Show(view(found)?), found),
        Subcommand::Imports => line(alloc, read_imports(alloc, found)?, found),
        Subcommand::Status => line(alloc, read_status(alloc, found)?, found),
        Subcommand::Upgrade => line(alloc, Asking::Upgrade, found),
        Subcommand::Script => script(alloc, found),
        Subcommand::Session => Ok(Order::Session(text(alloc, found, LineOption::Database)?)),
        Subcommand::Check => Ok(Order::Check(text(alloc, found, LineOption::Checked)?)),
        Subcommand::Lint => read_lint(alloc, found),
        Subcommand::Backup => read_backup(alloc, found),
        Subcommand::Outputs => read_outputs(alloc, found),
        Subcommand::Explain => read_topic(alloc, found),
    }
}

/// Returns what the words ask for that `clap` parsed.
fn order_in(alloc: Global, matches: &ArgMatches<'_>) -> Result<Order, Usage>
    ensures order { IfOk result (λ order.
        OfTaken (λ words. IsOrderOf words order) (subcommand_rows_of matches.now)) }
    ensures refused { IfErr result (λ usage.
        OfTaken (λ words. Explains words usage) (subcommand_rows_of matches.now)) }
{
    let Some((name, found)) = matches.subcommand() else {
        return Err(Usage::Incomplete);
    };
    match Subcommand::named(name) {
        Some(subcommand) => order_of(alloc, subcommand, found),
        None => Err(Usage::Incomplete),
    }
}

/// Returns what the words ask for, of which the first is the program's name. `clap` parses them: one subcommand, each
/// option given once, `--db` always except for an explanation; limits and ages are numbers of 64 bits.
///
/// Other words, and a request for help, are `Refused`; an unknown view is `UnknownView`. Any words may run out of
/// memory, in `clap` too.
pub fn read_words(alloc: Global, words: &[String]) -> Result<Order, Usage>
    // An accepted command line has exactly the subcommand and the values that `clap` finds in it,
    // under the command as defined.
    ensures order { IfOk result (IsOrderOf (map string_bytes words.now)) }
    // A refused one was refused by `clap`, names an unknown view, lacks a required value or a
    // number's text, or ran out of memory.
    ensures refused { IfErr result (Explains (map string_bytes words.now)) }
{
    let matches = parse(alloc, words)?;
    order_in(alloc, &matches)
}
