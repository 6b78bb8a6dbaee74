//! The words of the command line, taken apart by `clap`.

ghost use Rattle.std.specs.Prelude.{◌≡◌, [], true, map, string_bytes, IfErr, IfOk, IfSome, OnOk, OnSome};
ghost use Rattle.clap.specs.Words.{app_of, fault_of, is_simple_and_free, subcommand_of, subcommand_rows_of};
ghost use Rattle.wu_arguments.specs.CommandLine.{named_by, program};
ghost use Rattle.wu_arguments.specs.Refusals.{IsRefusal, IsRefusalBy};

use crate::command::{command, command_alone};
use crate::subcommand::Subcommand;
use crate::usage::{Usage, told};
use clap::{ArgMatches, Command};
use std::alloc::Global;

/// Returns what `clap` finds by a command in the words, of which the first is the program's name.
pub fn parse_by<'a>(
    alloc: Global,
    command: Command<'a>,
    words: &'a [String],
) -> Result<ArgMatches<'a>, Usage>
    // The command is one that the contracts of `clap` speak of: simple, and its options are its
    // own.
    requires { is_simple_and_free (app_of command) ≡ true }
    // The subcommand and the values are those that the command's definition finds in the words.
    ensures found { IfOk result (λ found.
        subcommand_rows_of found
        ≡ subcommand_of (app_of command.entry) (map string_bytes words.now)) }
    // With Ok the command's definition refuses nothing in the words.
    ensures taken { OnOk result (
        fault_of (app_of command.entry) (map string_bytes words.now) ≡ []) }
    // A refusal by `clap` means that the command's definition refuses the words; any other is out
    // of memory.
    ensures refused { IfErr result (
        IsRefusalBy (app_of command.entry) (map string_bytes words.now)) }
{
    match command.try_get_matches_from(words) {
        Ok(found) => Ok(found),
        Err(error) => Err(told(alloc, &error)),
    }
}

/// Returns the subcommand that the word after the program's name names.
fn named_by(words: &[String]) -> Option<Subcommand>
    ensures { result ≡ named_by (map string_bytes words.now) }
{
    match words.get(1) {
        Some(word) => Subcommand::named(word.as_str()),
        None => None,
    }
}

/// Returns what `clap` finds in the words by the command with one subcommand alone; `None` if no subcommand is named, or
/// if that command gives no matches.
fn parse_alone<'a>(alloc: Global, words: &'a [String]) -> Option<ArgMatches<'a>>
    ensures found { IfSome result (λ found.
        subcommand_rows_of found ≡ subcommand_of program (map string_bytes words.now)) }
    ensures taken { OnSome result (fault_of program (map string_bytes words.now) ≡ []) }
{
    let Some(one) = named_by(words) else {
        return None;
    };
    match command_alone(alloc, one) {
        Ok(command) => parse_by(alloc, command, words).ok(),
        Err(_) => None,
    }
}

/// Returns what `clap` finds in the words by the command of the program. It first tries the named subcommand alone, and
/// makes the whole command only where that does not take the words: it has the text of a refusal.
pub fn parse<'a>(alloc: Global, words: &'a [String]) -> Result<ArgMatches<'a>, Usage>
    // The subcommand and the values are those that the program's definition finds in the words.
    ensures found { IfOk result (λ found.
        subcommand_rows_of found ≡ subcommand_of program (map string_bytes words.now)) }
    // With Ok the program's definition refuses nothing in the words.
    ensures taken { OnOk result (fault_of program (map string_bytes words.now) ≡ []) }
    // A refusal by `clap` means that the program's definition refuses the words; any other is out
    // of memory.
    ensures refused { IfErr result (IsRefusal (map string_bytes words.now)) }
{
    match parse_alone(alloc, words) {
        Some(found) => Ok(found),
        None => parse_by(alloc, command(alloc)?, words),
    }
}
