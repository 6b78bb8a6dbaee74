//! The command of the program, as `clap` builds it.

ghost use Rattle.std.specs.Prelude.{◌≡◌, [], false, map, IfOk};
ghost use Rattle.clap.specs.Words.{app_of, rule_of};
ghost use Rattle.clap.specs.declared.builder.command.Command.TheViews.{out-Command};
ghost use Rattle.wu_arguments.specs.CommandLine.{bare_rule, is_required_value, leaf_with, local_rule, local_shape, named_rule, option_rule, program, program_alone, program_with, rule_and_global, shape_and_globals, subcommand_shape};

use crate::option::{LineOption, OptionForm, OptionValue};
use crate::subcommand::{SUBCOMMANDS, Subcommand, SubcommandForm};
use clap::{Arg, ArgAction, Command, value_parser};
use std::alloc::{AllocError, Global};

/// Makes an option by its name, with what help says of it.
fn bare_arg<'a>(alloc: Global, form: OptionForm) -> Arg<'a>
    ensures rule { rule_of result ≡ bare_rule form.name.now (is_required_value form.value) }
    ensures local { result.global ≡ false }
{
    Arg::new(alloc, form.name)
        .value_name(form.value_name)
        .help(form.help)
        .required(form.value.is_required())
        .action(ArgAction::Set)
}

/// Makes an option whose value follows its name.
fn named_arg<'a>(alloc: Global, form: OptionForm) -> Arg<'a>
    ensures rule { rule_of result ≡ named_rule form.name.now (is_required_value form.value) }
    ensures local { result.global ≡ false }
{
    bare_arg(alloc, form).long(form.name)
}

/// Makes an option, with what help says of it.
fn arg<'a>(alloc: Global, option: LineOption) -> Arg<'a>
    ensures rule { rule_of result ≡ option_rule option }
    ensures local { result.global ≡ false }
{
    let form = option.form();
    match form.value {
        OptionValue::Word => bare_arg(alloc, form),
        OptionValue::Number => named_arg(alloc, form).value_parser(value_parser!(u64)),
        _ => named_arg(alloc, form),
    }
}

/// Makes a subcommand without its options.
fn bare_subcommand<'a>(alloc: Global, form: SubcommandForm) -> Command<'a>
    ensures shape { app_of result ≡ leaf_with form.name.now [] }
    ensures local { (out-Command result).has_globals ≡ false }
{
    Command::new(alloc, form.name)
        .about(form.about)
        .after_help(form.example)
}

/// Makes arguments of these options, in their order.
fn args<'a>(alloc: Global, options: &[LineOption]) -> Result<Vec<Arg<'a>>, AllocError>
    ensures { IfOk result (λ args. map rule_and_global args.items ≡ map local_rule options.now) }
{
    let mut args = Vec::with_capacity(alloc, options.len())?;
    for option in options {
        args.push_reserved(arg(alloc, *option));
    }
    Ok(args)
}

/// Makes a subcommand with its options.
fn subcommand<'a>(alloc: Global, subcommand: Subcommand) -> Result<Command<'a>, AllocError>
    ensures { IfOk result (λ command. shape_and_globals command ≡ local_shape subcommand) }
{
    let form = subcommand.form();
    let args = args(alloc, form.options)?;
    bare_subcommand(alloc, form).args(args)
}

/// Makes these subcommands, each with its options.
fn subcommands<'a>(alloc: Global, which: &[Subcommand]) -> Result<Vec<Command<'a>>, AllocError>
    ensures { IfOk result (λ all. map shape_and_globals all.items ≡ map local_shape which.now) }
{
    let mut all = Vec::with_capacity(alloc, which.len())?;
    for one in which {
        all.push_reserved(subcommand(alloc, *one)?);
    }
    Ok(all)
}

/// What `--version` prints after the program's name. No contract speaks of it: a scenario shows it, and `tools/docs`
/// holds it against the schema's present version and the toolchain's logic.
const VERSION: &str = "0.1.0 (schema version 3, logic dac8208d650f15bf)";

/// Makes the command of the program without its subcommands.
fn bare_command<'a>(alloc: Global) -> Command<'a>
    ensures { app_of result ≡ program_with [] }
{
    Command::new(alloc, "lintelthyme")
        .about("The back end of a BOINC project: one command on a project in a database file")
        .version(VERSION)
        .after_help(
            "With no word after its name, the program runs a demonstration in memory.\nStatus: 0 done; 1 refused; 2 wrong words; 3 the database failed or could not be opened; 4 no memory; 5 the output failed.",
        )
        .subcommand_required(true)
}

/// Makes the command of the program with these subcommands alone.
fn command_with<'a>(alloc: Global, which: &[Subcommand]) -> Result<Command<'a>, AllocError>
    ensures { IfOk result (λ command.
        app_of command ≡ program_with (map subcommand_shape which.now)) }
{
    let subcommands = subcommands(alloc, which)?;
    bare_command(alloc).subcommands(subcommands)
}

/// Makes the command of the program: one subcommand a line, each with its options, in the order of help.
pub fn command<'a>(alloc: Global) -> Result<Command<'a>, AllocError>
    // The command is the program's definition: each subcommand with its options and their rules.
    ensures { IfOk result (λ command. app_of command ≡ program) }
{
    command_with(alloc, &SUBCOMMANDS)
}

/// Makes the command of the program with one subcommand alone, which takes a fraction of the time.
pub fn command_alone<'a>(alloc: Global, one: Subcommand) -> Result<Command<'a>, AllocError>
    // The command is the program's definition without all other subcommands.
    ensures { IfOk result (λ command. app_of command ≡ program_alone one) }
{
    command_with(alloc, &[one])
}
