//! The values that `clap` found for the options of a line.

ghost use Rattle.std.specs.Prelude.{◌≡◌, IfErr, IfOk, option_map};
ghost use Rattle.clap.specs.Words.{found_of, rows_of};
ghost use Rattle.wu_arguments.specs.Lines.{IsNumberIn, IsTextIn, IsViewIn, value_in};
ghost use Rattle.wu_arguments.specs.Refusals.{HasText, IsUnseen, IsWithout, LacksNumberText, LacksText, TellsLack, WantsOnly};
ghost use Rattle.wu_arguments.specs.declared.usage.Usage.TheVariants.{Memory};

use crate::option::LineOption;
use crate::usage::Usage;
use crate::view::view_named;
use crate::word::Word;
use clap::ArgMatches;
use std::alloc::Global;
use wu_machine::View;

/// Returns the first value of an option.
fn value<'a>(found: &ArgMatches<'a>, option: LineOption) -> Option<&'a str>
    ensures { option_map (λ text. text.now) result
        ≡ value_in (rows_of (found_of found.now)) option }
{
    found.get_str(option.form().name)
}

/// Returns the text of an option that has to be given.
pub fn text(alloc: Global, found: &ArgMatches<'_>, option: LineOption) -> Result<Word, Usage>
    // The text is the first value that `clap` found for the option.
    ensures value { IfOk result (IsTextIn (rows_of (found_of found.now)) option) }
    // A refusal says that a value is lacking, which is so, or it is out of memory.
    ensures refused { IfErr result (IsWithout (LacksText (rows_of (found_of found.now)) option)) }
    // Out of memory is reported only where the option has a value.
    ensures wants { WantsOnly result (HasText (rows_of (found_of found.now)) option) }
{
    match value(found, option) {
        Some(text) => Ok(Word::from_text(alloc, text)?),
        None => Err(Usage::Incomplete),
    }
}

/// Returns the text of an option, if it is given.
pub fn text_if_any(
    alloc: Global,
    found: &ArgMatches<'_>,
    option: LineOption,
) -> Result<Option<Word>, Usage>
    // The text is the first value that `clap` found for the option, or `None` where it found none.
    ensures value { IfOk result (λ word. value_in (rows_of (found_of found.now)) option ≡ word) }
    // The only refusal is out of memory.
    ensures refused { IfErr result (λ usage. usage ≡ Memory) }
    // Out of memory is reported only where the option has a value.
    ensures wants { WantsOnly result (HasText (rows_of (found_of found.now)) option) }
{
    match value(found, option) {
        Some(text) => Ok(Some(Word::from_text(alloc, text)?)),
        None => Ok(None),
    }
}

/// Returns the number of an option that has to be given. It takes no memory.
pub fn number(found: &ArgMatches<'_>, option: LineOption) -> Result<u64, Usage>
    // The number is what the one value that `clap` found for the option writes in decimal.
    ensures value { IfOk result (IsNumberIn (rows_of (found_of found.now)) option) }
    // The only refusal is that a number is lacking, and there is none; it is never out of memory.
    ensures refused { IfErr result
        (TellsLack (LacksNumberText (rows_of (found_of found.now)) option)) }
{
    match found.get_one(option.form().name) {
        Some(number) => Ok(number),
        None => Err(Usage::Incomplete),
    }
}

/// Returns the view that is to be shown. It takes no memory.
pub fn view(found: &ArgMatches<'_>) -> Result<View, Usage>
    // The view is that of the name that `clap` found.
    ensures value { IfOk result (λ view. IsViewIn (rows_of (found_of found.now)) (Some view)) }
    // A refusal says that the name is no view, or that it is lacking; it is never out of memory.
    ensures refused { IfErr result (IsUnseen (rows_of (found_of found.now))) }
{
    match value(found, LineOption::View) {
        Some(name) => match view_named(name) {
            Some(view) => Ok(view),
            None => Err(Usage::UnknownView),
        },
        None => Err(Usage::Incomplete),
    }
}
