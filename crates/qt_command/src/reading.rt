//! What the words say, one after another.

ghost use Rattle.std.specs.Prelude.{◌≡◌, ◌≢◌, IfOk, map, string_bytes, OnOk, MatchResult, codes};
ghost use Rattle.std.specs.Option.{option_copied};
ghost use Rattle.clap.specs.Words.{rows_of, found_of, fault_of, matches_of, HasKind, first_of};
ghost use Rattle.qt_command.specs.Command.{qtree};
ghost use Rattle.qt_command.specs.Arguments.{Gives, arguments_in, arguments_of, is_given, mode_named, mode_of, most, number_at, number_given, option_name, settings_of, usual, word_of, words_of};
ghost use Rattle.qt_command.specs.declared.arguments.WordsRefusal.TheVariants as refusal;

use crate::arguments::{Arguments, Mode, NumberOption, WordsRefusal};
use crate::command::matches;
use crate::numbers::number_of;
use crate::settings::settings_of;
use clap::error::ErrorKind;
use clap::{ArgMatches, Error};
use qt_tree::label::{Label, Setting};
use sqlite_items::Items;
use std::alloc::Global;

/// The word of that name, or the empty one.
fn word_of<'a>(found: &ArgMatches<'a>, id: &str) -> &'a str
    ensures { result.now ≡ word_of id.now (rows_of (found_of found.now)) }
{
    match found.get_str(id) {
        Some(word) => word,
        None => "",
    }
}

/// The mode that a word names.
fn mode_named(word: &str) -> Option<Mode>
    ensures { result ≡ mode_named word.now }
{
    match word {
        "run" => Some(Mode::Run),
        "check" => Some(Mode::Check),
        "format" => Some(Mode::Format),
        _ => None,
    }
}

/// The mode that a word names, or `W2`.
fn mode_of(alloc: Global, word: &str) -> Result<Mode, WordsRefusal>
    ensures { Gives (mode_of word.now) result }
{
    match mode_named(word) {
        Some(mode) => Ok(mode),
        None => Err(WordsRefusal::Mode {
            word: Label::new(alloc, word)?,
        }),
    }
}

impl NumberOption {
    /// How it is written behind the two dashes.
    pub fn name(self) -> &'static str
        ensures { result.now ≡ option_name self }
    {
        match self {
            NumberOption::Workers => "workers",
            NumberOption::Fuel => "fuel",
        }
    }

    /// The greatest number that it may have.
    fn most(self) -> u32
        ensures { result ≡ most self }
    {
        match self {
            NumberOption::Workers => 16,
            NumberOption::Fuel => 10_000_000,
        }
    }

    /// The number where it isn't given.
    fn usual(self) -> u32
        ensures { result ≡ usual self }
    {
        match self {
            NumberOption::Workers => 4,
            NumberOption::Fuel => 100_000,
        }
    }
}

/// The number of an option, or `W3`.
fn number_given(option: NumberOption, text: Option<&str>) -> Result<u32, WordsRefusal>
    ensures { Gives (number_given option (option_copied text.entry)) result }
{
    match text {
        Some(text) => number_of(option.most(), text).ok_or(WordsRefusal::Number { option }),
        None => Ok(option.usual()),
    }
}

fn number_at(option: NumberOption, found: &ArgMatches<'_>) -> Result<u32, WordsRefusal>
    ensures { Gives (number_at option (rows_of (found_of found.now))) result }
{
    number_given(option, found.get_str(option.name()))
}

/// The settings, or `W4`.
fn settings_at(
    alloc: Global,
    mode: Mode,
    found: &ArgMatches<'_>,
) -> Result<Items<Setting>, WordsRefusal>
    ensures { Gives (settings_of mode (words_of (codes "setting") (rows_of (found_of found.now)))) result }
{
    match found.get_strs("setting") {
        Some(words) => settings_of(alloc, mode, words),
        None => settings_of(alloc, mode, &[]),
    }
}

/// What is heard of the words that the command has found.
#[tactic(auto, unfolding(crate::specs::Arguments::arguments_in))]
fn arguments_in(alloc: Global, found: &ArgMatches<'_>) -> Result<Arguments, WordsRefusal>
    ensures { Gives (arguments_in (rows_of (found_of found.now))) result }
{
    let mode = mode_of(alloc, word_of(found, "mode"))?;
    let workers = number_at(NumberOption::Workers, found)?;
    let fuel = number_at(NumberOption::Fuel, found)?;
    let settings = settings_at(alloc, mode, found)?;
    Ok(Arguments {
        mode,
        file: Label::new(alloc, word_of(found, "file"))?,
        settings,
        workers,
        fuel,
        json: word_of(found, "json") == "true",
    })
}

#[tactic(auto, unfolding(crate::specs::Arguments::arguments_of))]
/// What the words say: the arguments that `specs/Arguments.antt` finds in them, or the first refusal, `W1` to `W4` in this order; or
/// want of memory.
pub fn arguments_of(alloc: Global, words: &[String]) -> Result<Arguments, WordsRefusal>
    ensures { Gives (arguments_of (map string_bytes words.now)) result }
{
    match matches(alloc, words) {
        Ok(found) => arguments_in(alloc, &found),
        Err(error) => match error.kind() {
            ErrorKind::OutOfMemory => Err(WordsRefusal::OutOfMemory),
            _ => Err(WordsRefusal::Words),
        },
    }
}
