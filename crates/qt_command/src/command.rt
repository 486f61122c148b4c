//! The command of `clap`, and what it finds in words.

ghost use Rattle.std.specs.Prelude.{◌≡◌, ◌≢◌, [], IfOk, MatchResult, map, string_bytes, false};
ghost use Rattle.clap.specs.Words.{app_of, rule_of, rows_of, found_of, fault_of, matches_of, HasKind};
ghost use Rattle.qt_command.specs.Command.{qtree, bare, positional, option, flag, several, with_words};

use clap::{Arg, ArgAction, ArgMatches, Command, Error};
use std::alloc::{AllocError, Global};

/// A word that must be there.
fn positional<'a>(alloc: Global, id: &'a str) -> Arg<'a>
    ensures rule { rule_of result ≡ positional id.entry.now }
    ensures local { result.global ≡ false }
{
    Arg::new(alloc, id).required(true).action(ArgAction::Set)
}

/// Any number of words.
fn several<'a>(alloc: Global, id: &'a str) -> Arg<'a>
    ensures rule { rule_of result ≡ several id.entry.now }
    ensures local { result.global ≡ false }
{
    Arg::new(alloc, id).num_args(0..).action(ArgAction::Append)
}

/// An option with one value.
fn option<'a>(alloc: Global, id: &'a str) -> Arg<'a>
    ensures rule { rule_of result ≡ option id.entry.now }
    ensures local { result.global ≡ false }
{
    Arg::new(alloc, id).long(id).action(ArgAction::Set)
}

/// An option without a value.
fn flag<'a>(alloc: Global, id: &'a str) -> Arg<'a>
    ensures rule { rule_of result ≡ flag id.entry.now }
    ensures local { result.global ≡ false }
{
    Arg::new(alloc, id).long(id).action(ArgAction::SetTrue)
}

fn bare<'a>(alloc: Global) -> Command<'a>
    ensures { app_of result ≡ bare }
{
    Command::new(alloc, "qtree")
        .no_binary_name(true)
        .disable_help_flag(true)
        .disable_version_flag(true)
}

fn with_words<'a>(alloc: Global) -> Result<Command<'a>, AllocError>
    ensures { IfOk result (λ c. app_of c ≡ with_words) }
{
    let with_mode = bare(alloc).arg(positional(alloc, "mode"))?;
    let with_file = with_mode.arg(positional(alloc, "file"))?;
    let with_setting = with_file.arg(several(alloc, "setting"))?;
    Ok(with_setting)
}

/// The command.
fn command<'a>(alloc: Global) -> Result<Command<'a>, AllocError>
    ensures { IfOk result (λ c. app_of c ≡ qtree) }
{
    let with_workers = with_words(alloc)?.arg(option(alloc, "workers"))?;
    let with_fuel = with_workers.arg(option(alloc, "fuel"))?;
    let with_json = with_fuel.arg(flag(alloc, "json"))?;
    Ok(with_json)
}

/// What the command finds in the words. But for want of memory, they are refused exactly where the command finds a fault.
#[tactic(auto, unfolding(crate::specs::Command::qtree))]
pub fn matches<'a>(alloc: Global, words: &'a [String]) -> Result<ArgMatches<'a>, Error>
    ensures ok { IfOk result (λ m. rows_of (found_of m) ≡ matches_of qtree (map string_bytes words.entry.now)) }
    ensures kinds { MatchResult result
        (λ _. fault_of qtree (map string_bytes words.entry.now) ≡ [])
        (HasKind (fault_of qtree (map string_bytes words.entry.now))) }
{
    command(alloc)?.try_get_matches_from(words)
}
