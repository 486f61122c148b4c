//! Programs.

ghost use Rattle.std.specs.Prelude.{◌≡◌, length, None};
ghost use Rattle.qt_grammar.specs.Sorts.{item};
ghost use Rattle.qt_grammar.specs.Language as g;
ghost use Rattle.qt_grammar.specs.Outcome.{Says, Tells};
ghost use Rattle.qt_grammar.specs.Spelling.{language_limits};
ghost use Rattle.qt_expr.specs.Parser.{rest_some};
ghost use Rattle.qt_parse.specs.Parser.{read_statement_item, read_global, read_items, read_version_number, read_version, read_versions, read_whole};

use crate::bodies::statement_form;
use crate::definitions::definition;
use qt_expr::grown::{appended, begun};
use qt_grammar::maximum::MOST_LEVELS;
use qt_grammar::refusal::Refusal;
use qt_items::arrays::array_item;
use qt_items::gates::gate_item;
use qt_items::items::{include, input, output, qubit_item, register_item};
use qt_lookahead::begins::begins_item;
use qt_lookahead::one_token::{exactly, next_is};
use qt_lookahead::pieces::with_semicolon;
use qt_terminals::stream::TokenStream;
use qt_terminals::terminal::Terminal;
use qt_tree::label::Label;
use qt_tree::place::Place;
use qt_tree::program::{Item, Program, Version, VersionNumber};
use qt_tree::statement::Statement;
use sqlite_items::Items;
use std::alloc::Global;

/// A statement as an item.
#[tactic(auto, using(crate::proofs::Alternatives::statement_item_made))]
fn statement_item(
    alloc: Global,
    tokens: &TokenStream<'_>,
    levels: usize,
    at: usize,
    place: Place,
) -> Result<(Item, usize), Refusal>
    ensures { Says (read_statement_item tokens.now levels place at) result }
{
    let (form, at) = statement_form(alloc, tokens, levels, at)?;
    let statement = Statement { place, form };
    Ok((Item::Statement { statement }, at))
}

/// `global = include | io | qubits | arrays | gate | def | statement`
fn global(
    alloc: Global,
    tokens: &TokenStream<'_>,
    levels: usize,
    at: usize,
) -> Result<(Item, usize), Refusal>
    ensures { Says (read_global tokens.now levels at) result }
{
    let place = tokens.place(at);
    match tokens.terminal(at) {
        Terminal::Include => include(alloc, tokens, at, place),
        Terminal::Input => input(alloc, tokens, levels, at, place),
        Terminal::Output => output(alloc, tokens, levels, at, place),
        Terminal::Qubit => qubit_item(alloc, tokens, levels, at, place),
        Terminal::Qreg => register_item(alloc, tokens, levels, at, place),
        Terminal::Array => array_item(alloc, tokens, levels, at, place),
        Terminal::Gate => gate_item(alloc, tokens, levels, at, place),
        Terminal::Def => definition(alloc, tokens, levels, at, place),
        _ => statement_item(alloc, tokens, levels, at, place),
    }
}

/// `{ global }`
#[tactic(auto, using(crate::proofs::Lists::items_are, crate::proofs::Lists::items_are_none))]
fn items(
    alloc: Global,
    tokens: &TokenStream<'_>,
    levels: usize,
    at: usize,
) -> Result<(Items<Item>, usize), Refusal>
    ensures { Says (read_items tokens.now levels at) result }
{
    if !begins_item(tokens, at) {
        return Ok((Items::new(alloc), at));
    }
    let (all, at) = begun(alloc, global(alloc, tokens, levels, at))?;
    more_items(alloc, tokens, levels, at, all)
}

/// The items behind the first.
#[tactic(auto, using(qt_expr::proofs::Loops::some_ends, qt_expr::proofs::Loops::some_stops, crate::proofs::Lists::items_go_on))]
fn more_items(
    alloc: Global,
    tokens: &TokenStream<'_>,
    levels: usize,
    at: usize,
    all: Items<Item>,
) -> Result<(Items<Item>, usize), Refusal>
    ensures { Says (rest_some tokens.now {s = item} g.global levels None (length tokens.now) all at) result }
{
    let mut all = all;
    let mut at = at;
    'turn: for turn in 0..tokens.len() {
        if !begins_item(tokens, at) {
            return Ok((all, at));
        }
        at = appended(&mut all, global(alloc, tokens, levels, at))?;
    }
    Ok((all, at))
}

/// `Integer | Decimal`, behind the terminal of a version.
#[tactic(auto, unfolding(crate::specs::Parser::read_version_number, qt_lookahead::specs::OneToken::read_exactly))]
fn version_number(
    alloc: Global,
    tokens: &TokenStream<'_>,
    at: usize,
) -> Result<(VersionNumber, usize), Refusal>
    ensures { Says (read_version_number tokens.now at) result }
{
    if next_is(tokens, at, Terminal::Integer) {
        let value = tokens.integer(at);
        let at = exactly(tokens, at, Terminal::Integer)?;
        return Ok((VersionNumber::Integer { value }, at));
    }
    let number = at;
    let at = exactly(tokens, at, Terminal::Decimal)?;
    let text = Label::new(alloc, tokens.spelling(number))?;
    Ok((VersionNumber::Decimal { text }, at))
}

/// `version = "OPENQASM" ( Integer | Decimal ) ";"`
#[tactic(auto, unfolding(crate::specs::Parser::read_version, crate::specs::Parser::read_version_number, qt_lookahead::specs::OneToken::read_exactly))]
fn version(alloc: Global, tokens: &TokenStream<'_>, at: usize) -> Result<(Version, usize), Refusal>
    ensures { Says (read_version tokens.now at) result }
{
    let place = tokens.place(at);
    let at = exactly(tokens, at, Terminal::OpenQasm)?;
    let (number, at) = version_number(alloc, tokens, at)?;
    let (number, at) = with_semicolon(tokens, number, at)?;
    Ok((Version { place, number }, at))
}

/// `[ version ]`
#[tactic(auto, unfolding(crate::specs::Parser::read_versions, crate::specs::Parser::read_version))]
fn versions(
    alloc: Global,
    tokens: &TokenStream<'_>,
    at: usize,
) -> Result<(Items<Version>, usize), Refusal>
    ensures { Says (read_versions tokens.now at) result }
{
    if !next_is(tokens, at, Terminal::OpenQasm) {
        return Ok((Items::new(alloc), at));
    }
    begun(alloc, version(alloc, tokens, at))
}

/// `program = [ version ] { global }`, and then the end of the text.
#[tactic(auto, using(crate::proofs::Whole::whole_is, crate::proofs::Whole::the_end, crate::proofs::Whole::no_end))]
pub fn whole(alloc: Global, tokens: &TokenStream<'_>) -> Result<Program, Refusal>
    ensures { Tells (read_whole tokens.now language_limits.levels 0) result }
{
    let (versions, at) = versions(alloc, tokens, 0)?;
    let (items, at) = items(alloc, tokens, MOST_LEVELS, at)?;
    if !next_is(tokens, at, Terminal::End) {
        return Err(Refusal::Syntax(at));
    }
    let end = tokens.place(at);
    Ok(Program {
        versions,
        items,
        end,
    })
}
