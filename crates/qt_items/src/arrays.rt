//! Arrays and their values.

ghost use Rattle.std.specs.Prelude.{◌≡◌, length, None};
ghost use Rattle.qt_terminals.specs.declared.terminal.Terminal.TheVariants as w;
ghost use Rattle.qt_grammar.specs.Sorts.{entry};
ghost use Rattle.qt_grammar.specs.Language as g;
ghost use Rattle.qt_grammar.specs.Outcome.{Says};
ghost use Rattle.qt_expr.specs.Parser.{rest_separated};
ghost use Rattle.qt_items.specs.Parser.{read_list, read_entries, read_entry_list, read_entry, read_in_array, read_element_and_lengths, read_array_value, read_array_item, read_array_parts, read_element_in_brackets, read_name_and_list};

use qt_expr::expression::{expression, expressions, scalar};
use qt_expr::grown::{appended, begun};
use qt_expr::names::label;
use qt_grammar::refusal::Refusal;
use qt_lookahead::begins::{begins_entry, begins_scalar};
use qt_lookahead::nesting::too_deep;
use qt_lookahead::one_token::{behind, exactly, next_is};
use qt_lookahead::pieces::{ended, paired, with_semicolon};
use qt_terminals::stream::TokenStream;
use qt_terminals::terminal::Terminal;
use qt_tree::expression::{Expr, Scalar};
use qt_tree::label::Label;
use qt_tree::place::Place;
use qt_tree::program::{ArrayItem, Item, ListItem};
use sqlite_items::Items;
use std::alloc::Global;

/// `list = "{" item { "," item } "}"`
#[tactic(auto, unfolding(crate::specs::Parser::read_list, crate::specs::Parser::read_entries, qt_lookahead::specs::OneToken::read_exactly))]
#[cycle(entry)]
fn list(
    alloc: Global,
    tokens: &TokenStream<'_>,
    levels: usize,
    at: usize,
) -> Result<(Items<ListItem>, usize), Refusal>
    ensures { Says (read_list tokens.now levels at) result }
{
    let at = exactly(tokens, at, Terminal::LeftBrace)?;
    let (all, at) = entries(alloc, tokens, levels, at)?;
    ended(tokens, all, at, Terminal::RightBrace)
}

/// What stands in the braces of a list, one level deeper.
#[tactic(auto, using(crate::proofs::Levels::entries_is), unfolding(crate::specs::Parser::read_entries))]
#[cycle(entry)]
fn entries(
    alloc: Global,
    tokens: &TokenStream<'_>,
    levels: usize,
    at: usize,
) -> Result<(Items<ListItem>, usize), Refusal>
    ensures { Says (read_entries tokens.now levels at) result }
{
    if levels == 0 {
        return Err(too_deep(at, begins_entry(tokens, at)));
    }
    entry_list(alloc, tokens, levels - 1, at)
}

/// Items with commas between, at least one.
#[tactic(auto, unfolding(crate::specs::Parser::read_entry_list, crate::specs::Parser::read_entry, qt_expr::specs::Parser::rest_separated))]
#[cycle(entry)]
fn entry_list(
    alloc: Global,
    tokens: &TokenStream<'_>,
    levels: usize,
    at: usize,
) -> Result<(Items<ListItem>, usize), Refusal>
    ensures { Says (read_entry_list tokens.now levels at) result }
{
    let (all, at) = begun(alloc, entry(alloc, tokens, levels, at))?;
    more_entries(alloc, tokens, levels, at, all)
}

/// The items behind the first.
#[tactic(auto, using(qt_expr::proofs::Loops::separated_ends, qt_expr::proofs::Loops::separated_stops, crate::proofs::Lists::entries_go_on))]
#[cycle(entry)]
fn more_entries(
    alloc: Global,
    tokens: &TokenStream<'_>,
    levels: usize,
    at: usize,
    all: Items<ListItem>,
) -> Result<(Items<ListItem>, usize), Refusal>
    ensures { Says (rest_separated tokens.now {s = entry} w.Comma g.entry_form levels None (length tokens.now) all at) result }
{
    let mut all = all;
    let mut at = at;
    'turn: for turn in 0..tokens.len() {
        if !next_is(tokens, at, Terminal::Comma) {
            return Ok((all, at));
        }
        at = appended(&mut all, entry(alloc, tokens, levels, behind(tokens, at)))?;
    }
    Ok((all, at))
}

/// `item = list | expr`
#[tactic(auto, unfolding(crate::specs::Parser::read_entry, crate::specs::Parser::read_list, qt_expr::specs::Parser::read_expression))]
#[cycle(entry)]
fn entry(
    alloc: Global,
    tokens: &TokenStream<'_>,
    levels: usize,
    at: usize,
) -> Result<(ListItem, usize), Refusal>
    ensures { Says (read_entry tokens.now levels at) result }
{
    if next_is(tokens, at, Terminal::LeftBrace) {
        let (items, at) = list(alloc, tokens, levels, at)?;
        return Ok((ListItem::List { items }, at));
    }
    let (value, at) = expression(alloc, tokens, levels, at)?;
    Ok((ListItem::Value { value }, at))
}

/// `[ "=" list ]`
#[tactic(auto, unfolding(crate::specs::Parser::read_array_value, crate::specs::Parser::read_list, qt_lookahead::specs::OneToken::read_exactly))]
fn array_value(
    alloc: Global,
    tokens: &TokenStream<'_>,
    levels: usize,
    at: usize,
) -> Result<(Option<Items<ListItem>>, usize), Refusal>
    ensures { Says (read_array_value tokens.now levels at) result }
{
    if !next_is(tokens, at, Terminal::Assign) {
        return Ok((None, at));
    }
    let at = exactly(tokens, at, Terminal::Assign)?;
    let (value, at) = list(alloc, tokens, levels, at)?;
    Ok((Some(value), at))
}

/// `scalar "," expr { "," expr }`
#[tactic(auto, unfolding(crate::specs::Parser::read_element_and_lengths, qt_expr::specs::Parser::read_scalar, qt_expr::specs::Parser::read_expressions, qt_lookahead::specs::OneToken::read_exactly))]
fn element_and_lengths(
    alloc: Global,
    tokens: &TokenStream<'_>,
    levels: usize,
    at: usize,
) -> Result<((Scalar, Items<Expr>), usize), Refusal>
    ensures { Says (read_element_and_lengths tokens.now levels at) result }
{
    let (scalar, at) = scalar(alloc, tokens, levels, at)?;
    let (scalar, at) = ended(tokens, scalar, at, Terminal::Comma)?;
    let dimensions = expressions(alloc, tokens, levels, at);
    paired(scalar, dimensions)
}

/// What stands in the brackets of an array, one level deeper.
#[tactic(auto, using(crate::proofs::Levels::in_array_is), unfolding(crate::specs::Parser::read_in_array))]
fn in_array(
    alloc: Global,
    tokens: &TokenStream<'_>,
    levels: usize,
    at: usize,
) -> Result<((Scalar, Items<Expr>), usize), Refusal>
    ensures { Says (read_in_array tokens.now levels at) result }
{
    if levels == 0 {
        return Err(too_deep(at, begins_scalar(tokens, at)));
    }
    element_and_lengths(alloc, tokens, levels - 1, at)
}

/// `"[" scalar "," expr { "," expr } "]"`
#[tactic(auto, unfolding(crate::specs::Parser::read_element_in_brackets, crate::specs::Parser::read_in_array, qt_lookahead::specs::OneToken::read_exactly))]
fn element_in_brackets(
    alloc: Global,
    tokens: &TokenStream<'_>,
    levels: usize,
    at: usize,
) -> Result<((Scalar, Items<Expr>), usize), Refusal>
    ensures { Says (read_element_in_brackets tokens.now levels at) result }
{
    let at = exactly(tokens, at, Terminal::LeftBracket)?;
    let (inside, at) = in_array(alloc, tokens, levels, at)?;
    ended(tokens, inside, at, Terminal::RightBracket)
}

/// `Name [ "=" list ]`
#[tactic(auto, unfolding(crate::specs::Parser::read_name_and_list, crate::specs::Parser::read_array_value, qt_expr::specs::Parser::read_label))]
fn name_and_list(
    alloc: Global,
    tokens: &TokenStream<'_>,
    levels: usize,
    at: usize,
) -> Result<((Label, Option<Items<ListItem>>), usize), Refusal>
    ensures { Says (read_name_and_list tokens.now levels at) result }
{
    let (name, at) = label(alloc, tokens, at)?;
    paired(name, array_value(alloc, tokens, levels, at))
}

/// The type of an array's items with its lengths, and its name with its value.
type ArrayParts = ((Scalar, Items<Expr>), (Label, Option<Items<ListItem>>));

/// `"array" "[" scalar "," expr { "," expr } "]" Name [ "=" list ]`
#[tactic(auto, unfolding(crate::specs::Parser::read_array_parts, crate::specs::Parser::read_element_in_brackets, crate::specs::Parser::read_name_and_list, qt_lookahead::specs::OneToken::read_exactly))]
fn array_parts(
    alloc: Global,
    tokens: &TokenStream<'_>,
    levels: usize,
    at: usize,
) -> Result<(ArrayParts, usize), Refusal>
    ensures { Says (read_array_parts tokens.now levels at) result }
{
    let at = exactly(tokens, at, Terminal::Array)?;
    let (element, at) = element_in_brackets(alloc, tokens, levels, at)?;
    paired(element, name_and_list(alloc, tokens, levels, at))
}

/// `"array" "[" scalar "," expr { "," expr } "]" Name [ "=" list ] ";"`
#[tactic(auto, unfolding(crate::specs::Parser::read_array_item, crate::specs::Parser::read_array_parts, qt_lookahead::specs::OneToken::read_exactly))]
pub fn array_item(
    alloc: Global,
    tokens: &TokenStream<'_>,
    levels: usize,
    at: usize,
    place: Place,
) -> Result<(Item, usize), Refusal>
    ensures { Says (read_array_item tokens.now levels place at) result }
{
    let (parts, at) = array_parts(alloc, tokens, levels, at)?;
    let (((scalar, dimensions), (name, value)), at) = with_semicolon(tokens, parts, at)?;
    let array = ArrayItem {
        place,
        scalar,
        dimensions,
        name,
        value,
    };
    Ok((Item::Array { array }, at))
}
