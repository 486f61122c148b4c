//! Operands, targets and right sides.

ghost use Rattle.std.specs.Prelude.{◌≡◌, ◌<◌, length, None};
ghost use Rattle.qt_terminals.specs.Alphabet as alphabet;
ghost use Rattle.qt_grammar.specs.Sorts.{operand};
ghost use Rattle.qt_grammar.specs.Language as g;
ghost use Rattle.qt_grammar.specs.Outcome.{Says};
ghost use Rattle.qt_expr.specs.Parser.{rest_separated};
ghost use Rattle.qt_simple_statements.specs.Parser.{read_operand, read_operands, read_any_operands, read_target, read_measured, read_right, read_first_value, read_index_in_brackets, read_optional_index};

use qt_expr::expression::{all_indexes, expression, index};
use qt_expr::grown::{appended, begun};
use qt_expr::handed_on::{closed, present};
use qt_expr::names::label;
use qt_grammar::refusal::Refusal;
use qt_lookahead::one_token::{behind, exactly, next_is};
use qt_lookahead::pieces::paired;
use qt_terminals::stream::TokenStream;
use qt_terminals::terminal::Terminal;
use qt_tree::expression::Index;
use qt_tree::statement::{Operand, Right, Target};
use sqlite_items::Items;
use std::alloc::Global;

/// `"[" index "]"`
#[tactic(auto, unfolding(crate::specs::Parser::read_index_in_brackets, qt_expr::specs::Parser::read_index, qt_lookahead::specs::OneToken::read_exactly))]
fn index_in_brackets(
    alloc: Global,
    tokens: &TokenStream<'_>,
    levels: usize,
    at: usize,
) -> Result<(Index, usize), Refusal>
    ensures { Says (read_index_in_brackets tokens.now levels at) result }
{
    let at = exactly(tokens, at, Terminal::LeftBracket)?;
    let index = index(alloc, tokens, levels, at);
    closed(tokens, index, Terminal::RightBracket)
}

/// `[ "[" index "]" ]`
#[tactic(auto, unfolding(crate::specs::Parser::read_optional_index, crate::specs::Parser::read_index_in_brackets))]
fn optional_index(
    alloc: Global,
    tokens: &TokenStream<'_>,
    levels: usize,
    at: usize,
) -> Result<(Option<Index>, usize), Refusal>
    ensures { Says (read_optional_index tokens.now levels at) result }
{
    if !next_is(tokens, at, Terminal::LeftBracket) {
        return Ok((None, at));
    }
    present(index_in_brackets(alloc, tokens, levels, at))
}

/// `operand = Name [ "[" index "]" ]`
#[tactic(auto, unfolding(crate::specs::Parser::read_operand, crate::specs::Parser::read_optional_index, qt_expr::specs::Parser::read_label))]
pub fn operand(
    alloc: Global,
    tokens: &TokenStream<'_>,
    levels: usize,
    at: usize,
) -> Result<(Operand, usize), Refusal>
    ensures { Says (read_operand tokens.now levels at) result }
{
    let (name, at) = label(alloc, tokens, at)?;
    let ((name, index), at) = paired(name, optional_index(alloc, tokens, levels, at))?;
    Ok((Operand { name, index }, at))
}

/// Operands with that terminal between, at least one.
#[tactic(auto, unfolding(crate::specs::Parser::read_operand, crate::specs::Parser::read_operands, qt_expr::specs::Parser::rest_separated))]
pub fn operands(
    alloc: Global,
    tokens: &TokenStream<'_>,
    levels: usize,
    at: usize,
    between: Terminal,
) -> Result<(Items<Operand>, usize), Refusal>
    requires { 0 < alphabet.code between }
    ensures { Says (read_operands tokens.now between levels at) result }
{
    let (all, at) = begun(alloc, operand(alloc, tokens, levels, at))?;
    more_operands(alloc, tokens, levels, at, between, all)
}

/// The operands behind the first.
fn more_operands(
    alloc: Global,
    tokens: &TokenStream<'_>,
    levels: usize,
    at: usize,
    between: Terminal,
    all: Items<Operand>,
) -> Result<(Items<Operand>, usize), Refusal>
    requires { 0 < alphabet.code between }
    ensures { Says (rest_separated tokens.now {s = operand} between g.an_operand levels None (length tokens.now) all at) result }
{
    let mut all = all;
    let mut at = at;
    'turn: for turn in 0..tokens.len() {
        if !next_is(tokens, at, between) {
            return Ok((all, at));
        }
        at = appended(&mut all, operand(alloc, tokens, levels, behind(tokens, at)))?;
    }
    Ok((all, at))
}

/// `[ operands ]`
#[tactic(auto, unfolding(crate::specs::Parser::read_operands, crate::specs::Parser::read_any_operands))]
pub fn any_operands(
    alloc: Global,
    tokens: &TokenStream<'_>,
    levels: usize,
    at: usize,
) -> Result<(Items<Operand>, usize), Refusal>
    ensures { Says (read_any_operands tokens.now levels at) result }
{
    if !next_is(tokens, at, Terminal::Name) {
        return Ok((Items::new(alloc), at));
    }
    operands(alloc, tokens, levels, at, Terminal::Comma)
}

/// `target = Name { "[" index { "," index } "]" }`
#[tactic(auto, unfolding(crate::specs::Parser::read_target, qt_expr::specs::Parser::read_label, qt_expr::specs::Parser::read_all_indexes))]
pub fn target(
    alloc: Global,
    tokens: &TokenStream<'_>,
    levels: usize,
    at: usize,
) -> Result<(Target, usize), Refusal>
    ensures { Says (read_target tokens.now levels at) result }
{
    let (name, at) = label(alloc, tokens, at)?;
    if !next_is(tokens, at, Terminal::LeftBracket) {
        let brackets = Items::new(alloc);
        return Ok((Target { name, brackets }, at));
    }
    let (brackets, at) = all_indexes(alloc, tokens, levels, at)?;
    Ok((Target { name, brackets }, at))
}

/// `"measure" operand`
#[tactic(auto, unfolding(crate::specs::Parser::read_measured, crate::specs::Parser::read_operand, qt_lookahead::specs::OneToken::read_exactly))]
pub fn measured(
    alloc: Global,
    tokens: &TokenStream<'_>,
    levels: usize,
    at: usize,
) -> Result<(Operand, usize), Refusal>
    ensures { Says (read_measured tokens.now levels at) result }
{
    let at = exactly(tokens, at, Terminal::Measure)?;
    operand(alloc, tokens, levels, at)
}

/// `right = "measure" operand | expr`
#[tactic(auto, unfolding(crate::specs::Parser::read_right, crate::specs::Parser::read_measured, qt_expr::specs::Parser::read_expression))]
pub fn right(
    alloc: Global,
    tokens: &TokenStream<'_>,
    levels: usize,
    at: usize,
) -> Result<(Right, usize), Refusal>
    ensures { Says (read_right tokens.now levels at) result }
{
    if next_is(tokens, at, Terminal::Measure) {
        let (qubits, at) = measured(alloc, tokens, levels, at)?;
        return Ok((Right::Measure { qubits }, at));
    }
    let (value, at) = expression(alloc, tokens, levels, at)?;
    Ok((Right::Value { value }, at))
}

/// `"=" right`
#[tactic(auto, unfolding(crate::specs::Parser::read_first_value, crate::specs::Parser::read_right, qt_lookahead::specs::OneToken::read_exactly))]
pub fn first_value(
    alloc: Global,
    tokens: &TokenStream<'_>,
    levels: usize,
    at: usize,
) -> Result<(Right, usize), Refusal>
    ensures { Says (read_first_value tokens.now levels at) result }
{
    let at = exactly(tokens, at, Terminal::Assign)?;
    right(alloc, tokens, levels, at)
}
