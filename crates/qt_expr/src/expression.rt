//! Expressions and the forms that hold them, from the left. The forms stand in no expression, with so many levels left below them.

ghost use Rattle.std.specs.Prelude.{◌≡◌, ◌<◌, ◌≤◌, length, None};
ghost use Rattle.qt_grammar.specs.Outcome.{Says};
ghost use Rattle.qt_expr.specs.Parser.{read_expression, read_expressions, read_in_parentheses, read_size, read_arguments, read_scalar, read_index, read_indexes, read_all_indexes, read_set, read_range, read_operation, read_more_operands};

use crate::binary::joined;
use crate::reader::Reader;
use qt_grammar::refusal::Refusal;
use qt_lookahead::nesting::Nesting;
use qt_lookahead::operator::{STRENGTHS, before_operator, binary_operator};
use qt_terminals::stream::TokenStream;
use qt_tree::expression::{Expr, Index, Range, Scalar};
use sqlite_items::Items;
use std::alloc::Global;

/// Operands with operators of this strength or a greater one between.
#[tactic(auto, using(crate::proofs::Steps::operation_is, crate::proofs::Steps::strongest_is))]
#[cycle(operation)]
fn operation(
    alloc: Global,
    tokens: &TokenStream<'_>,
    nesting: Nesting,
    strength: usize,
    at: usize,
) -> Result<(Expr, usize), Refusal>
    requires { strength ≤ 10 }
    ensures { Says (read_operation tokens.now nesting.levels nesting.outer strength at) result }
{
    if strength == STRENGTHS {
        return Reader { alloc, operation }.factor(tokens, nesting, at);
    }
    let (left, at) = operation(alloc, tokens, nesting, strength + 1, at)?;
    more_operands(alloc, tokens, nesting, strength, at, left)
}

/// What stands behind the first operand, with operators of this strength between.
#[cycle(operation)]
fn more_operands(
    alloc: Global,
    tokens: &TokenStream<'_>,
    nesting: Nesting,
    strength: usize,
    at: usize,
    left: Expr,
) -> Result<(Expr, usize), Refusal>
    requires { strength < 10 }
    ensures { Says (read_more_operands tokens.now nesting.levels nesting.outer strength (length tokens.now) left at) result }
{
    let mut left = left;
    let mut at = at;
    'turn: for turn in 0..tokens.len() {
        let Some(found) = binary_operator(strength, tokens.terminal(at)) else {
            return Ok((left, at));
        };
        let (before, behind) = before_operator(tokens, nesting, left, at)?;
        let right = operation(alloc, tokens, nesting, strength + 1, behind);
        let (both, behind) = joined(alloc, found, before, right)?;
        left = both;
        at = behind;
    }
    Ok((left, at))
}

/// `expr`: an expression, whose operators are counted from here on.
pub fn expression(
    alloc: Global,
    tokens: &TokenStream<'_>,
    levels: usize,
    at: usize,
) -> Result<(Expr, usize), Refusal>
    ensures { Says (read_expression tokens.now levels None at) result }
{
    Reader { alloc, operation }.expression(tokens, Nesting::outermost(levels), at)
}

/// `exprs = expr { "," expr }`
pub fn expressions(
    alloc: Global,
    tokens: &TokenStream<'_>,
    levels: usize,
    at: usize,
) -> Result<(Items<Expr>, usize), Refusal>
    ensures { Says (read_expressions tokens.now levels None at) result }
{
    Reader { alloc, operation }.expressions(tokens, Nesting::outermost(levels), at)
}

/// `"(" expr ")"`
pub fn in_parentheses(
    alloc: Global,
    tokens: &TokenStream<'_>,
    levels: usize,
    at: usize,
) -> Result<(Expr, usize), Refusal>
    ensures { Says (read_in_parentheses tokens.now levels None at) result }
{
    Reader { alloc, operation }.in_parentheses(tokens, Nesting::outermost(levels), at)
}

/// `"[" expr "]"`, as the size of a type or of a register.
pub fn size(
    alloc: Global,
    tokens: &TokenStream<'_>,
    levels: usize,
    at: usize,
) -> Result<(Expr, usize), Refusal>
    ensures { Says (read_size tokens.now levels None at) result }
{
    Reader { alloc, operation }.size(tokens, Nesting::outermost(levels), at)
}

/// `"(" [ exprs ] ")"`
pub fn arguments(
    alloc: Global,
    tokens: &TokenStream<'_>,
    levels: usize,
    at: usize,
) -> Result<(Items<Expr>, usize), Refusal>
    ensures { Says (read_arguments tokens.now levels None at) result }
{
    Reader { alloc, operation }.arguments(tokens, Nesting::outermost(levels), at)
}

/// `scalar = "bool" | ( "bit" | "int" | "uint" | "angle" ) [ "[" expr "]" ]`
pub fn scalar(
    alloc: Global,
    tokens: &TokenStream<'_>,
    levels: usize,
    at: usize,
) -> Result<(Scalar, usize), Refusal>
    ensures { Says (read_scalar tokens.now levels None at) result }
{
    Reader { alloc, operation }.scalar(tokens, Nesting::outermost(levels), at)
}

/// What stands in the brackets of one index, `expr | range | "{" exprs "}"`, one level deeper than the brackets.
pub fn index(
    alloc: Global,
    tokens: &TokenStream<'_>,
    levels: usize,
    at: usize,
) -> Result<(Index, usize), Refusal>
    ensures { Says (read_index tokens.now levels None at) result }
{
    Reader { alloc, operation }.index(tokens, Nesting::outermost(levels), at)
}

/// `"[" index { "," index } "]"`
pub fn indexes(
    alloc: Global,
    tokens: &TokenStream<'_>,
    levels: usize,
    at: usize,
) -> Result<(Items<Index>, usize), Refusal>
    ensures { Says (read_indexes tokens.now levels None at) result }
{
    Reader { alloc, operation }.indexes(tokens, Nesting::outermost(levels), at)
}

/// Brackets with indexes, one after the other, at least one.
pub fn all_indexes(
    alloc: Global,
    tokens: &TokenStream<'_>,
    levels: usize,
    at: usize,
) -> Result<(Items<Items<Index>>, usize), Refusal>
    ensures { Says (read_all_indexes tokens.now levels None at) result }
{
    Reader { alloc, operation }.all_indexes(tokens, Nesting::outermost(levels), at)
}

/// `"{" exprs "}"`
pub fn set(
    alloc: Global,
    tokens: &TokenStream<'_>,
    levels: usize,
    at: usize,
) -> Result<(Items<Expr>, usize), Refusal>
    ensures { Says (read_set tokens.now levels None at) result }
{
    Reader { alloc, operation }.set(tokens, Nesting::outermost(levels), at)
}

/// What stands in the brackets of a range, one level deeper than the brackets.
pub fn range(
    alloc: Global,
    tokens: &TokenStream<'_>,
    levels: usize,
    at: usize,
) -> Result<(Range, usize), Refusal>
    ensures { Says (read_range tokens.now levels None at) result }
{
    Reader { alloc, operation }.range(tokens, Nesting::outermost(levels), at)
}
