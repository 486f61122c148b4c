//! The parameters of a subroutine, and the type of its result.

ghost use Rattle.std.specs.Prelude.{◌≡◌, length, None};
ghost use Rattle.qt_terminals.specs.declared.terminal.Terminal.TheVariants as w;
ghost use Rattle.qt_grammar.specs.Sorts.{parameter};
ghost use Rattle.qt_grammar.specs.Language as g;
ghost use Rattle.qt_grammar.specs.Outcome.{Says};
ghost use Rattle.qt_expr.specs.Parser.{rest_separated};
ghost use Rattle.qt_items.specs.Parser.{read_parameter, read_parameters, read_parameter_list, read_in_definition, read_result_type, read_parameters_or_none};

use crate::items::qubits;
use qt_expr::expression::scalar;
use qt_expr::grown::{appended, begun};
use qt_expr::names::label;
use qt_grammar::refusal::Refusal;
use qt_lookahead::begins::{begins_parameter, begins_scalar};
use qt_lookahead::nesting::too_deep;
use qt_lookahead::one_token::{behind, exactly, next_is};
use qt_lookahead::pieces::{ended, paired};
use qt_terminals::stream::TokenStream;
use qt_terminals::terminal::Terminal;
use qt_tree::expression::Scalar;
use qt_tree::program::Parameter;
use sqlite_items::Items;
use std::alloc::Global;

/// `param = scalar Name | "qubit" [ "[" expr "]" ] Name`
#[tactic(auto, unfolding(crate::specs::Parser::read_parameter, crate::specs::Parser::read_qubits, qt_expr::specs::Parser::read_scalar, qt_expr::specs::Parser::read_label))]
fn parameter(
    alloc: Global,
    tokens: &TokenStream<'_>,
    levels: usize,
    at: usize,
) -> Result<(Parameter, usize), Refusal>
    ensures { Says (read_parameter tokens.now levels at) result }
{
    if begins_scalar(tokens, at) {
        let (scalar, at) = scalar(alloc, tokens, levels, at)?;
        let ((scalar, name), at) = paired(scalar, label(alloc, tokens, at))?;
        return Ok((Parameter::Classical { scalar, name }, at));
    }
    let ((size, name), at) = qubits(alloc, tokens, levels, at)?;
    Ok((Parameter::Qubits { size, name }, at))
}

/// Parameters with commas between, at least one.
#[tactic(auto, unfolding(crate::specs::Parser::read_parameter_list, crate::specs::Parser::read_parameter, qt_expr::specs::Parser::rest_separated))]
fn parameter_list(
    alloc: Global,
    tokens: &TokenStream<'_>,
    levels: usize,
    at: usize,
) -> Result<(Items<Parameter>, usize), Refusal>
    ensures { Says (read_parameter_list tokens.now levels at) result }
{
    let (all, at) = begun(alloc, parameter(alloc, tokens, levels, at))?;
    more_parameters(alloc, tokens, levels, at, all)
}

/// The parameters behind the first.
#[tactic(auto, using(qt_expr::proofs::Loops::separated_ends, qt_expr::proofs::Loops::separated_stops, crate::proofs::Lists::parameters_go_on))]
fn more_parameters(
    alloc: Global,
    tokens: &TokenStream<'_>,
    levels: usize,
    at: usize,
    all: Items<Parameter>,
) -> Result<(Items<Parameter>, usize), Refusal>
    ensures { Says (rest_separated tokens.now {s = parameter} w.Comma g.a_parameter levels None (length tokens.now) all at) result }
{
    let mut all = all;
    let mut at = at;
    'turn: for turn in 0..tokens.len() {
        if !next_is(tokens, at, Terminal::Comma) {
            return Ok((all, at));
        }
        at = appended(
            &mut all,
            parameter(alloc, tokens, levels, behind(tokens, at)),
        )?;
    }
    Ok((all, at))
}

/// What stands in the parentheses of a subroutine, one level deeper.
#[tactic(auto, using(crate::proofs::Levels::parameters_is), unfolding(crate::specs::Parser::read_parameters))]
fn parameters(
    alloc: Global,
    tokens: &TokenStream<'_>,
    levels: usize,
    at: usize,
) -> Result<(Items<Parameter>, usize), Refusal>
    ensures { Says (read_parameters tokens.now levels at) result }
{
    if levels == 0 {
        return Err(too_deep(at, begins_parameter(tokens, at)));
    }
    parameter_list(alloc, tokens, levels - 1, at)
}

/// Parameters with commas between, or none.
#[tactic(auto, unfolding(crate::specs::Parser::read_parameters_or_none, crate::specs::Parser::read_parameters))]
fn parameters_or_none(
    alloc: Global,
    tokens: &TokenStream<'_>,
    levels: usize,
    at: usize,
) -> Result<(Items<Parameter>, usize), Refusal>
    ensures { Says (read_parameters_or_none tokens.now levels at) result }
{
    if !begins_parameter(tokens, at) {
        return Ok((Items::new(alloc), at));
    }
    parameters(alloc, tokens, levels, at)
}

/// `"(" [ param { "," param } ] ")"`
#[tactic(auto, unfolding(crate::specs::Parser::read_in_definition, crate::specs::Parser::read_parameters_or_none, qt_lookahead::specs::OneToken::read_exactly))]
pub fn in_definition(
    alloc: Global,
    tokens: &TokenStream<'_>,
    levels: usize,
    at: usize,
) -> Result<(Items<Parameter>, usize), Refusal>
    ensures { Says (read_in_definition tokens.now levels at) result }
{
    let at = exactly(tokens, at, Terminal::LeftParen)?;
    let (all, at) = parameters_or_none(alloc, tokens, levels, at)?;
    ended(tokens, all, at, Terminal::RightParen)
}

/// `[ "->" scalar ]`
#[tactic(auto, unfolding(crate::specs::Parser::read_result_type, qt_expr::specs::Parser::read_scalar, qt_lookahead::specs::OneToken::read_exactly))]
pub fn result_type(
    alloc: Global,
    tokens: &TokenStream<'_>,
    levels: usize,
    at: usize,
) -> Result<(Option<Scalar>, usize), Refusal>
    ensures { Says (read_result_type tokens.now levels at) result }
{
    if !next_is(tokens, at, Terminal::Arrow) {
        return Ok((None, at));
    }
    let at = exactly(tokens, at, Terminal::Arrow)?;
    let (scalar, at) = scalar(alloc, tokens, levels, at)?;
    Ok((Some(scalar), at))
}
