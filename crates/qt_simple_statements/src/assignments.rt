//! Assignments and calls: the statements that begin with a name.

ghost use Rattle.std.specs.Prelude.{◌≡◌, []};
ghost use Rattle.qt_grammar.specs.Outcome.{Says};
ghost use Rattle.qt_tree.specs.declared.statement.CalledGate.TheVariants as gate;
ghost use Rattle.qt_simple_statements.specs.Parser.{read_assigned, read_compound, read_call_operands, read_called, read_behind_first_name, read_by_name};

use crate::operands::{first_value, operands};
use qt_expr::expression::{all_indexes, arguments, expression};
use qt_expr::handed_on::{closed, present};
use qt_expr::names::label;
use qt_grammar::refusal::Refusal;
use qt_lookahead::begins::begins_assignment;
use qt_lookahead::one_token::{behind, next_is};
use qt_lookahead::operator::compound_operator;
use qt_terminals::stream::TokenStream;
use qt_terminals::terminal::Terminal;
use qt_tree::expression::Expr;
use qt_tree::label::Label;
use qt_tree::statement::{CalledGate, GateCall, Operand, StatementForm, Target};
use sqlite_items::Items;
use std::alloc::Global;

/// A compound assignment to that target, from its terminal on.
#[tactic(auto, using(crate::proofs::Tails::no_compound))]
fn compound(
    alloc: Global,
    tokens: &TokenStream<'_>,
    levels: usize,
    at: usize,
    target: Target,
) -> Result<(StatementForm, usize), Refusal>
    ensures { Says (read_compound tokens.now levels target at) result }
{
    let Some(operator) = compound_operator(tokens, at) else {
        return Err(Refusal::Syntax(at));
    };
    let at = behind(tokens, at);
    let (value, at) = expression(alloc, tokens, levels, at)?;
    let form = StatementForm::CompoundAssignment {
        target,
        operator,
        value,
    };
    Ok((form, at))
}

/// An assignment to that target, from its terminal on.
#[tactic(auto, unfolding(crate::specs::Parser::read_assigned, crate::specs::Parser::read_compound, crate::specs::Parser::read_first_value))]
fn assigned(
    alloc: Global,
    tokens: &TokenStream<'_>,
    levels: usize,
    at: usize,
    target: Target,
) -> Result<(StatementForm, usize), Refusal>
    ensures { Says (read_assigned tokens.now levels target at) result }
{
    if !next_is(tokens, at, Terminal::Assign) {
        return compound(alloc, tokens, levels, at, target);
    }
    let (value, at) = first_value(alloc, tokens, levels, at)?;
    Ok((StatementForm::Assignment { target, value }, at))
}

/// The operands of a call, if it has any.
#[tactic(auto, unfolding(crate::specs::Parser::read_call_operands, crate::specs::Parser::read_operands))]
fn call_operands(
    alloc: Global,
    tokens: &TokenStream<'_>,
    levels: usize,
    at: usize,
) -> Result<(Option<Items<Operand>>, usize), Refusal>
    ensures { Says (read_call_operands tokens.now levels at) result }
{
    if !next_is(tokens, at, Terminal::Name) {
        return Ok((None, at));
    }
    present(operands(alloc, tokens, levels, at, Terminal::Comma))
}

/// A call of that name with arguments: of a gate where operands follow, else of a subroutine.
#[tactic(auto, unfolding(crate::specs::Parser::read_called, crate::specs::Parser::read_call_operands, qt_expr::specs::Parser::read_arguments))]
fn called(
    alloc: Global,
    tokens: &TokenStream<'_>,
    levels: usize,
    at: usize,
    name: Label,
) -> Result<(StatementForm, usize), Refusal>
    ensures { Says (read_called tokens.now levels name at) result }
{
    let (arguments, at) = arguments(alloc, tokens, levels, at)?;
    let (operands, at) = call_operands(alloc, tokens, levels, at)?;
    let Some(operands) = operands else {
        return Ok((StatementForm::Call { name, arguments }, at));
    };
    let call = gate_call(alloc, name, Some(arguments), operands);
    Ok((StatementForm::Gate { call }, at))
}

/// The call of a gate without modifiers.
fn gate_call(
    alloc: Global,
    name: Label,
    arguments: Option<Items<Expr>>,
    operands: Items<Operand>,
) -> GateCall
    ensures { result ≡ record { modifiers = []; gate = gate.Named name arguments; operands = operands } }
{
    GateCall {
        modifiers: Items::new(alloc),
        gate: CalledGate::Named { name, arguments },
        operands,
    }
}

/// What stands behind that name at the beginning of a statement.
#[tactic(auto, unfolding(crate::specs::Parser::read_behind_first_name, crate::specs::Parser::read_assigned, crate::specs::Parser::read_called, crate::specs::Parser::read_operands, qt_expr::specs::Parser::read_all_indexes))]
fn behind_first_name(
    alloc: Global,
    tokens: &TokenStream<'_>,
    levels: usize,
    at: usize,
    name: Label,
) -> Result<(StatementForm, usize), Refusal>
    ensures { Says (read_behind_first_name tokens.now levels name at) result }
{
    if next_is(tokens, at, Terminal::LeftBracket) {
        let (brackets, at) = all_indexes(alloc, tokens, levels, at)?;
        return assigned(alloc, tokens, levels, at, Target { name, brackets });
    }
    if next_is(tokens, at, Terminal::LeftParen) {
        return called(alloc, tokens, levels, at, name);
    }
    if begins_assignment(tokens, at) {
        let brackets = Items::new(alloc);
        return assigned(alloc, tokens, levels, at, Target { name, brackets });
    }
    let (operands, at) = operands(alloc, tokens, levels, at, Terminal::Comma)?;
    let call = gate_call(alloc, name, None, operands);
    Ok((StatementForm::Gate { call }, at))
}

/// A statement that begins with a name.
#[tactic(auto, using(crate::proofs::Tails::by_name_is))]
pub fn by_name(
    alloc: Global,
    tokens: &TokenStream<'_>,
    levels: usize,
    at: usize,
) -> Result<(StatementForm, usize), Refusal>
    ensures { Says (read_by_name tokens.now levels at) result }
{
    let (name, at) = label(alloc, tokens, at)?;
    let form = behind_first_name(alloc, tokens, levels, at, name);
    closed(tokens, form, Terminal::Semicolon)
}
