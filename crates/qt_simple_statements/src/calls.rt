//! Gate calls and their modifiers.

ghost use Rattle.std.specs.Prelude.{◌≡◌, ◌<◌, length, None};
ghost use Rattle.qt_terminals.specs.Alphabet as alphabet;
ghost use Rattle.qt_grammar.specs.Sorts.{modifier};
ghost use Rattle.qt_grammar.specs.Lookahead.{first};
ghost use Rattle.qt_grammar.specs.Outcome.{Says};
ghost use Rattle.qt_expr.specs.Parser.{rest_some};
ghost use Rattle.qt_simple_statements.specs.Parser.{modifier_with_at, read_controls, read_modifier, read_modifier_with_at, read_modifiers, read_phase_call, read_gate_arguments, read_named_call, read_bare_call, read_modified_call, read_gate_call, read_exponent};

use crate::operands::{any_operands, operands};
use qt_expr::expression::{arguments, in_parentheses};
use qt_expr::grown::{appended, begun};
use qt_expr::handed_on::{closed, present};
use qt_expr::names::label;
use qt_grammar::refusal::Refusal;
use qt_lookahead::begins::begins_modifier;
use qt_lookahead::one_token::{behind, exactly, next_is};
use qt_lookahead::pieces::paired;
use qt_terminals::stream::TokenStream;
use qt_terminals::terminal::Terminal;
use qt_tree::expression::Expr;
use qt_tree::statement::{CalledGate, GateCall, Modifier};
use sqlite_items::Items;
use std::alloc::Global;

/// `( "ctrl" | "negctrl" ) [ "(" expr ")" ]`, of which the number of controls is answered.
#[tactic(auto, unfolding(crate::specs::Parser::read_controls, qt_expr::specs::Parser::read_in_parentheses, qt_lookahead::specs::OneToken::read_exactly))]
fn controls(
    alloc: Global,
    tokens: &TokenStream<'_>,
    levels: usize,
    at: usize,
    terminal: Terminal,
) -> Result<(Option<Expr>, usize), Refusal>
    requires { 0 < alphabet.code terminal }
    ensures { Says (read_controls tokens.now terminal levels at) result }
{
    let at = exactly(tokens, at, terminal)?;
    if !next_is(tokens, at, Terminal::LeftParen) {
        return Ok((None, at));
    }
    present(in_parentheses(alloc, tokens, levels, at))
}

/// `"pow" "(" expr ")"`, of which the exponent is answered.
#[tactic(auto, unfolding(crate::specs::Parser::read_exponent, qt_expr::specs::Parser::read_in_parentheses, qt_lookahead::specs::OneToken::read_exactly))]
fn exponent(
    alloc: Global,
    tokens: &TokenStream<'_>,
    levels: usize,
    at: usize,
) -> Result<(Expr, usize), Refusal>
    ensures { Says (read_exponent tokens.now levels at) result }
{
    let at = exactly(tokens, at, Terminal::Pow)?;
    in_parentheses(alloc, tokens, levels, at)
}

/// `modifier = "inv" | "pow" "(" expr ")" | ( "ctrl" | "negctrl" ) [ "(" expr ")" ]`
fn modifier(
    alloc: Global,
    tokens: &TokenStream<'_>,
    levels: usize,
    at: usize,
) -> Result<(Modifier, usize), Refusal>
    ensures { Says (read_modifier tokens.now levels at) result }
{
    match tokens.terminal(at) {
        Terminal::Inv => Ok((Modifier::Inv, behind(tokens, at))),
        Terminal::Pow => {
            let (exponent, at) = exponent(alloc, tokens, levels, at)?;
            Ok((Modifier::Pow { exponent }, at))
        }
        Terminal::Ctrl => {
            let (count, at) = controls(alloc, tokens, levels, at, Terminal::Ctrl)?;
            Ok((Modifier::Ctrl { count }, at))
        }
        _ => {
            let (count, at) = controls(alloc, tokens, levels, at, Terminal::NegCtrl)?;
            Ok((Modifier::NegCtrl { count }, at))
        }
    }
}

/// A modifier and its `@`.
#[tactic(auto, unfolding(crate::specs::Parser::read_modifier_with_at, crate::specs::Parser::read_modifier, qt_lookahead::specs::OneToken::read_exactly))]
fn modifier_with_at(
    alloc: Global,
    tokens: &TokenStream<'_>,
    levels: usize,
    at: usize,
) -> Result<(Modifier, usize), Refusal>
    ensures { Says (read_modifier_with_at tokens.now levels at) result }
{
    let modifier = modifier(alloc, tokens, levels, at);
    closed(tokens, modifier, Terminal::At)
}

/// `{ modifier "@" }`, at least one; the outermost is the first.
#[tactic(auto, unfolding(crate::specs::Parser::read_modifier_with_at, crate::specs::Parser::read_modifiers, qt_expr::specs::Parser::rest_some))]
fn modifiers(
    alloc: Global,
    tokens: &TokenStream<'_>,
    levels: usize,
    at: usize,
) -> Result<(Items<Modifier>, usize), Refusal>
    ensures { Says (read_modifiers tokens.now levels at) result }
{
    let (all, at) = begun(alloc, modifier_with_at(alloc, tokens, levels, at))?;
    more_modifiers(alloc, tokens, levels, at, all)
}

/// The modifiers behind the first.
fn more_modifiers(
    alloc: Global,
    tokens: &TokenStream<'_>,
    levels: usize,
    at: usize,
    all: Items<Modifier>,
) -> Result<(Items<Modifier>, usize), Refusal>
    ensures { Says (rest_some tokens.now {s = modifier} modifier_with_at levels None (length tokens.now) all at) result }
{
    let mut all = all;
    let mut at = at;
    'turn: for turn in 0..tokens.len() {
        if !begins_modifier(tokens, at) {
            return Ok((all, at));
        }
        at = appended(&mut all, modifier_with_at(alloc, tokens, levels, at))?;
    }
    Ok((all, at))
}

/// `"gphase" "(" expr ")" [ operands ]`
#[tactic(auto, unfolding(crate::specs::Parser::read_phase_call, crate::specs::Parser::read_any_operands, qt_expr::specs::Parser::read_in_parentheses, qt_lookahead::specs::OneToken::read_exactly))]
pub fn phase_call(
    alloc: Global,
    tokens: &TokenStream<'_>,
    levels: usize,
    at: usize,
) -> Result<(GateCall, usize), Refusal>
    ensures { Says (read_phase_call tokens.now levels at) result }
{
    let at = exactly(tokens, at, Terminal::GPhase)?;
    let (angle, at) = in_parentheses(alloc, tokens, levels, at)?;
    let ((angle, operands), at) = paired(angle, any_operands(alloc, tokens, levels, at))?;
    let call = GateCall {
        modifiers: Items::new(alloc),
        gate: CalledGate::GlobalPhase { angle },
        operands,
    };
    Ok((call, at))
}

/// `[ "(" [ exprs ] ")" ]`: None where no parentheses stand.
#[tactic(auto, unfolding(crate::specs::Parser::read_gate_arguments, qt_expr::specs::Parser::read_arguments))]
fn gate_arguments(
    alloc: Global,
    tokens: &TokenStream<'_>,
    levels: usize,
    at: usize,
) -> Result<(Option<Items<Expr>>, usize), Refusal>
    ensures { Says (read_gate_arguments tokens.now levels at) result }
{
    if !next_is(tokens, at, Terminal::LeftParen) {
        return Ok((None, at));
    }
    present(arguments(alloc, tokens, levels, at))
}

/// `Name [ "(" [ exprs ] ")" ] operands`
#[tactic(auto, unfolding(crate::specs::Parser::read_named_call, crate::specs::Parser::read_gate_arguments, crate::specs::Parser::read_operands, qt_expr::specs::Parser::read_label))]
fn named_call(
    alloc: Global,
    tokens: &TokenStream<'_>,
    levels: usize,
    at: usize,
) -> Result<(GateCall, usize), Refusal>
    ensures { Says (read_named_call tokens.now levels at) result }
{
    let (name, at) = label(alloc, tokens, at)?;
    let (arguments, at) = gate_arguments(alloc, tokens, levels, at)?;
    let (operands, at) = operands(alloc, tokens, levels, at, Terminal::Comma)?;
    let call = GateCall {
        modifiers: Items::new(alloc),
        gate: CalledGate::Named { name, arguments },
        operands,
    };
    Ok((call, at))
}

/// A gate call without modifiers.
#[tactic(auto, unfolding(crate::specs::Parser::read_bare_call, crate::specs::Parser::read_phase_call, crate::specs::Parser::read_named_call))]
fn bare_call(
    alloc: Global,
    tokens: &TokenStream<'_>,
    levels: usize,
    at: usize,
) -> Result<(GateCall, usize), Refusal>
    ensures { Says (read_bare_call tokens.now levels at) result }
{
    if next_is(tokens, at, Terminal::GPhase) {
        phase_call(alloc, tokens, levels, at)
    } else {
        named_call(alloc, tokens, levels, at)
    }
}

/// A gate call with modifiers.
#[tactic(auto, unfolding(crate::specs::Parser::read_modified_call, crate::specs::Parser::read_modifiers, crate::specs::Parser::read_bare_call))]
pub fn modified_call(
    alloc: Global,
    tokens: &TokenStream<'_>,
    levels: usize,
    at: usize,
) -> Result<(GateCall, usize), Refusal>
    ensures { Says (read_modified_call tokens.now levels at) result }
{
    let (modifiers, at) = modifiers(alloc, tokens, levels, at)?;
    let (call, at) = bare_call(alloc, tokens, levels, at)?;
    let GateCall { gate, operands, .. } = call;
    let call = GateCall {
        modifiers,
        gate,
        operands,
    };
    Ok((call, at))
}

/// `gatecall`, but for its semicolon.
#[tactic(auto, unfolding(crate::specs::Parser::read_gate_call, crate::specs::Parser::read_modified_call, crate::specs::Parser::read_bare_call))]
pub fn gate_call(
    alloc: Global,
    tokens: &TokenStream<'_>,
    levels: usize,
    at: usize,
) -> Result<(GateCall, usize), Refusal>
    ensures { Says (read_gate_call tokens.now levels at) result }
{
    if begins_modifier(tokens, at) {
        modified_call(alloc, tokens, levels, at)
    } else {
        bare_call(alloc, tokens, levels, at)
    }
}
