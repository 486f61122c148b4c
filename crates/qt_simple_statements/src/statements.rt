//! Statements that begin with a terminal of their own, and all that have no body.

ghost use Rattle.std.specs.Prelude.{◌≡◌, ◌<◌};
ghost use Rattle.qt_terminals.specs.Alphabet as alphabet;
ghost use Rattle.qt_terminals.specs.Terminals.{stream};
ghost use Rattle.qt_grammar.specs.Outcome.{Says};
ghost use Rattle.qt_lookahead.specs.OneToken.{Ends};
ghost use Rattle.qt_simple_statements.specs.Parser.{BeginsNoBody, read_statement_form, read_by_name, read_declaration, read_bit_register, read_constant, read_alias, read_gate_statement, read_unnamed_call, read_measured_to, read_stored_measurement, read_measurement, read_reset, read_barrier, read_keyword, read_return, read_optional_right};

use crate::assignments::by_name;
use crate::calls::{modified_call, phase_call};
use crate::declarations::{alias, bit_register, constant, declaration};
use crate::operands::{any_operands, measured, operand, right, target};
use qt_expr::handed_on::{closed, present};
use qt_grammar::refusal::Refusal;
use qt_lookahead::begins::{begins_modifier, begins_right};
use qt_lookahead::one_token::{exactly, next_is};
use qt_lookahead::pieces::{ended, paired};
use qt_terminals::stream::TokenStream;
use qt_terminals::terminal::Terminal;
use qt_tree::statement::{GateCall, Operand, Right, StatementForm, Target};
use std::alloc::Global;

/// A gate call that doesn't begin with a name: one with modifiers, or of `gphase`.
#[tactic(auto, unfolding(crate::specs::Parser::read_unnamed_call, crate::specs::Parser::read_modified_call, crate::specs::Parser::read_phase_call))]
fn unnamed_call(
    alloc: Global,
    tokens: &TokenStream<'_>,
    levels: usize,
    at: usize,
) -> Result<(GateCall, usize), Refusal>
    ensures { Says (read_unnamed_call tokens.now levels at) result }
{
    if begins_modifier(tokens, at) {
        modified_call(alloc, tokens, levels, at)
    } else {
        phase_call(alloc, tokens, levels, at)
    }
}

/// A statement that is such a gate call.
#[tactic(auto, unfolding(crate::specs::Parser::read_gate_statement, crate::specs::Parser::read_unnamed_call, qt_lookahead::specs::OneToken::read_exactly))]
fn gate_statement(
    alloc: Global,
    tokens: &TokenStream<'_>,
    levels: usize,
    at: usize,
) -> Result<(StatementForm, usize), Refusal>
    ensures { Says (read_gate_statement tokens.now levels at) result }
{
    let call = unnamed_call(alloc, tokens, levels, at);
    let (call, at) = closed(tokens, call, Terminal::Semicolon)?;
    Ok((StatementForm::Gate { call }, at))
}

/// `[ "->" target ]`
#[tactic(auto, unfolding(crate::specs::Parser::read_measured_to, crate::specs::Parser::read_target, qt_lookahead::specs::OneToken::read_exactly))]
fn measured_to(
    alloc: Global,
    tokens: &TokenStream<'_>,
    levels: usize,
    at: usize,
) -> Result<(Option<Target>, usize), Refusal>
    ensures { Says (read_measured_to tokens.now levels at) result }
{
    if !next_is(tokens, at, Terminal::Arrow) {
        return Ok((None, at));
    }
    let at = exactly(tokens, at, Terminal::Arrow)?;
    present(target(alloc, tokens, levels, at))
}

/// `"measure" operand [ "->" target ]`
#[tactic(auto, unfolding(crate::specs::Parser::read_stored_measurement, crate::specs::Parser::read_measured, crate::specs::Parser::read_measured_to))]
fn stored_measurement(
    alloc: Global,
    tokens: &TokenStream<'_>,
    levels: usize,
    at: usize,
) -> Result<((Operand, Option<Target>), usize), Refusal>
    ensures { Says (read_stored_measurement tokens.now levels at) result }
{
    let (qubits, at) = measured(alloc, tokens, levels, at)?;
    paired(qubits, measured_to(alloc, tokens, levels, at))
}

/// `"measure" operand [ "->" target ] ";"`
#[tactic(auto, unfolding(crate::specs::Parser::read_measurement, crate::specs::Parser::read_stored_measurement, qt_lookahead::specs::OneToken::read_exactly))]
fn measurement(
    alloc: Global,
    tokens: &TokenStream<'_>,
    levels: usize,
    at: usize,
) -> Result<(StatementForm, usize), Refusal>
    ensures { Says (read_measurement tokens.now levels at) result }
{
    let parts = stored_measurement(alloc, tokens, levels, at);
    let ((qubits, target), at) = closed(tokens, parts, Terminal::Semicolon)?;
    Ok((StatementForm::Measure { qubits, target }, at))
}

/// `"reset" operand ";"`
#[tactic(auto, unfolding(crate::specs::Parser::read_reset, crate::specs::Parser::read_operand, qt_lookahead::specs::OneToken::read_exactly))]
fn reset(
    alloc: Global,
    tokens: &TokenStream<'_>,
    levels: usize,
    at: usize,
) -> Result<(StatementForm, usize), Refusal>
    ensures { Says (read_reset tokens.now levels at) result }
{
    let at = exactly(tokens, at, Terminal::Reset)?;
    let qubits = operand(alloc, tokens, levels, at);
    let (qubits, at) = closed(tokens, qubits, Terminal::Semicolon)?;
    Ok((StatementForm::Reset { qubits }, at))
}

/// `"barrier" [ operands ] ";"`
#[tactic(auto, unfolding(crate::specs::Parser::read_barrier, crate::specs::Parser::read_any_operands, qt_lookahead::specs::OneToken::read_exactly))]
fn barrier(
    alloc: Global,
    tokens: &TokenStream<'_>,
    levels: usize,
    at: usize,
) -> Result<(StatementForm, usize), Refusal>
    ensures { Says (read_barrier tokens.now levels at) result }
{
    let at = exactly(tokens, at, Terminal::Barrier)?;
    let qubits = any_operands(alloc, tokens, levels, at);
    let (qubits, at) = closed(tokens, qubits, Terminal::Semicolon)?;
    Ok((StatementForm::Barrier { qubits }, at))
}

/// `[ right ]`
#[tactic(auto, unfolding(crate::specs::Parser::read_optional_right, crate::specs::Parser::read_right))]
fn optional_right(
    alloc: Global,
    tokens: &TokenStream<'_>,
    levels: usize,
    at: usize,
) -> Result<(Option<Right>, usize), Refusal>
    ensures { Says (read_optional_right tokens.now levels at) result }
{
    if !begins_right(tokens, at) {
        return Ok((None, at));
    }
    present(right(alloc, tokens, levels, at))
}

/// `"return" [ right ] ";"`
#[tactic(auto, unfolding(crate::specs::Parser::read_return, crate::specs::Parser::read_optional_right, qt_lookahead::specs::OneToken::read_exactly))]
fn return_statement(
    alloc: Global,
    tokens: &TokenStream<'_>,
    levels: usize,
    at: usize,
) -> Result<(StatementForm, usize), Refusal>
    ensures { Says (read_return tokens.now levels at) result }
{
    let at = exactly(tokens, at, Terminal::Return)?;
    let value = optional_right(alloc, tokens, levels, at);
    let (value, at) = closed(tokens, value, Terminal::Semicolon)?;
    Ok((StatementForm::Return { value }, at))
}

/// The statement that a keyword alone makes, and the place behind its semicolon.
#[tactic(auto, unfolding(crate::specs::Parser::read_keyword, qt_lookahead::specs::OneToken::read_exactly))]
fn keyword_alone<T: Drop>(
    tokens: &TokenStream<'_>,
    at: usize,
    keyword: Terminal,
    statement: T,
) -> Result<(T, usize), Refusal>
    requires { 0 < alphabet.code keyword }
    ensures { Ends (read_keyword tokens.now keyword at) (stream tokens.now at) statement result }
{
    let at = exactly(tokens, at, keyword)?;
    ended(tokens, statement, at, Terminal::Semicolon)
}

/// A statement that has no body, but for its place.
pub fn form_without_body(
    alloc: Global,
    tokens: &TokenStream<'_>,
    levels: usize,
    at: usize,
) -> Result<(StatementForm, usize), Refusal>
    requires { BeginsNoBody (stream tokens.now at).terminal }
    ensures { Says (read_statement_form tokens.now levels at) result }
{
    match tokens.terminal(at) {
        Terminal::Bool | Terminal::Bit | Terminal::Int | Terminal::Uint | Terminal::Angle =>
            declaration(alloc, tokens, levels, at),
        Terminal::Creg => bit_register(alloc, tokens, levels, at),
        Terminal::Const => constant(alloc, tokens, levels, at),
        Terminal::Let => alias(alloc, tokens, levels, at),
        Terminal::Name => by_name(alloc, tokens, levels, at),
        Terminal::Inv | Terminal::Pow | Terminal::Ctrl | Terminal::NegCtrl | Terminal::GPhase =>
            gate_statement(alloc, tokens, levels, at),
        Terminal::Measure => measurement(alloc, tokens, levels, at),
        Terminal::Reset => reset(alloc, tokens, levels, at),
        Terminal::Barrier => barrier(alloc, tokens, levels, at),
        Terminal::Break => keyword_alone(tokens, at, Terminal::Break, StatementForm::Break),
        Terminal::Continue => keyword_alone(
            tokens,
            at,
            Terminal::Continue,
            StatementForm::Continue,
        ),
        Terminal::Return => return_statement(alloc, tokens, levels, at),
        _ => keyword_alone(tokens, at, Terminal::EndWord, StatementForm::End),
    }
}
