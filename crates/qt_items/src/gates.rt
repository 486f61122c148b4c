//! Gates.

ghost use Rattle.std.specs.Prelude.{◌≡◌, length, None};
ghost use Rattle.qt_grammar.specs.Sorts.{gate_line};
ghost use Rattle.qt_grammar.specs.Language as g;
ghost use Rattle.qt_grammar.specs.Outcome.{Says};
ghost use Rattle.qt_expr.specs.Parser.{rest_some};
ghost use Rattle.qt_items.specs.Parser.{read_any_names, read_gate_line_form, read_call_line, read_gate_line, read_gate_block, read_gate_lines, read_gate_parameters, read_gate_body, read_gate_item, read_gate_barrier, read_gate_block_or_none, read_gate_parts, read_names_in_parentheses, read_qubits_and_body};

use crate::items::qubits;
use qt_expr::grown::{appended, begun};
use qt_expr::names::{label, names};
use qt_grammar::refusal::Refusal;
use qt_lookahead::begins::begins_gate_line;
use qt_lookahead::nesting::too_deep;
use qt_lookahead::one_token::{behind, exactly, next_is};
use qt_lookahead::pieces::{ended, paired, with_semicolon};
use qt_simple_statements::calls::gate_call;
use qt_terminals::stream::TokenStream;
use qt_terminals::terminal::Terminal;
use qt_tree::label::Label;
use qt_tree::place::Place;
use qt_tree::program::{GateForm, GateItem, GateStatement, Item};
use qt_tree::statement::GateCall;
use sqlite_items::Items;
use std::alloc::Global;

/// `[ names ]`
#[tactic(auto, unfolding(crate::specs::Parser::read_any_names, qt_expr::specs::Parser::read_names))]
fn any_names(
    alloc: Global,
    tokens: &TokenStream<'_>,
    at: usize,
) -> Result<(Items<Label>, usize), Refusal>
    ensures { Says (read_any_names tokens.now at) result }
{
    if !next_is(tokens, at, Terminal::Name) {
        return Ok((Items::new(alloc), at));
    }
    names(alloc, tokens, at)
}

/// `"barrier" [ names ] ";"`
#[tactic(auto, unfolding(crate::specs::Parser::read_gate_barrier, crate::specs::Parser::read_any_names, qt_lookahead::specs::OneToken::read_exactly))]
fn gate_barrier(
    alloc: Global,
    tokens: &TokenStream<'_>,
    at: usize,
) -> Result<(Items<Label>, usize), Refusal>
    ensures { Says (read_gate_barrier tokens.now at) result }
{
    let at = exactly(tokens, at, Terminal::Barrier)?;
    let (qubits, at) = any_names(alloc, tokens, at)?;
    with_semicolon(tokens, qubits, at)
}

/// `gatecall ";"`
#[tactic(auto, unfolding(crate::specs::Parser::read_call_line, qt_simple_statements::specs::Parser::read_gate_call, qt_lookahead::specs::OneToken::read_exactly))]
fn call_line(
    alloc: Global,
    tokens: &TokenStream<'_>,
    levels: usize,
    at: usize,
) -> Result<(GateCall, usize), Refusal>
    ensures { Says (read_call_line tokens.now levels at) result }
{
    let (call, at) = gate_call(alloc, tokens, levels, at)?;
    with_semicolon(tokens, call, at)
}

/// `gatecall ";" | "barrier" [ names ] ";"`
#[tactic(auto, unfolding(crate::specs::Parser::read_gate_line_form, crate::specs::Parser::read_call_line, crate::specs::Parser::read_gate_barrier))]
fn gate_line_form(
    alloc: Global,
    tokens: &TokenStream<'_>,
    levels: usize,
    at: usize,
) -> Result<(GateForm, usize), Refusal>
    ensures { Says (read_gate_line_form tokens.now levels at) result }
{
    if next_is(tokens, at, Terminal::Barrier) {
        let (qubits, at) = gate_barrier(alloc, tokens, at)?;
        return Ok((GateForm::Barrier { qubits }, at));
    }
    let (call, at) = call_line(alloc, tokens, levels, at)?;
    Ok((GateForm::Call { call }, at))
}

/// A statement of a gate's body.
#[tactic(auto, unfolding(crate::specs::Parser::read_gate_line, crate::specs::Parser::read_gate_line_form))]
fn gate_line(
    alloc: Global,
    tokens: &TokenStream<'_>,
    levels: usize,
    at: usize,
) -> Result<(GateStatement, usize), Refusal>
    ensures { Says (read_gate_line tokens.now levels at) result }
{
    let place = tokens.place(at);
    let (form, at) = gate_line_form(alloc, tokens, levels, at)?;
    Ok((GateStatement { place, form }, at))
}

/// Statements of a gate's body, at least one.
#[tactic(auto, unfolding(crate::specs::Parser::read_gate_lines, crate::specs::Parser::read_gate_line, qt_expr::specs::Parser::rest_some))]
fn gate_lines(
    alloc: Global,
    tokens: &TokenStream<'_>,
    levels: usize,
    at: usize,
) -> Result<(Items<GateStatement>, usize), Refusal>
    ensures { Says (read_gate_lines tokens.now levels at) result }
{
    let (all, at) = begun(alloc, gate_line(alloc, tokens, levels, at))?;
    more_gate_lines(alloc, tokens, levels, at, all)
}

/// The statements behind the first.
#[tactic(auto, using(qt_expr::proofs::Loops::some_ends, qt_expr::proofs::Loops::some_stops, crate::proofs::Lists::gate_lines_go_on))]
fn more_gate_lines(
    alloc: Global,
    tokens: &TokenStream<'_>,
    levels: usize,
    at: usize,
    all: Items<GateStatement>,
) -> Result<(Items<GateStatement>, usize), Refusal>
    ensures { Says (rest_some tokens.now {s = gate_line} g.a_gate_line levels None (length tokens.now) all at) result }
{
    let mut all = all;
    let mut at = at;
    'turn: for turn in 0..tokens.len() {
        if !begins_gate_line(tokens, at) {
            return Ok((all, at));
        }
        at = appended(&mut all, gate_line(alloc, tokens, levels, at))?;
    }
    Ok((all, at))
}

/// What stands in the braces of a gate, one level deeper.
#[tactic(auto, using(crate::proofs::Levels::gate_block_is), unfolding(crate::specs::Parser::read_gate_block))]
fn gate_block(
    alloc: Global,
    tokens: &TokenStream<'_>,
    levels: usize,
    at: usize,
) -> Result<(Items<GateStatement>, usize), Refusal>
    ensures { Says (read_gate_block tokens.now levels at) result }
{
    if levels == 0 {
        return Err(too_deep(at, begins_gate_line(tokens, at)));
    }
    gate_lines(alloc, tokens, levels - 1, at)
}

/// Statements of a gate's body, if there are any.
#[tactic(auto, unfolding(crate::specs::Parser::read_gate_block_or_none, crate::specs::Parser::read_gate_block))]
fn gate_block_or_none(
    alloc: Global,
    tokens: &TokenStream<'_>,
    levels: usize,
    at: usize,
) -> Result<(Items<GateStatement>, usize), Refusal>
    ensures { Says (read_gate_block_or_none tokens.now levels at) result }
{
    if !begins_gate_line(tokens, at) {
        return Ok((Items::new(alloc), at));
    }
    gate_block(alloc, tokens, levels, at)
}

/// `"{" { gatecall | "barrier" [ names ] ";" } "}"`
#[tactic(auto, unfolding(crate::specs::Parser::read_gate_body, crate::specs::Parser::read_gate_block_or_none, qt_lookahead::specs::OneToken::read_exactly))]
fn gate_body(
    alloc: Global,
    tokens: &TokenStream<'_>,
    levels: usize,
    at: usize,
) -> Result<(Items<GateStatement>, usize), Refusal>
    ensures { Says (read_gate_body tokens.now levels at) result }
{
    let at = exactly(tokens, at, Terminal::LeftBrace)?;
    let (body, at) = gate_block_or_none(alloc, tokens, levels, at)?;
    ended(tokens, body, at, Terminal::RightBrace)
}

/// `"(" [ names ] ")"`
#[tactic(auto, unfolding(crate::specs::Parser::read_names_in_parentheses, crate::specs::Parser::read_any_names, qt_lookahead::specs::OneToken::read_exactly))]
fn names_in_parentheses(
    alloc: Global,
    tokens: &TokenStream<'_>,
    at: usize,
) -> Result<(Items<Label>, usize), Refusal>
    ensures { Says (read_names_in_parentheses tokens.now at) result }
{
    let at = exactly(tokens, at, Terminal::LeftParen)?;
    let (names, at) = any_names(alloc, tokens, at)?;
    ended(tokens, names, at, Terminal::RightParen)
}

/// `[ "(" [ names ] ")" ]`
#[tactic(auto, unfolding(crate::specs::Parser::read_gate_parameters, crate::specs::Parser::read_names_in_parentheses))]
fn gate_parameters(
    alloc: Global,
    tokens: &TokenStream<'_>,
    at: usize,
) -> Result<(Option<Items<Label>>, usize), Refusal>
    ensures { Says (read_gate_parameters tokens.now at) result }
{
    if !next_is(tokens, at, Terminal::LeftParen) {
        return Ok((None, at));
    }
    let (parameters, at) = names_in_parentheses(alloc, tokens, at)?;
    Ok((Some(parameters), at))
}

/// `names "{" { gatecall | "barrier" [ names ] ";" } "}"`
#[tactic(auto, unfolding(crate::specs::Parser::read_qubits_and_body, crate::specs::Parser::read_gate_body, qt_expr::specs::Parser::read_names))]
fn qubits_and_body(
    alloc: Global,
    tokens: &TokenStream<'_>,
    levels: usize,
    at: usize,
) -> Result<((Items<Label>, Items<GateStatement>), usize), Refusal>
    ensures { Says (read_qubits_and_body tokens.now levels at) result }
{
    let (qubits, at) = names(alloc, tokens, at)?;
    paired(qubits, gate_body(alloc, tokens, levels, at))
}

/// The parameters of a gate, its qubits and its body.
type GateParts = (Option<Items<Label>>, (Items<Label>, Items<GateStatement>));

/// `[ "(" [ names ] ")" ] names "{" { gatecall | "barrier" [ names ] ";" } "}"`
#[tactic(auto, unfolding(crate::specs::Parser::read_gate_parts, crate::specs::Parser::read_gate_parameters, crate::specs::Parser::read_qubits_and_body))]
fn gate_parts(
    alloc: Global,
    tokens: &TokenStream<'_>,
    levels: usize,
    at: usize,
) -> Result<(GateParts, usize), Refusal>
    ensures { Says (read_gate_parts tokens.now levels at) result }
{
    let (parameters, at) = gate_parameters(alloc, tokens, at)?;
    paired(parameters, qubits_and_body(alloc, tokens, levels, at))
}

/// `"gate" Name [ "(" [ names ] ")" ] names "{" { gatecall | "barrier" [ names ] ";" } "}"`
#[tactic(auto, unfolding(crate::specs::Parser::read_gate_item, crate::specs::Parser::read_gate_parts, qt_expr::specs::Parser::read_label, qt_lookahead::specs::OneToken::read_exactly))]
pub fn gate_item(
    alloc: Global,
    tokens: &TokenStream<'_>,
    levels: usize,
    at: usize,
    place: Place,
) -> Result<(Item, usize), Refusal>
    ensures { Says (read_gate_item tokens.now levels place at) result }
{
    let at = exactly(tokens, at, Terminal::Gate)?;
    let (name, at) = label(alloc, tokens, at)?;
    let ((name, parts), at) = paired(name, gate_parts(alloc, tokens, levels, at))?;
    let (parameters, (qubits, body)) = parts;
    let gate = GateItem {
        place,
        name,
        parameters,
        qubits,
        body,
    };
    Ok((Item::Gate { gate }, at))
}
