//! Includes, inputs and outputs, and qubits.

ghost use Rattle.qt_terminals.specs.Terminals.{stream};
ghost use Rattle.std.specs.Prelude.{◌≡◌, ◌<◌};
ghost use Rattle.qt_terminals.specs.Alphabet as alphabet;
ghost use Rattle.qt_terminals.specs.declared.terminal.Terminal.TheVariants as w;
ghost use Rattle.qt_tree.specs.declared.program.Item.TheVariants as i;
ghost use Rattle.qt_grammar.specs.Outcome.{Says};
ghost use Rattle.qt_lookahead.specs.OneToken.{Steps};
ghost use Rattle.qt_items.specs.Parser.{read_include, read_quoted, read_declared, read_interface, read_qubits, read_qubit_item, read_register_item, read_scalar_and_name};

use qt_expr::expression::scalar;
use qt_expr::names::label;
use qt_grammar::refusal::Refusal;
use qt_lookahead::one_token::{exactly, next_is};
use qt_lookahead::pieces::{paired, with_semicolon};
use qt_simple_statements::declarations::{name_and_size, optional_size};
use qt_terminals::stream::TokenStream;
use qt_terminals::terminal::Terminal;
use qt_tree::expression::{Expr, Scalar};
use qt_tree::label::Label;
use qt_tree::place::Place;
use qt_tree::program::Item;
use std::alloc::Global;

/// A text in quotes, whether its characters are binary digits or not.
#[tactic(auto, unfolding(crate::specs::Parser::read_quoted, qt_lookahead::specs::OneToken::read_exactly))]
fn quoted(tokens: &TokenStream<'_>, at: usize) -> Result<usize, Refusal>
    ensures { Steps (read_quoted tokens.now at) (stream tokens.now at) result }
{
    if next_is(tokens, at, Terminal::Text) {
        exactly(tokens, at, Terminal::Text)
    } else {
        exactly(tokens, at, Terminal::BitText)
    }
}

/// `"include" Text ";"`
#[tactic(auto, unfolding(crate::specs::Parser::read_include, crate::specs::Parser::read_quoted, qt_lookahead::specs::OneToken::read_exactly))]
pub fn include(
    alloc: Global,
    tokens: &TokenStream<'_>,
    at: usize,
    place: Place,
) -> Result<(Item, usize), Refusal>
    ensures { Says (read_include tokens.now place at) result }
{
    let at = exactly(tokens, at, Terminal::Include)?;
    let text = at;
    let at = quoted(tokens, at)?;
    let at = exactly(tokens, at, Terminal::Semicolon)?;
    let name = Label::new(alloc, tokens.inside_quotes(text))?;
    Ok((Item::Include { place, name }, at))
}

/// `scalar Name`
#[tactic(auto, unfolding(crate::specs::Parser::read_scalar_and_name, qt_expr::specs::Parser::read_scalar, qt_expr::specs::Parser::read_label))]
fn scalar_and_name(
    alloc: Global,
    tokens: &TokenStream<'_>,
    levels: usize,
    at: usize,
) -> Result<((Scalar, Label), usize), Refusal>
    ensures { Says (read_scalar_and_name tokens.now levels at) result }
{
    let (scalar, at) = scalar(alloc, tokens, levels, at)?;
    paired(scalar, label(alloc, tokens, at))
}

/// A terminal, a type and a name with their semicolon.
#[tactic(auto, unfolding(crate::specs::Parser::read_declared, crate::specs::Parser::read_scalar_and_name, qt_lookahead::specs::OneToken::read_exactly))]
fn declared(
    alloc: Global,
    tokens: &TokenStream<'_>,
    levels: usize,
    at: usize,
    terminal: Terminal,
) -> Result<((Scalar, Label), usize), Refusal>
    requires { 0 < alphabet.code terminal }
    ensures { Says (read_declared tokens.now terminal levels at) result }
{
    let at = exactly(tokens, at, terminal)?;
    let (declared, at) = scalar_and_name(alloc, tokens, levels, at)?;
    with_semicolon(tokens, declared, at)
}

/// `"input" scalar Name ";"`
#[tactic(auto, unfolding(crate::specs::Parser::read_interface, crate::specs::Parser::read_declared))]
pub fn input(
    alloc: Global,
    tokens: &TokenStream<'_>,
    levels: usize,
    at: usize,
    place: Place,
) -> Result<(Item, usize), Refusal>
    ensures { Says (read_interface tokens.now w.Input i.Input levels place at) result }
{
    let ((scalar, name), at) = declared(alloc, tokens, levels, at, Terminal::Input)?;
    let item = Item::Input {
        place,
        scalar,
        name,
    };
    Ok((item, at))
}

/// `"output" scalar Name ";"`
#[tactic(auto, unfolding(crate::specs::Parser::read_interface, crate::specs::Parser::read_declared))]
pub fn output(
    alloc: Global,
    tokens: &TokenStream<'_>,
    levels: usize,
    at: usize,
    place: Place,
) -> Result<(Item, usize), Refusal>
    ensures { Says (read_interface tokens.now w.Output i.Output levels place at) result }
{
    let ((scalar, name), at) = declared(alloc, tokens, levels, at, Terminal::Output)?;
    let item = Item::Output {
        place,
        scalar,
        name,
    };
    Ok((item, at))
}

/// `"qubit" [ "[" expr "]" ] Name`
#[tactic(auto, unfolding(crate::specs::Parser::read_qubits, qt_simple_statements::specs::Parser::read_optional_size, qt_expr::specs::Parser::read_label, qt_lookahead::specs::OneToken::read_exactly))]
pub fn qubits(
    alloc: Global,
    tokens: &TokenStream<'_>,
    levels: usize,
    at: usize,
) -> Result<((Option<Expr>, Label), usize), Refusal>
    ensures { Says (read_qubits tokens.now levels at) result }
{
    let at = exactly(tokens, at, Terminal::Qubit)?;
    let (size, at) = optional_size(alloc, tokens, levels, at)?;
    paired(size, label(alloc, tokens, at))
}

/// `"qubit" [ "[" expr "]" ] Name ";"`
#[tactic(auto, unfolding(crate::specs::Parser::read_qubit_item, crate::specs::Parser::read_qubits, qt_lookahead::specs::OneToken::read_exactly))]
pub fn qubit_item(
    alloc: Global,
    tokens: &TokenStream<'_>,
    levels: usize,
    at: usize,
    place: Place,
) -> Result<(Item, usize), Refusal>
    ensures { Says (read_qubit_item tokens.now levels place at) result }
{
    let (declared, at) = qubits(alloc, tokens, levels, at)?;
    let ((size, name), at) = with_semicolon(tokens, declared, at)?;
    Ok((Item::Qubit { place, size, name }, at))
}

/// `"qreg" Name [ "[" expr "]" ] ";"`
#[tactic(auto, unfolding(crate::specs::Parser::read_register_item, qt_simple_statements::specs::Parser::read_name_and_size, qt_lookahead::specs::OneToken::read_exactly))]
pub fn register_item(
    alloc: Global,
    tokens: &TokenStream<'_>,
    levels: usize,
    at: usize,
    place: Place,
) -> Result<(Item, usize), Refusal>
    ensures { Says (read_register_item tokens.now levels place at) result }
{
    let at = exactly(tokens, at, Terminal::Qreg)?;
    let (parts, at) = name_and_size(alloc, tokens, levels, at)?;
    let ((name, size), at) = with_semicolon(tokens, parts, at)?;
    Ok((Item::QubitRegister { place, name, size }, at))
}
