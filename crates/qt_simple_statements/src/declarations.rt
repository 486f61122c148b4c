//! Statements that declare a name: variables, bit registers, constants and aliases.

ghost use Rattle.qt_grammar.specs.Outcome.{Says};
ghost use Rattle.qt_simple_statements.specs.Parser.{read_declaration, read_optional_value, read_bit_register, read_optional_size, read_constant, read_alias, read_constant_value, read_joined_operands, read_name_and_size, read_name_and_value, read_named_constant, read_named_operands, read_typed_constant, read_typed_value};

use crate::operands::{first_value, operands};
use qt_expr::expression::{expression, scalar, size};
use qt_expr::handed_on::{closed, present};
use qt_expr::names::label;
use qt_grammar::refusal::Refusal;
use qt_lookahead::one_token::{exactly, next_is};
use qt_lookahead::pieces::paired;
use qt_terminals::stream::TokenStream;
use qt_terminals::terminal::Terminal;
use qt_tree::expression::{Expr, Scalar};
use qt_tree::label::Label;
use qt_tree::statement::{Operand, Right, StatementForm};
use sqlite_items::Items;
use std::alloc::Global;

/// `[ "=" right ]`
#[tactic(auto, unfolding(crate::specs::Parser::read_optional_value, crate::specs::Parser::read_first_value))]
fn optional_value(
    alloc: Global,
    tokens: &TokenStream<'_>,
    levels: usize,
    at: usize,
) -> Result<(Option<Right>, usize), Refusal>
    ensures { Says (read_optional_value tokens.now levels at) result }
{
    if !next_is(tokens, at, Terminal::Assign) {
        return Ok((None, at));
    }
    present(first_value(alloc, tokens, levels, at))
}

/// `Name [ "=" right ]`
#[tactic(auto, unfolding(crate::specs::Parser::read_name_and_value, crate::specs::Parser::read_optional_value, qt_expr::specs::Parser::read_label))]
fn name_and_value(
    alloc: Global,
    tokens: &TokenStream<'_>,
    levels: usize,
    at: usize,
) -> Result<((Label, Option<Right>), usize), Refusal>
    ensures { Says (read_name_and_value tokens.now levels at) result }
{
    let (name, at) = label(alloc, tokens, at)?;
    paired(name, optional_value(alloc, tokens, levels, at))
}

/// `scalar Name [ "=" right ]`
#[tactic(auto, unfolding(crate::specs::Parser::read_typed_value, crate::specs::Parser::read_name_and_value, qt_expr::specs::Parser::read_scalar))]
fn typed_value(
    alloc: Global,
    tokens: &TokenStream<'_>,
    levels: usize,
    at: usize,
) -> Result<((Scalar, (Label, Option<Right>)), usize), Refusal>
    ensures { Says (read_typed_value tokens.now levels at) result }
{
    let (scalar, at) = scalar(alloc, tokens, levels, at)?;
    paired(scalar, name_and_value(alloc, tokens, levels, at))
}

/// `scalar Name [ "=" right ] ";"`
#[tactic(auto, unfolding(crate::specs::Parser::read_declaration, crate::specs::Parser::read_typed_value, qt_lookahead::specs::OneToken::read_exactly))]
pub fn declaration(
    alloc: Global,
    tokens: &TokenStream<'_>,
    levels: usize,
    at: usize,
) -> Result<(StatementForm, usize), Refusal>
    ensures { Says (read_declaration tokens.now levels at) result }
{
    let parts = typed_value(alloc, tokens, levels, at);
    let ((scalar, (name, value)), at) = closed(tokens, parts, Terminal::Semicolon)?;
    let form = StatementForm::Declaration {
        scalar,
        name,
        value,
    };
    Ok((form, at))
}

/// `[ "[" expr "]" ]`
#[tactic(auto, unfolding(crate::specs::Parser::read_optional_size, qt_expr::specs::Parser::read_size))]
pub fn optional_size(
    alloc: Global,
    tokens: &TokenStream<'_>,
    levels: usize,
    at: usize,
) -> Result<(Option<Expr>, usize), Refusal>
    ensures { Says (read_optional_size tokens.now levels at) result }
{
    if !next_is(tokens, at, Terminal::LeftBracket) {
        return Ok((None, at));
    }
    present(size(alloc, tokens, levels, at))
}

/// `Name [ "[" expr "]" ]`
#[tactic(auto, unfolding(crate::specs::Parser::read_name_and_size, crate::specs::Parser::read_optional_size, qt_expr::specs::Parser::read_label))]
pub fn name_and_size(
    alloc: Global,
    tokens: &TokenStream<'_>,
    levels: usize,
    at: usize,
) -> Result<((Label, Option<Expr>), usize), Refusal>
    ensures { Says (read_name_and_size tokens.now levels at) result }
{
    let (name, at) = label(alloc, tokens, at)?;
    paired(name, optional_size(alloc, tokens, levels, at))
}

/// `"creg" Name [ "[" expr "]" ] ";"`
#[tactic(auto, unfolding(crate::specs::Parser::read_bit_register, crate::specs::Parser::read_name_and_size, qt_lookahead::specs::OneToken::read_exactly))]
pub fn bit_register(
    alloc: Global,
    tokens: &TokenStream<'_>,
    levels: usize,
    at: usize,
) -> Result<(StatementForm, usize), Refusal>
    ensures { Says (read_bit_register tokens.now levels at) result }
{
    let at = exactly(tokens, at, Terminal::Creg)?;
    let parts = name_and_size(alloc, tokens, levels, at);
    let ((name, size), at) = closed(tokens, parts, Terminal::Semicolon)?;
    Ok((StatementForm::BitRegister { name, size }, at))
}

/// `"=" expr`
#[tactic(auto, unfolding(crate::specs::Parser::read_constant_value, qt_expr::specs::Parser::read_expression, qt_lookahead::specs::OneToken::read_exactly))]
fn constant_value(
    alloc: Global,
    tokens: &TokenStream<'_>,
    levels: usize,
    at: usize,
) -> Result<(Expr, usize), Refusal>
    ensures { Says (read_constant_value tokens.now levels at) result }
{
    let at = exactly(tokens, at, Terminal::Assign)?;
    expression(alloc, tokens, levels, at)
}

/// `Name "=" expr`
#[tactic(auto, unfolding(crate::specs::Parser::read_named_constant, crate::specs::Parser::read_constant_value, qt_expr::specs::Parser::read_label))]
fn named_constant(
    alloc: Global,
    tokens: &TokenStream<'_>,
    levels: usize,
    at: usize,
) -> Result<((Label, Expr), usize), Refusal>
    ensures { Says (read_named_constant tokens.now levels at) result }
{
    let (name, at) = label(alloc, tokens, at)?;
    paired(name, constant_value(alloc, tokens, levels, at))
}

/// `"const" scalar Name "=" expr`
#[tactic(auto, unfolding(crate::specs::Parser::read_typed_constant, crate::specs::Parser::read_named_constant, qt_expr::specs::Parser::read_scalar, qt_lookahead::specs::OneToken::read_exactly))]
fn typed_constant(
    alloc: Global,
    tokens: &TokenStream<'_>,
    levels: usize,
    at: usize,
) -> Result<((Scalar, (Label, Expr)), usize), Refusal>
    ensures { Says (read_typed_constant tokens.now levels at) result }
{
    let at = exactly(tokens, at, Terminal::Const)?;
    let (scalar, at) = scalar(alloc, tokens, levels, at)?;
    paired(scalar, named_constant(alloc, tokens, levels, at))
}

/// `"const" scalar Name "=" expr ";"`
#[tactic(auto, unfolding(crate::specs::Parser::read_constant, crate::specs::Parser::read_typed_constant, qt_lookahead::specs::OneToken::read_exactly))]
pub fn constant(
    alloc: Global,
    tokens: &TokenStream<'_>,
    levels: usize,
    at: usize,
) -> Result<(StatementForm, usize), Refusal>
    ensures { Says (read_constant tokens.now levels at) result }
{
    let parts = typed_constant(alloc, tokens, levels, at);
    let ((scalar, (name, value)), at) = closed(tokens, parts, Terminal::Semicolon)?;
    let form = StatementForm::Constant {
        scalar,
        name,
        value,
    };
    Ok((form, at))
}

/// `"=" operand { "++" operand }`
#[tactic(auto, unfolding(crate::specs::Parser::read_joined_operands, crate::specs::Parser::read_operands, qt_lookahead::specs::OneToken::read_exactly))]
fn joined_operands(
    alloc: Global,
    tokens: &TokenStream<'_>,
    levels: usize,
    at: usize,
) -> Result<(Items<Operand>, usize), Refusal>
    ensures { Says (read_joined_operands tokens.now levels at) result }
{
    let at = exactly(tokens, at, Terminal::Assign)?;
    operands(alloc, tokens, levels, at, Terminal::PlusPlus)
}

/// `Name "=" operand { "++" operand }`
#[tactic(auto, unfolding(crate::specs::Parser::read_named_operands, crate::specs::Parser::read_joined_operands, qt_expr::specs::Parser::read_label))]
fn named_operands(
    alloc: Global,
    tokens: &TokenStream<'_>,
    levels: usize,
    at: usize,
) -> Result<((Label, Items<Operand>), usize), Refusal>
    ensures { Says (read_named_operands tokens.now levels at) result }
{
    let (name, at) = label(alloc, tokens, at)?;
    paired(name, joined_operands(alloc, tokens, levels, at))
}

/// `"let" Name "=" operand { "++" operand } ";"`
#[tactic(auto, unfolding(crate::specs::Parser::read_alias, crate::specs::Parser::read_named_operands, qt_lookahead::specs::OneToken::read_exactly))]
pub fn alias(
    alloc: Global,
    tokens: &TokenStream<'_>,
    levels: usize,
    at: usize,
) -> Result<(StatementForm, usize), Refusal>
    ensures { Says (read_alias tokens.now levels at) result }
{
    let at = exactly(tokens, at, Terminal::Let)?;
    let parts = named_operands(alloc, tokens, levels, at);
    let ((name, parts), at) = closed(tokens, parts, Terminal::Semicolon)?;
    Ok((StatementForm::Alias { name, parts }, at))
}
