//! Statements with a body, and bodies.

ghost use Rattle.std.specs.Prelude.{◌≡◌, length, None};
ghost use Rattle.qt_grammar.specs.Sorts.{statement};
ghost use Rattle.qt_grammar.specs.Language as g;
ghost use Rattle.qt_grammar.specs.Outcome.{Says};
ghost use Rattle.qt_expr.specs.Parser.{rest_some};
ghost use Rattle.qt_simple_statements.specs.Parser.{read_statement_form, read_values};
ghost use Rattle.qt_parse.specs.Parser.{read_block, read_statements, read_single, read_a_block, read_body, read_if, read_otherwise, read_while, read_for, read_statement, read_block_or_none, read_branches, read_named_loop, read_values_and_body};

use qt_expr::expression::{in_parentheses, scalar};
use qt_expr::grown::{appended, begun};
use qt_expr::names::label;
use qt_grammar::refusal::Refusal;
use qt_lookahead::begins::begins_statement;
use qt_lookahead::nesting::too_deep;
use qt_lookahead::one_token::{exactly, next_is};
use qt_lookahead::pieces::{ended, paired};
use qt_simple_statements::statements::form_without_body;
use qt_simple_statements::values::values;
use qt_terminals::stream::TokenStream;
use qt_terminals::terminal::Terminal;
use qt_tree::label::Label;
use qt_tree::statement::{Sequence, Statement, StatementForm};
use sqlite_items::Items;
use std::alloc::Global;

/// `body [ "else" body ]`
#[tactic(auto, unfolding(crate::specs::Parser::read_branches, crate::specs::Parser::read_body, crate::specs::Parser::read_otherwise))]
#[cycle(statement)]
fn branches(
    alloc: Global,
    tokens: &TokenStream<'_>,
    levels: usize,
    at: usize,
) -> Result<((Items<Statement>, Option<Items<Statement>>), usize), Refusal>
    ensures { Says (read_branches tokens.now levels at) result }
{
    let (then_body, at) = body(alloc, tokens, levels, at)?;
    paired(then_body, otherwise(alloc, tokens, levels, at))
}

/// `"if" "(" expr ")" body [ "else" body ]`
#[tactic(auto, unfolding(crate::specs::Parser::read_if, crate::specs::Parser::read_branches, qt_expr::specs::Parser::read_in_parentheses, qt_lookahead::specs::OneToken::read_exactly))]
#[cycle(statement)]
fn if_statement(
    alloc: Global,
    tokens: &TokenStream<'_>,
    levels: usize,
    at: usize,
) -> Result<(StatementForm, usize), Refusal>
    ensures { Says (read_if tokens.now levels at) result }
{
    let at = exactly(tokens, at, Terminal::If)?;
    let (condition, at) = in_parentheses(alloc, tokens, levels, at)?;
    let ((condition, (body, otherwise)), at) = paired(
        condition,
        branches(alloc, tokens, levels, at),
    )?;
    let form = StatementForm::If {
        condition,
        body,
        otherwise,
    };
    Ok((form, at))
}

/// `[ "else" body ]`, which belongs to the nearest `if`.
#[tactic(auto, unfolding(crate::specs::Parser::read_otherwise, crate::specs::Parser::read_body, qt_lookahead::specs::OneToken::read_exactly))]
#[cycle(statement)]
fn otherwise(
    alloc: Global,
    tokens: &TokenStream<'_>,
    levels: usize,
    at: usize,
) -> Result<(Option<Items<Statement>>, usize), Refusal>
    ensures { Says (read_otherwise tokens.now levels at) result }
{
    if !next_is(tokens, at, Terminal::Else) {
        return Ok((None, at));
    }
    let at = exactly(tokens, at, Terminal::Else)?;
    let (body, at) = body(alloc, tokens, levels, at)?;
    Ok((Some(body), at))
}

/// `"while" "(" expr ")" body`
#[tactic(auto, unfolding(crate::specs::Parser::read_while, crate::specs::Parser::read_body, qt_expr::specs::Parser::read_in_parentheses, qt_lookahead::specs::OneToken::read_exactly))]
#[cycle(statement)]
fn while_loop(
    alloc: Global,
    tokens: &TokenStream<'_>,
    levels: usize,
    at: usize,
) -> Result<(StatementForm, usize), Refusal>
    ensures { Says (read_while tokens.now levels at) result }
{
    let at = exactly(tokens, at, Terminal::While)?;
    let (condition, at) = in_parentheses(alloc, tokens, levels, at)?;
    let ((condition, body), at) = paired(condition, body(alloc, tokens, levels, at))?;
    Ok((StatementForm::While { condition, body }, at))
}

/// `"in" ( "[" range "]" | "{" exprs "}" | Name ) body`
#[tactic(auto, unfolding(crate::specs::Parser::read_values_and_body, qt_simple_statements::specs::Parser::read_values, crate::specs::Parser::read_body))]
#[cycle(statement)]
fn values_and_body(
    alloc: Global,
    tokens: &TokenStream<'_>,
    levels: usize,
    at: usize,
) -> Result<((Sequence, Items<Statement>), usize), Refusal>
    ensures { Says (read_values_and_body tokens.now levels at) result }
{
    let (values, at) = values(alloc, tokens, levels, at)?;
    paired(values, body(alloc, tokens, levels, at))
}

/// `Name "in" ( "[" range "]" | "{" exprs "}" | Name ) body`
#[tactic(auto, unfolding(crate::specs::Parser::read_named_loop, crate::specs::Parser::read_values_and_body, qt_expr::specs::Parser::read_label))]
#[cycle(statement)]
fn named_loop(
    alloc: Global,
    tokens: &TokenStream<'_>,
    levels: usize,
    at: usize,
) -> Result<((Label, (Sequence, Items<Statement>)), usize), Refusal>
    ensures { Says (read_named_loop tokens.now levels at) result }
{
    let (name, at) = label(alloc, tokens, at)?;
    paired(name, values_and_body(alloc, tokens, levels, at))
}

/// `"for" scalar Name "in" ( "[" range "]" | "{" exprs "}" | Name ) body`
#[tactic(auto, unfolding(crate::specs::Parser::read_for, crate::specs::Parser::read_named_loop, qt_expr::specs::Parser::read_scalar, qt_lookahead::specs::OneToken::read_exactly))]
#[cycle(statement)]
fn for_loop(
    alloc: Global,
    tokens: &TokenStream<'_>,
    levels: usize,
    at: usize,
) -> Result<(StatementForm, usize), Refusal>
    ensures { Says (read_for tokens.now levels at) result }
{
    let at = exactly(tokens, at, Terminal::For)?;
    let (scalar, at) = scalar(alloc, tokens, levels, at)?;
    let ((scalar, parts), at) = paired(scalar, named_loop(alloc, tokens, levels, at))?;
    let (name, (values, body)) = parts;
    let form = StatementForm::For {
        scalar,
        name,
        values,
        body,
    };
    Ok((form, at))
}

/// A statement, but for its place.
#[cycle(statement)]
pub fn statement_form(
    alloc: Global,
    tokens: &TokenStream<'_>,
    levels: usize,
    at: usize,
) -> Result<(StatementForm, usize), Refusal>
    ensures { Says (read_statement_form tokens.now levels at) result }
{
    match tokens.terminal(at) {
        Terminal::If => if_statement(alloc, tokens, levels, at),
        Terminal::While => while_loop(alloc, tokens, levels, at),
        Terminal::For => for_loop(alloc, tokens, levels, at),
        _ => form_without_body(alloc, tokens, levels, at),
    }
}

/// `statement`
#[tactic(auto, unfolding(crate::specs::Parser::read_statement, qt_simple_statements::specs::Parser::read_statement_form))]
#[cycle(statement)]
fn statement(
    alloc: Global,
    tokens: &TokenStream<'_>,
    levels: usize,
    at: usize,
) -> Result<(Statement, usize), Refusal>
    ensures { Says (read_statement tokens.now levels at) result }
{
    let place = tokens.place(at);
    let (form, at) = statement_form(alloc, tokens, levels, at)?;
    Ok((Statement { place, form }, at))
}

/// Statements, at least one.
#[tactic(auto, unfolding(crate::specs::Parser::read_statements, crate::specs::Parser::read_statement, qt_expr::specs::Parser::rest_some))]
#[cycle(statement)]
fn statements(
    alloc: Global,
    tokens: &TokenStream<'_>,
    levels: usize,
    at: usize,
) -> Result<(Items<Statement>, usize), Refusal>
    ensures { Says (read_statements tokens.now levels at) result }
{
    let (all, at) = begun(alloc, statement(alloc, tokens, levels, at))?;
    more_statements(alloc, tokens, levels, at, all)
}

/// The statements behind the first.
#[tactic(auto, using(qt_expr::proofs::Loops::some_ends, qt_expr::proofs::Loops::some_stops, crate::proofs::Lists::statements_go_on))]
#[cycle(statement)]
fn more_statements(
    alloc: Global,
    tokens: &TokenStream<'_>,
    levels: usize,
    at: usize,
    all: Items<Statement>,
) -> Result<(Items<Statement>, usize), Refusal>
    ensures { Says (rest_some tokens.now {s = statement} g.a_statement levels None (length tokens.now) all at) result }
{
    let mut all = all;
    let mut at = at;
    'turn: for turn in 0..tokens.len() {
        if !begins_statement(tokens, at) {
            return Ok((all, at));
        }
        at = appended(&mut all, statement(alloc, tokens, levels, at))?;
    }
    Ok((all, at))
}

/// The statements in the braces of a body, one level deeper.
#[tactic(auto, using(crate::proofs::Levels::block_is), unfolding(crate::specs::Parser::read_block))]
#[cycle(statement)]
fn block(
    alloc: Global,
    tokens: &TokenStream<'_>,
    levels: usize,
    at: usize,
) -> Result<(Items<Statement>, usize), Refusal>
    ensures { Says (read_block tokens.now levels at) result }
{
    if levels == 0 {
        return Err(too_deep(at, begins_statement(tokens, at)));
    }
    statements(alloc, tokens, levels - 1, at)
}

/// The single statement that is a body, one level deeper.
#[tactic(auto, using(crate::proofs::Levels::single_is), unfolding(crate::specs::Parser::read_single))]
#[cycle(statement)]
fn single(
    alloc: Global,
    tokens: &TokenStream<'_>,
    levels: usize,
    at: usize,
) -> Result<(Items<Statement>, usize), Refusal>
    ensures { Says (read_single tokens.now levels at) result }
{
    if levels == 0 {
        return Err(too_deep(at, begins_statement(tokens, at)));
    }
    begun(alloc, statement(alloc, tokens, levels - 1, at))
}

/// `{ statement }`, one level deeper where there are any.
#[tactic(auto, unfolding(crate::specs::Parser::read_block_or_none, crate::specs::Parser::read_block))]
#[cycle(statement)]
fn block_or_none(
    alloc: Global,
    tokens: &TokenStream<'_>,
    levels: usize,
    at: usize,
) -> Result<(Items<Statement>, usize), Refusal>
    ensures { Says (read_block_or_none tokens.now levels at) result }
{
    if !begins_statement(tokens, at) {
        return Ok((Items::new(alloc), at));
    }
    block(alloc, tokens, levels, at)
}

/// `block = "{" { statement } "}"`
#[tactic(auto, unfolding(crate::specs::Parser::read_a_block, crate::specs::Parser::read_block_or_none, qt_lookahead::specs::OneToken::read_exactly))]
#[cycle(statement)]
pub fn braced(
    alloc: Global,
    tokens: &TokenStream<'_>,
    levels: usize,
    at: usize,
) -> Result<(Items<Statement>, usize), Refusal>
    ensures { Says (read_a_block tokens.now levels at) result }
{
    let at = exactly(tokens, at, Terminal::LeftBrace)?;
    let (all, at) = block_or_none(alloc, tokens, levels, at)?;
    ended(tokens, all, at, Terminal::RightBrace)
}

/// `body = block | statement`
#[tactic(auto, unfolding(crate::specs::Parser::read_body, crate::specs::Parser::read_a_block, crate::specs::Parser::read_single))]
#[cycle(statement)]
fn body(
    alloc: Global,
    tokens: &TokenStream<'_>,
    levels: usize,
    at: usize,
) -> Result<(Items<Statement>, usize), Refusal>
    ensures { Says (read_body tokens.now levels at) result }
{
    if next_is(tokens, at, Terminal::LeftBrace) {
        braced(alloc, tokens, levels, at)
    } else {
        single(alloc, tokens, levels, at)
    }
}
