//! Subroutines.

ghost use Rattle.qt_grammar.specs.Outcome.{Says};
ghost use Rattle.qt_items.specs.Parser.{read_in_definition, read_result_type};
ghost use Rattle.qt_parse.specs.Parser.{read_definition, read_definition_parts, read_result_and_body};

use crate::bodies::braced;
use qt_expr::names::label;
use qt_grammar::refusal::Refusal;
use qt_items::parameters::{in_definition, result_type};
use qt_lookahead::one_token::exactly;
use qt_lookahead::pieces::paired;
use qt_terminals::stream::TokenStream;
use qt_terminals::terminal::Terminal;
use qt_tree::expression::Scalar;
use qt_tree::place::Place;
use qt_tree::program::{Definition, Item, Parameter};
use qt_tree::statement::Statement;
use sqlite_items::Items;
use std::alloc::Global;

/// `[ "->" scalar ] block`
#[tactic(auto, unfolding(crate::specs::Parser::read_result_and_body, qt_items::specs::Parser::read_result_type, crate::specs::Parser::read_a_block))]
fn result_and_body(
    alloc: Global,
    tokens: &TokenStream<'_>,
    levels: usize,
    at: usize,
) -> Result<((Option<Scalar>, Items<Statement>), usize), Refusal>
    ensures { Says (read_result_and_body tokens.now levels at) result }
{
    let (result_type, at) = result_type(alloc, tokens, levels, at)?;
    paired(result_type, braced(alloc, tokens, levels, at))
}

/// The parameters of a subroutine, the type of its result and its body.
type DefinitionParts = (Items<Parameter>, (Option<Scalar>, Items<Statement>));

/// `"(" [ param { "," param } ] ")" [ "->" scalar ] block`
#[tactic(auto, unfolding(crate::specs::Parser::read_definition_parts, qt_items::specs::Parser::read_in_definition, crate::specs::Parser::read_result_and_body))]
fn definition_parts(
    alloc: Global,
    tokens: &TokenStream<'_>,
    levels: usize,
    at: usize,
) -> Result<(DefinitionParts, usize), Refusal>
    ensures { Says (read_definition_parts tokens.now levels at) result }
{
    let (parameters, at) = in_definition(alloc, tokens, levels, at)?;
    paired(parameters, result_and_body(alloc, tokens, levels, at))
}

/// `"def" Name "(" [ param { "," param } ] ")" [ "->" scalar ] block`
#[tactic(auto, unfolding(crate::specs::Parser::read_definition, crate::specs::Parser::read_definition_parts, qt_expr::specs::Parser::read_label, qt_lookahead::specs::OneToken::read_exactly))]
pub fn definition(
    alloc: Global,
    tokens: &TokenStream<'_>,
    levels: usize,
    at: usize,
    place: Place,
) -> Result<(Item, usize), Refusal>
    ensures { Says (read_definition tokens.now levels place at) result }
{
    let at = exactly(tokens, at, Terminal::Def)?;
    let (name, at) = label(alloc, tokens, at)?;
    let ((name, parts), at) = paired(name, definition_parts(alloc, tokens, levels, at))?;
    let (parameters, (result_type, body)) = parts;
    let definition = Definition {
        place,
        name,
        parameters,
        result: result_type,
        body,
    };
    Ok((Item::Definition { definition }, at))
}
