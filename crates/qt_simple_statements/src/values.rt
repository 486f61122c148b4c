//! The values of a `for` loop.

ghost use Rattle.qt_grammar.specs.Outcome.{Says};
ghost use Rattle.qt_simple_statements.specs.Parser.{read_sequence, read_range_in_brackets, read_values};

use qt_expr::expression::{range, set};
use qt_expr::handed_on::closed;
use qt_expr::names::label;
use qt_grammar::refusal::Refusal;
use qt_lookahead::one_token::{exactly, next_is};
use qt_terminals::stream::TokenStream;
use qt_terminals::terminal::Terminal;
use qt_tree::expression::Range;
use qt_tree::statement::Sequence;
use std::alloc::Global;

/// `"[" range "]"`
#[tactic(auto, unfolding(crate::specs::Parser::read_range_in_brackets, qt_expr::specs::Parser::read_range, qt_lookahead::specs::OneToken::read_exactly))]
fn range_in_brackets(
    alloc: Global,
    tokens: &TokenStream<'_>,
    levels: usize,
    at: usize,
) -> Result<(Range, usize), Refusal>
    ensures { Says (read_range_in_brackets tokens.now levels at) result }
{
    let at = exactly(tokens, at, Terminal::LeftBracket)?;
    let range = range(alloc, tokens, levels, at);
    closed(tokens, range, Terminal::RightBracket)
}

/// `"[" range "]" | "{" exprs "}" | Name`
#[tactic(auto, unfolding(crate::specs::Parser::read_sequence, crate::specs::Parser::read_range_in_brackets, qt_expr::specs::Parser::read_set, qt_expr::specs::Parser::read_label))]
fn sequence(
    alloc: Global,
    tokens: &TokenStream<'_>,
    levels: usize,
    at: usize,
) -> Result<(Sequence, usize), Refusal>
    ensures { Says (read_sequence tokens.now levels at) result }
{
    if next_is(tokens, at, Terminal::LeftBracket) {
        let (range, at) = range_in_brackets(alloc, tokens, levels, at)?;
        return Ok((Sequence::Range { range }, at));
    }
    if next_is(tokens, at, Terminal::LeftBrace) {
        let (members, at) = set(alloc, tokens, levels, at)?;
        return Ok((Sequence::Set { members }, at));
    }
    let (name, at) = label(alloc, tokens, at)?;
    Ok((Sequence::Name { name }, at))
}

/// `"in" ( "[" range "]" | "{" exprs "}" | Name )`
#[tactic(auto, unfolding(crate::specs::Parser::read_values, crate::specs::Parser::read_sequence, qt_lookahead::specs::OneToken::read_exactly))]
pub fn values(
    alloc: Global,
    tokens: &TokenStream<'_>,
    levels: usize,
    at: usize,
) -> Result<(Sequence, usize), Refusal>
    ensures { Says (read_values tokens.now levels at) result }
{
    let at = exactly(tokens, at, Terminal::In)?;
    sequence(alloc, tokens, levels, at)
}
