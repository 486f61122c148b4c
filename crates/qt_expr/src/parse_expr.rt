//! An expression of a text.

ghost use Rattle.std.specs.Prelude.{◌≤◌};
ghost use Rattle.qt_terminals.specs.Terminals.{terminals};
ghost use Rattle.qt_grammar.specs.Spelling.{language_limits};
ghost use Rattle.qt_expr.specs.Answers.{AnswersExpression};

use crate::expression::expression;
use qt_grammar::maximum::MOST_LEVELS;
use qt_lex::tokens::Token;
use qt_lookahead::refusal::{ParseRefusal, located};
use qt_terminals::stream::TokenStream;
use qt_tree::expression::Expr;
use std::alloc::Global;

/// The expression that begins at a token, which has that depth, at most 64; the refusals are by place.
fn expression_at(
    alloc: Global,
    tokens: &TokenStream<'_>,
    at: usize,
    depth: u32,
) -> Result<(Expr, usize), ParseRefusal>
    requires { depth ≤ language_limits.levels }
    ensures { AnswersExpression tokens.now depth at result }
{
    match expression(alloc, tokens, MOST_LEVELS - depth as usize, at) {
        Ok(found) => Ok(found),
        Err(refusal) => Err(located(tokens, refusal)),
    }
}

/// The expression that begins at a token of a text, and the number of the token behind it; `depth` is the depth of the token at
/// which it begins, at most 64. The longest list of tokens from there on that opens an expression is read. Syntax or NotInProfile
/// where that list isn't an expression, with the place of the token behind it; Nest where one of its tokens has a depth above 64,
/// or is the 257th operator of an expression that stands in no other, with the first such token. An `@` is never at the beginning
/// of a statement here, so that it is refused with Syntax.
pub fn parse_expr(
    alloc: Global,
    text: &str,
    tokens: &[Token],
    at: usize,
    depth: u32,
) -> Result<(Expr, usize), ParseRefusal>
    requires { depth ≤ language_limits.levels }
    ensures { AnswersExpression (terminals text.now tokens.now) depth at result }
{
    let stream = TokenStream::new(alloc, text, tokens)?;
    expression_at(alloc, &stream, at, depth)
}
