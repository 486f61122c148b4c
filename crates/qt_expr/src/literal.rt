//! Literals and constants.

ghost use Rattle.qt_grammar.specs.Outcome.{Says};
ghost use Rattle.qt_expr.specs.Parser.{read_literal};

use qt_grammar::refusal::Refusal;
use qt_lookahead::one_token::behind;
use qt_terminals::stream::TokenStream;
use qt_terminals::terminal::Terminal;
use qt_tree::expression::Expr;

/// A whole number, a bit string, `pi`, `tau`, `true` or `false`.
#[tactic(auto, unfolding(crate::specs::Parser::read_literal))]
pub fn literal(tokens: &TokenStream<'_>, at: usize) -> Result<(Expr, usize), Refusal>
    ensures { Says (read_literal tokens.now at) result }
{
    match tokens.terminal(at) {
        Terminal::Integer => Ok((
            Expr::Whole {
                value: tokens.integer(at),
            },
            behind(tokens, at),
        )),
        Terminal::BitText => Ok((
            Expr::BitText {
                value: tokens.bits(at),
                length: tokens.bit_count(at),
            },
            behind(tokens, at),
        )),
        Terminal::Pi => Ok((Expr::Pi, behind(tokens, at))),
        Terminal::Tau => Ok((Expr::Tau, behind(tokens, at))),
        Terminal::True => Ok((Expr::Bool { value: true }, behind(tokens, at))),
        Terminal::False => Ok((Expr::Bool { value: false }, behind(tokens, at))),
        _ => Err(Refusal::Syntax(at)),
    }
}
