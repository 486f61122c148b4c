//! Primaries, and factors: primaries with their unary operators and exponents.

ghost use Rattle.std.specs.Prelude.{◌≡◌, ◌+◌, ◌≤◌, None, Some};
ghost use Rattle.qt_grammar.specs.Outcome.{Says};
ghost use Rattle.qt_expr.specs.Nested.{Nests};
ghost use Rattle.qt_expr.specs.HandedOn.{with_size};
ghost use Rattle.qt_expr.specs.Parser.{read_cast, read_dimension, read_dimension_or_none, read_exponent_or_none, read_factor, read_in_size_of, read_measured_name, read_name, read_parenthesized, read_power, read_primary, read_scalar, read_size_of, read_sized};

use crate::binary::powered;
use crate::handed_on::{closed, present};
use crate::literal::literal;
use crate::names::label;
use crate::reader::Reader;
use qt_grammar::refusal::Refusal;
use qt_lookahead::nesting::{Nesting, too_deep};
use qt_lookahead::one_token::{behind, exactly, next_is};
use qt_lookahead::operator::{operator, unary_operator};
use qt_lookahead::pieces::{boxed, paired};
use qt_terminals::stream::TokenStream;
use qt_terminals::terminal::Terminal;
use qt_tree::expression::{Expr, Scalar};
use qt_tree::label::Label;
use sqlite_items::{Boxed, Items};
use std::alloc::Global;

/// The scalar type of that terminal, which isn't `bool`, with the size that was read, or why that wasn't read.
fn sized(
    terminal: Terminal,
    size: Result<(Option<Boxed<Expr>>, usize), Refusal>,
) -> Result<(Scalar, usize), Refusal>
    ensures { result ≡ with_size terminal size }
{
    let (size, at) = size?;
    let scalar = match terminal {
        Terminal::Bit => Scalar::Bit { size },
        Terminal::Int => Scalar::Int { size },
        Terminal::Uint => Scalar::Uint { size },
        _ => Scalar::Angle { size },
    };
    Ok((scalar, at))
}

impl<
    F: Fn(Global, &TokenStream<'_>, Nesting, usize, usize) -> Result<(Expr, usize), Refusal>,
> Reader<F> {
    /// `[ "[" expr "]" ]`
    #[tactic(auto, unfolding(crate::specs::Parser::read_sized, crate::specs::Parser::read_size))]
    pub fn size_or_none(
        &self,
        tokens: &TokenStream<'_>,
        nesting: Nesting,
        at: usize,
    ) -> Result<(Option<Boxed<Expr>>, usize), Refusal>
        requires { Nests nesting.levels (F.pre self.now.operation) (F.post self.now.operation) }
        ensures { Says (read_sized tokens.now nesting.levels nesting.outer at) result }
    {
        if !next_is(tokens, at, Terminal::LeftBracket) {
            return Ok((None, at));
        }
        present(boxed(self.alloc, self.size(tokens, nesting, at)))
    }

    /// `"bool" | ( "bit" | "int" | "uint" | "angle" ) [ "[" expr "]" ]`
    pub fn scalar(
        &self,
        tokens: &TokenStream<'_>,
        nesting: Nesting,
        at: usize,
    ) -> Result<(Scalar, usize), Refusal>
        requires { Nests nesting.levels (F.pre self.now.operation) (F.post self.now.operation) }
        ensures { Says (read_scalar tokens.now nesting.levels nesting.outer at) result }
    {
        let terminal = tokens.terminal(at);
        match terminal {
            Terminal::Bool => Ok((Scalar::Bool, behind(tokens, at))),
            Terminal::Bit | Terminal::Int | Terminal::Uint | Terminal::Angle => sized(
                terminal,
                self.size_or_none(tokens, nesting, behind(tokens, at)),
            ),
            _ => Err(Refusal::Syntax(at)),
        }
    }

    /// `scalar "(" expr ")"`
    #[tactic(auto, unfolding(crate::specs::Parser::read_cast, crate::specs::Parser::read_scalar, crate::specs::Parser::read_in_parentheses))]
    pub fn cast(
        &self,
        tokens: &TokenStream<'_>,
        nesting: Nesting,
        at: usize,
    ) -> Result<(Expr, usize), Refusal>
        requires { Nests nesting.levels (F.pre self.now.operation) (F.post self.now.operation) }
        ensures { Says (read_cast tokens.now nesting.levels nesting.outer at) result }
    {
        let (to, at) = self.scalar(tokens, nesting, at)?;
        let operand = boxed(self.alloc, self.in_parentheses(tokens, nesting, at));
        let ((to, operand), at) = paired(to, operand)?;
        Ok((Expr::Cast { to, operand }, at))
    }

    /// `"(" Name [ "," expr ] ")"`
    #[tactic(auto, unfolding(crate::specs::Parser::read_measured_name, crate::specs::Parser::read_in_size_of, qt_lookahead::specs::OneToken::read_exactly))]
    pub fn measured_name(
        &self,
        tokens: &TokenStream<'_>,
        nesting: Nesting,
        at: usize,
    ) -> Result<((Label, Option<Boxed<Expr>>), usize), Refusal>
        requires { Nests nesting.levels (F.pre self.now.operation) (F.post self.now.operation) }
        ensures { Says (read_measured_name tokens.now nesting.levels nesting.outer at) result }
    {
        let at = exactly(tokens, at, Terminal::LeftParen)?;
        closed(
            tokens,
            self.in_size_of(tokens, nesting, at),
            Terminal::RightParen,
        )
    }

    /// `"sizeof" "(" Name [ "," expr ] ")"`
    #[tactic(auto, unfolding(crate::specs::Parser::read_size_of, crate::specs::Parser::read_measured_name, qt_lookahead::specs::OneToken::read_exactly))]
    pub fn size_of(
        &self,
        tokens: &TokenStream<'_>,
        nesting: Nesting,
        at: usize,
    ) -> Result<(Expr, usize), Refusal>
        requires { Nests nesting.levels (F.pre self.now.operation) (F.post self.now.operation) }
        ensures { Says (read_size_of tokens.now nesting.levels nesting.outer at) result }
    {
        let at = exactly(tokens, at, Terminal::SizeOf)?;
        let ((name, dimension), at) = self.measured_name(tokens, nesting, at)?;
        Ok((Expr::SizeOf { name, dimension }, at))
    }

    /// What stands in the parentheses of `sizeof`, one level deeper.
    #[tactic(auto, unfolding(crate::specs::Parser::read_in_size_of, crate::specs::Parser::read_dimension))]
    pub fn in_size_of(
        &self,
        tokens: &TokenStream<'_>,
        nesting: Nesting,
        at: usize,
    ) -> Result<((Label, Option<Boxed<Expr>>), usize), Refusal>
        requires { Nests nesting.levels (F.pre self.now.operation) (F.post self.now.operation) }
        ensures { Says (read_in_size_of tokens.now nesting.levels nesting.outer at) result }
    {
        if nesting.levels == 0 {
            return Err(too_deep(at, next_is(tokens, at, Terminal::Name)));
        }
        self.dimension(tokens, nesting.below(), at)
    }

    /// `[ "," expr ]`
    #[tactic(auto, unfolding(crate::specs::Parser::read_dimension_or_none, qt_lookahead::specs::OneToken::read_exactly, crate::specs::Parser::read_expression))]
    pub fn dimension_or_none(
        &self,
        tokens: &TokenStream<'_>,
        nesting: Nesting,
        at: usize,
    ) -> Result<(Option<Boxed<Expr>>, usize), Refusal>
        requires { Nests (nesting.levels + 1) (F.pre self.now.operation) (F.post self.now.operation) }
        ensures { Says (read_dimension_or_none tokens.now nesting.levels nesting.outer at) result }
    {
        if !next_is(tokens, at, Terminal::Comma) {
            return Ok((None, at));
        }
        let at = exactly(tokens, at, Terminal::Comma)?;
        present(boxed(self.alloc, self.expression(tokens, nesting, at)))
    }

    /// `Name [ "," expr ]`
    #[tactic(auto, unfolding(crate::specs::Parser::read_dimension, crate::specs::Parser::read_label, crate::specs::Parser::read_dimension_or_none))]
    pub fn dimension(
        &self,
        tokens: &TokenStream<'_>,
        nesting: Nesting,
        at: usize,
    ) -> Result<((Label, Option<Boxed<Expr>>), usize), Refusal>
        requires { Nests (nesting.levels + 1) (F.pre self.now.operation) (F.post self.now.operation) }
        ensures { Says (read_dimension tokens.now nesting.levels nesting.outer at) result }
    {
        let (name, at) = label(self.alloc, tokens, at)?;
        paired(name, self.dimension_or_none(tokens, nesting, at))
    }

    /// `Name { "[" index { "," index } "]" } | Name "(" [ exprs ] ")"`
    #[tactic(auto, unfolding(crate::specs::Parser::read_name, crate::specs::Parser::read_label, crate::specs::Parser::read_arguments, crate::specs::Parser::read_all_indexes))]
    pub fn name(
        &self,
        tokens: &TokenStream<'_>,
        nesting: Nesting,
        at: usize,
    ) -> Result<(Expr, usize), Refusal>
        requires { Nests nesting.levels (F.pre self.now.operation) (F.post self.now.operation) }
        ensures { Says (read_name tokens.now nesting.levels nesting.outer at) result }
    {
        let (name, at) = label(self.alloc, tokens, at)?;
        match tokens.terminal(at) {
            Terminal::LeftParen => {
                let (arguments, at) = self.arguments(tokens, nesting, at)?;
                Ok((Expr::Call { name, arguments }, at))
            }
            Terminal::LeftBracket => {
                let (brackets, at) = self.all_indexes(tokens, nesting, at)?;
                Ok((Expr::Name { name, brackets }, at))
            }
            _ => {
                let brackets = Items::new(self.alloc);
                Ok((Expr::Name { name, brackets }, at))
            }
        }
    }

    /// `"(" expr ")"`, as an expression of its own.
    #[tactic(auto, unfolding(crate::specs::Parser::read_parenthesized, crate::specs::Parser::read_in_parentheses))]
    pub fn parenthesized(
        &self,
        tokens: &TokenStream<'_>,
        nesting: Nesting,
        at: usize,
    ) -> Result<(Expr, usize), Refusal>
        requires { Nests nesting.levels (F.pre self.now.operation) (F.post self.now.operation) }
        ensures { Says (read_parenthesized tokens.now nesting.levels nesting.outer at) result }
    {
        let (inner, at) = boxed(self.alloc, self.in_parentheses(tokens, nesting, at))?;
        Ok((Expr::Parenthesized { inner }, at))
    }

    /// A literal, an expression in parentheses, a name or a call, a cast, or `sizeof`.
    pub fn primary(
        &self,
        tokens: &TokenStream<'_>,
        nesting: Nesting,
        at: usize,
    ) -> Result<(Expr, usize), Refusal>
        requires { Nests nesting.levels (F.pre self.now.operation) (F.post self.now.operation) }
        ensures { Says (read_primary tokens.now nesting.levels nesting.outer at) result }
    {
        match tokens.terminal(at) {
            Terminal::LeftParen => self.parenthesized(tokens, nesting, at),
            Terminal::Name => self.name(tokens, nesting, at),
            Terminal::Bool | Terminal::Bit | Terminal::Int | Terminal::Uint | Terminal::Angle => {
                self.cast(tokens, nesting, at)
            }
            Terminal::SizeOf => self.size_of(tokens, nesting, at),
            _ => literal(tokens, at),
        }
    }

    /// `[ "**" operand ]`
    #[tactic(auto, unfolding(crate::specs::Parser::read_exponent_or_none, crate::specs::Parser::read_unary))]
    pub fn exponent_or_none(
        &self,
        tokens: &TokenStream<'_>,
        nesting: Nesting,
        at: usize,
    ) -> Result<(Option<Expr>, usize), Refusal>
        requires { Nests nesting.levels (F.pre self.now.operation) (F.post self.now.operation) }
        ensures { Says (read_exponent_or_none tokens.now nesting.levels nesting.outer at) result }
    {
        if !next_is(tokens, at, Terminal::StarStar) {
            return Ok((None, at));
        }
        let at = operator(tokens, nesting, at)?;
        present(self.unary(tokens, nesting, at))
    }

    /// A primary, with its exponent if there is one.
    #[tactic(auto, unfolding(crate::specs::Parser::read_power, crate::specs::Parser::read_primary, crate::specs::Parser::read_exponent_or_none))]
    pub fn power(
        &self,
        tokens: &TokenStream<'_>,
        nesting: Nesting,
        at: usize,
    ) -> Result<(Expr, usize), Refusal>
        requires { Nests nesting.levels (F.pre self.now.operation) (F.post self.now.operation) }
        ensures { Says (read_power tokens.now nesting.levels nesting.outer at) result }
    {
        let (base, at) = self.primary(tokens, nesting, at)?;
        powered(self.alloc, base, self.exponent_or_none(tokens, nesting, at))
    }

    /// A unary operator with its operand, or a primary with its exponent if there is one.
    pub fn factor(
        &self,
        tokens: &TokenStream<'_>,
        nesting: Nesting,
        at: usize,
    ) -> Result<(Expr, usize), Refusal>
        requires { Nests nesting.levels (F.pre self.now.operation) (F.post self.now.operation) }
        ensures { Says (read_factor tokens.now nesting.levels nesting.outer at) result }
    {
        let Some(found) = unary_operator(tokens.terminal(at)) else {
            return self.power(tokens, nesting, at);
        };
        let at = operator(tokens, nesting, at)?;
        let (operand, at) = boxed(self.alloc, self.unary(tokens, nesting, at))?;
        Ok((
            Expr::Unary {
                operator: found,
                operand,
            },
            at,
        ))
    }
}
