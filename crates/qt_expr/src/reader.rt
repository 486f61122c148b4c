//! The forms that hold expressions, and what all of them need: nested expressions and lists of them.

ghost use Rattle.std.specs.Prelude.{◌≡◌, ◌+◌, ◌≤◌, length, None, Some};
ghost use Rattle.qt_terminals.specs.declared.terminal.Terminal.TheVariants as w;
ghost use Rattle.qt_grammar.specs.Language as language;
ghost use Rattle.qt_grammar.specs.Outcome.{Says};
ghost use Rattle.qt_expr.specs.Nested.{Nests};
ghost use Rattle.qt_expr.specs.Parser.{read_any, read_arguments, read_expression, read_expression_or_none, read_expressions, read_in_parentheses, read_list, read_list_or_none, read_members, read_set, read_size, read_unary, rest_separated};

use crate::grown::{appended, begun};
use crate::handed_on::{closed, present};
use qt_grammar::refusal::Refusal;
use qt_lookahead::begins::begins_expression;
use qt_lookahead::nesting::{Nesting, too_deep};
use qt_lookahead::one_token::{behind, exactly, next_is};
use qt_lookahead::operator::STRENGTHS;
use qt_terminals::stream::TokenStream;
use qt_terminals::terminal::Terminal;
use qt_tree::expression::Expr;
use sqlite_items::Items;
use std::alloc::Global;

/// Reads forms that hold expressions. `operation` reads operands with operators between that are at least so strong; it is a
/// parameter, so that each form is proved by itself.
#[derive(Clone, Copy)]
pub struct Reader<F> {
    pub alloc: Global,
    pub operation: F,
}

impl<
    F: Fn(Global, &TokenStream<'_>, Nesting, usize, usize) -> Result<(Expr, usize), Refusal>,
> Reader<F> {
    /// An expression, whose operators are counted from here on unless it stands in another.
    #[tactic(auto, unfolding(crate::specs::Parser::read_expression, crate::specs::Parser::read_operation))]
    pub fn expression(
        &self,
        tokens: &TokenStream<'_>,
        nesting: Nesting,
        at: usize,
    ) -> Result<(Expr, usize), Refusal>
        requires { Nests (nesting.levels + 1) (F.pre self.now.operation) (F.post self.now.operation) }
        ensures { Says (read_expression tokens.now nesting.levels nesting.outer at) result }
    {
        let begun = nesting.begun(tokens, at);
        (self.operation)(self.alloc, tokens, begun, 0, at)
    }

    /// An expression, or nothing.
    #[tactic(auto, unfolding(crate::specs::Parser::read_expression_or_none, crate::specs::Parser::read_expression))]
    pub fn expression_or_none(
        &self,
        tokens: &TokenStream<'_>,
        nesting: Nesting,
        at: usize,
    ) -> Result<(Option<Expr>, usize), Refusal>
        requires { Nests (nesting.levels + 1) (F.pre self.now.operation) (F.post self.now.operation) }
        ensures { Says (read_expression_or_none tokens.now nesting.levels nesting.outer at) result }
    {
        if !begins_expression(tokens.terminal(at)) {
            return Ok((None, at));
        }
        present(self.expression(tokens, nesting, at))
    }

    /// Expressions with commas between, at least one.
    #[tactic(auto, using(crate::proofs::Lists::expressions_is))]
    pub fn expressions(
        &self,
        tokens: &TokenStream<'_>,
        nesting: Nesting,
        at: usize,
    ) -> Result<(Items<Expr>, usize), Refusal>
        requires { Nests (nesting.levels + 1) (F.pre self.now.operation) (F.post self.now.operation) }
        ensures { Says (read_expressions tokens.now nesting.levels nesting.outer at) result }
    {
        let (all, at) = begun(self.alloc, self.expression(tokens, nesting, at))?;
        self.more_expressions(tokens, nesting, at, all)
    }

    /// What stands behind the first of them.
    fn more_expressions(
        &self,
        tokens: &TokenStream<'_>,
        nesting: Nesting,
        at: usize,
        all: Items<Expr>,
    ) -> Result<(Items<Expr>, usize), Refusal>
        requires { Nests (nesting.levels + 1) (F.pre self.now.operation) (F.post self.now.operation) }
        ensures { Says (rest_separated tokens.now w.Comma (language.expression) nesting.levels nesting.outer (length tokens.now) all at) result }
    {
        let mut all = all;
        let mut at = at;
        'turn: for turn in 0..tokens.len() {
            if !next_is(tokens, at, Terminal::Comma) {
                return Ok((all, at));
            }
            at = appended(
                &mut all,
                self.expression(tokens, nesting, behind(tokens, at)),
            )?;
        }
        Ok((all, at))
    }

    /// An expression in parentheses or brackets, one level deeper.
    #[tactic(auto, unfolding(crate::specs::Parser::read_any, crate::specs::Parser::read_expression))]
    pub fn any(
        &self,
        tokens: &TokenStream<'_>,
        nesting: Nesting,
        at: usize,
    ) -> Result<(Expr, usize), Refusal>
        requires { Nests nesting.levels (F.pre self.now.operation) (F.post self.now.operation) }
        ensures { Says (read_any tokens.now nesting.levels nesting.outer at) result }
    {
        if nesting.levels == 0 {
            return Err(too_deep(at, begins_expression(tokens.terminal(at))));
        }
        self.expression(tokens, nesting.below(), at)
    }

    /// The operand of a unary operator or of `**`, one level deeper.
    #[tactic(auto, unfolding(crate::specs::Parser::read_unary, crate::specs::Parser::read_operation))]
    pub fn unary(
        &self,
        tokens: &TokenStream<'_>,
        nesting: Nesting,
        at: usize,
    ) -> Result<(Expr, usize), Refusal>
        requires { Nests nesting.levels (F.pre self.now.operation) (F.post self.now.operation) }
        ensures { Says (read_unary tokens.now nesting.levels nesting.outer at) result }
    {
        if nesting.levels == 0 {
            return Err(too_deep(at, begins_expression(tokens.terminal(at))));
        }
        (self.operation)(self.alloc, tokens, nesting.below(), STRENGTHS, at)
    }

    /// `"(" expr ")"`
    #[tactic(auto, unfolding(crate::specs::Parser::read_in_parentheses, crate::specs::Parser::read_any, qt_lookahead::specs::OneToken::read_exactly))]
    pub fn in_parentheses(
        &self,
        tokens: &TokenStream<'_>,
        nesting: Nesting,
        at: usize,
    ) -> Result<(Expr, usize), Refusal>
        requires { Nests nesting.levels (F.pre self.now.operation) (F.post self.now.operation) }
        ensures { Says (read_in_parentheses tokens.now nesting.levels nesting.outer at) result }
    {
        let at = exactly(tokens, at, Terminal::LeftParen)?;
        closed(tokens, self.any(tokens, nesting, at), Terminal::RightParen)
    }

    /// `"[" expr "]"`
    #[tactic(auto, unfolding(crate::specs::Parser::read_size, crate::specs::Parser::read_any, qt_lookahead::specs::OneToken::read_exactly))]
    pub fn size(
        &self,
        tokens: &TokenStream<'_>,
        nesting: Nesting,
        at: usize,
    ) -> Result<(Expr, usize), Refusal>
        requires { Nests nesting.levels (F.pre self.now.operation) (F.post self.now.operation) }
        ensures { Says (read_size tokens.now nesting.levels nesting.outer at) result }
    {
        let at = exactly(tokens, at, Terminal::LeftBracket)?;
        closed(
            tokens,
            self.any(tokens, nesting, at),
            Terminal::RightBracket,
        )
    }

    /// Expressions with commas between, each one level deeper, at least one.
    pub fn list(
        &self,
        tokens: &TokenStream<'_>,
        nesting: Nesting,
        at: usize,
    ) -> Result<(Items<Expr>, usize), Refusal>
        requires { Nests nesting.levels (F.pre self.now.operation) (F.post self.now.operation) }
        ensures { Says (read_list tokens.now nesting.levels nesting.outer at) result }
    {
        if nesting.levels == 0 {
            return Err(too_deep(at, begins_expression(tokens.terminal(at))));
        }
        self.expressions(tokens, nesting.below(), at)
    }

    /// A list, or nothing for the empty one.
    #[tactic(auto, unfolding(crate::specs::Parser::read_list_or_none, crate::specs::Parser::read_list))]
    pub fn list_or_none(
        &self,
        tokens: &TokenStream<'_>,
        nesting: Nesting,
        at: usize,
    ) -> Result<(Items<Expr>, usize), Refusal>
        requires { Nests nesting.levels (F.pre self.now.operation) (F.post self.now.operation) }
        ensures { Says (read_list_or_none tokens.now nesting.levels nesting.outer at) result }
    {
        if !begins_expression(tokens.terminal(at)) {
            return Ok((Items::new(self.alloc), at));
        }
        self.list(tokens, nesting, at)
    }

    /// `"(" [ exprs ] ")"`
    #[tactic(auto, unfolding(crate::specs::Parser::read_arguments, crate::specs::Parser::read_list_or_none, qt_lookahead::specs::OneToken::read_exactly))]
    pub fn arguments(
        &self,
        tokens: &TokenStream<'_>,
        nesting: Nesting,
        at: usize,
    ) -> Result<(Items<Expr>, usize), Refusal>
        requires { Nests nesting.levels (F.pre self.now.operation) (F.post self.now.operation) }
        ensures { Says (read_arguments tokens.now nesting.levels nesting.outer at) result }
    {
        let at = exactly(tokens, at, Terminal::LeftParen)?;
        closed(
            tokens,
            self.list_or_none(tokens, nesting, at),
            Terminal::RightParen,
        )
    }

    /// What stands in the braces of a set: a list.
    #[tactic(auto, using(crate::proofs::Steps::members_are))]
    pub fn members(
        &self,
        tokens: &TokenStream<'_>,
        nesting: Nesting,
        at: usize,
    ) -> Result<(Items<Expr>, usize), Refusal>
        requires { Nests nesting.levels (F.pre self.now.operation) (F.post self.now.operation) }
        ensures { Says (read_members tokens.now nesting.levels nesting.outer at) result }
    {
        self.list(tokens, nesting, at)
    }

    /// `"{" exprs "}"`
    #[tactic(auto, unfolding(crate::specs::Parser::read_set, crate::specs::Parser::read_members, qt_lookahead::specs::OneToken::read_exactly))]
    pub fn set(
        &self,
        tokens: &TokenStream<'_>,
        nesting: Nesting,
        at: usize,
    ) -> Result<(Items<Expr>, usize), Refusal>
        requires { Nests nesting.levels (F.pre self.now.operation) (F.post self.now.operation) }
        ensures { Says (read_set tokens.now nesting.levels nesting.outer at) result }
    {
        let at = exactly(tokens, at, Terminal::LeftBrace)?;
        closed(
            tokens,
            self.members(tokens, nesting, at),
            Terminal::RightBrace,
        )
    }
}
