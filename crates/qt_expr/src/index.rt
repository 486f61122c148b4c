//! Indexes and ranges.

ghost use Rattle.std.specs.Prelude.{◌≡◌, ◌+◌, ◌≤◌, length, None, Some};
ghost use Rattle.qt_terminals.specs.declared.terminal.Terminal.TheVariants as w;
ghost use Rattle.qt_grammar.specs.Form as form;
ghost use Rattle.qt_grammar.specs.Sorts as sorts;
ghost use Rattle.qt_grammar.specs.Language as language;
ghost use Rattle.qt_grammar.specs.Outcome.{Says};
ghost use Rattle.qt_expr.specs.Nested.{Nests};
ghost use Rattle.qt_expr.specs.Parser.{read_all_indexes, read_behind_start, read_bounds, read_bounds_or_none, read_index, read_index_form, read_index_list, read_indexes, read_last_bound, read_place_or_range, read_range, read_range_form, rest_separated, rest_some};

use crate::grown::{appended, begun};
use crate::handed_on::{closed, present};
use crate::reader::Reader;
use qt_grammar::refusal::Refusal;
use qt_lookahead::begins::{begins_expression, begins_index};
use qt_lookahead::nesting::{Nesting, too_deep};
use qt_lookahead::one_token::{behind, exactly, next_is};
use qt_lookahead::pieces::{ended, paired};
use qt_terminals::stream::TokenStream;
use qt_terminals::terminal::Terminal;
use qt_tree::expression::{Expr, Index, Range};
use sqlite_items::Items;
use std::alloc::Global;

/// The range from that start on with what stands behind its colon: nothing, its end, or its step and what stands behind the
/// next colon.
fn range_of(start: Option<Expr>, bounds: Option<(Expr, Option<Option<Expr>>)>) -> Range
    ensures { result ≡ language.range_of bounds start }
{
    match bounds {
        None => Range {
            start,
            step: None,
            end: None,
        },
        Some((first, last)) => match last {
            None => Range {
                start,
                step: None,
                end: Some(first),
            },
            Some(end) => Range {
                start,
                step: Some(first),
                end,
            },
        },
    }
}

impl<
    F: Fn(Global, &TokenStream<'_>, Nesting, usize, usize) -> Result<(Expr, usize), Refusal>,
> Reader<F> {
    /// `[ ":" [ expr ] ]`
    #[tactic(auto, unfolding(crate::specs::Parser::read_last_bound, qt_lookahead::specs::OneToken::read_exactly, crate::specs::Parser::read_expression_or_none))]
    pub fn last_bound(
        &self,
        tokens: &TokenStream<'_>,
        nesting: Nesting,
        at: usize,
    ) -> Result<(Option<Option<Expr>>, usize), Refusal>
        requires { Nests (nesting.levels + 1) (F.pre self.now.operation) (F.post self.now.operation) }
        ensures { Says (read_last_bound tokens.now nesting.levels nesting.outer at) result }
    {
        if !next_is(tokens, at, Terminal::Colon) {
            return Ok((None, at));
        }
        let at = exactly(tokens, at, Terminal::Colon)?;
        present(self.expression_or_none(tokens, nesting, at))
    }

    /// `expr [ ":" [ expr ] ]`
    #[tactic(auto, unfolding(crate::specs::Parser::read_bounds, crate::specs::Parser::read_last_bound, crate::specs::Parser::read_expression))]
    pub fn bounds(
        &self,
        tokens: &TokenStream<'_>,
        nesting: Nesting,
        at: usize,
    ) -> Result<((Expr, Option<Option<Expr>>), usize), Refusal>
        requires { Nests (nesting.levels + 1) (F.pre self.now.operation) (F.post self.now.operation) }
        ensures { Says (read_bounds tokens.now nesting.levels nesting.outer at) result }
    {
        let (first, at) = self.expression(tokens, nesting, at)?;
        paired(first, self.last_bound(tokens, nesting, at))
    }

    /// `[ expr [ ":" [ expr ] ] ]`
    #[tactic(auto, unfolding(crate::specs::Parser::read_bounds_or_none, crate::specs::Parser::read_bounds))]
    pub fn bounds_or_none(
        &self,
        tokens: &TokenStream<'_>,
        nesting: Nesting,
        at: usize,
    ) -> Result<(Option<(Expr, Option<Option<Expr>>)>, usize), Refusal>
        requires { Nests (nesting.levels + 1) (F.pre self.now.operation) (F.post self.now.operation) }
        ensures { Says (read_bounds_or_none tokens.now nesting.levels nesting.outer at) result }
    {
        if !begins_expression(tokens.terminal(at)) {
            return Ok((None, at));
        }
        present(self.bounds(tokens, nesting, at))
    }

    /// A range from its colon on, behind its start.
    #[tactic(auto, unfolding(crate::specs::Parser::read_behind_start, crate::specs::Parser::read_bounds_or_none, qt_lookahead::specs::OneToken::read_exactly))]
    pub fn behind_start(
        &self,
        tokens: &TokenStream<'_>,
        nesting: Nesting,
        start: Option<Expr>,
        at: usize,
    ) -> Result<(Range, usize), Refusal>
        requires { Nests (nesting.levels + 1) (F.pre self.now.operation) (F.post self.now.operation) }
        ensures { Says (read_behind_start tokens.now nesting.levels nesting.outer start at) result }
    {
        let (start, at) = ended(tokens, start, at, Terminal::Colon)?;
        let ((start, bounds), at) = paired(start, self.bounds_or_none(tokens, nesting, at))?;
        Ok((range_of(start, bounds), at))
    }

    /// `[ expr ] ":" [ expr ] | [ expr ] ":" expr ":" [ expr ]`
    #[tactic(auto, unfolding(crate::specs::Parser::read_range_form, crate::specs::Parser::read_behind_start, crate::specs::Parser::read_expression))]
    pub fn range_form(
        &self,
        tokens: &TokenStream<'_>,
        nesting: Nesting,
        at: usize,
    ) -> Result<(Range, usize), Refusal>
        requires { Nests (nesting.levels + 1) (F.pre self.now.operation) (F.post self.now.operation) }
        ensures { Says (read_range_form tokens.now nesting.levels nesting.outer at) result }
    {
        if next_is(tokens, at, Terminal::Colon) {
            return self.behind_start(tokens, nesting, None, at);
        }
        let (start, at) = self.expression(tokens, nesting, at)?;
        self.behind_start(tokens, nesting, Some(start), at)
    }

    /// What stands in the brackets of a range, one level deeper.
    #[tactic(auto, unfolding(crate::specs::Parser::read_range, crate::specs::Parser::read_range_form))]
    pub fn range(
        &self,
        tokens: &TokenStream<'_>,
        nesting: Nesting,
        at: usize,
    ) -> Result<(Range, usize), Refusal>
        requires { Nests nesting.levels (F.pre self.now.operation) (F.post self.now.operation) }
        ensures { Says (read_range tokens.now nesting.levels nesting.outer at) result }
    {
        if nesting.levels == 0 {
            return Err(too_deep(
                at,
                next_is(tokens, at, Terminal::Colon) || begins_expression(tokens.terminal(at)),
            ));
        }
        self.range_form(tokens, nesting.below(), at)
    }

    /// An expression, or a range with a start.
    pub fn place_or_range(
        &self,
        tokens: &TokenStream<'_>,
        nesting: Nesting,
        at: usize,
    ) -> Result<(Index, usize), Refusal>
        requires { Nests (nesting.levels + 1) (F.pre self.now.operation) (F.post self.now.operation) }
        ensures { Says (read_place_or_range tokens.now nesting.levels nesting.outer at) result }
    {
        let (place, at) = self.expression(tokens, nesting, at)?;
        if !next_is(tokens, at, Terminal::Colon) {
            return Ok((Index::At { place }, at));
        }
        let (range, at) = self.behind_start(tokens, nesting, Some(place), at)?;
        Ok((Index::Range { range }, at))
    }

    /// `expr | range | "{" exprs "}"`
    pub fn index_form(
        &self,
        tokens: &TokenStream<'_>,
        nesting: Nesting,
        at: usize,
    ) -> Result<(Index, usize), Refusal>
        requires { Nests (nesting.levels + 1) (F.pre self.now.operation) (F.post self.now.operation) }
        ensures { Says (read_index_form tokens.now nesting.levels nesting.outer at) result }
    {
        match tokens.terminal(at) {
            Terminal::LeftBrace => {
                let (places, at) = self.set(tokens, nesting, at)?;
                Ok((Index::Set { places }, at))
            }
            Terminal::Colon => {
                let (range, at) = self.behind_start(tokens, nesting, None, at)?;
                Ok((Index::Range { range }, at))
            }
            _ => self.place_or_range(tokens, nesting, at),
        }
    }

    /// What stands in the brackets of an index, one level deeper.
    #[tactic(auto, unfolding(crate::specs::Parser::read_index, crate::specs::Parser::read_index_form))]
    pub fn index(
        &self,
        tokens: &TokenStream<'_>,
        nesting: Nesting,
        at: usize,
    ) -> Result<(Index, usize), Refusal>
        requires { Nests nesting.levels (F.pre self.now.operation) (F.post self.now.operation) }
        ensures { Says (read_index tokens.now nesting.levels nesting.outer at) result }
    {
        if nesting.levels == 0 {
            return Err(too_deep(at, begins_index(tokens.terminal(at))));
        }
        self.index_form(tokens, nesting.below(), at)
    }

    /// Indexes with commas between, at least one.
    #[tactic(auto, using(crate::proofs::Lists::index_list_is))]
    pub fn index_list(
        &self,
        tokens: &TokenStream<'_>,
        nesting: Nesting,
        at: usize,
    ) -> Result<(Items<Index>, usize), Refusal>
        requires { Nests nesting.levels (F.pre self.now.operation) (F.post self.now.operation) }
        ensures { Says (read_index_list tokens.now nesting.levels nesting.outer at) result }
    {
        let (all, at) = begun(self.alloc, self.index(tokens, nesting, at))?;
        self.more_of_index_list(tokens, nesting, at, all)
    }

    /// What stands behind the first of them.
    fn more_of_index_list(
        &self,
        tokens: &TokenStream<'_>,
        nesting: Nesting,
        at: usize,
        all: Items<Index>,
    ) -> Result<(Items<Index>, usize), Refusal>
        requires { Nests nesting.levels (F.pre self.now.operation) (F.post self.now.operation) }
        ensures { Says (rest_separated tokens.now w.Comma (form.named sorts.an_index) nesting.levels nesting.outer (length tokens.now) all at) result }
    {
        let mut all = all;
        let mut at = at;
        'turn: for turn in 0..tokens.len() {
            if !next_is(tokens, at, Terminal::Comma) {
                return Ok((all, at));
            }
            at = appended(&mut all, self.index(tokens, nesting, behind(tokens, at)))?;
        }
        Ok((all, at))
    }

    /// `"[" index { "," index } "]"`
    #[tactic(auto, unfolding(crate::specs::Parser::read_indexes, crate::specs::Parser::read_index_list, qt_lookahead::specs::OneToken::read_exactly))]
    pub fn indexes(
        &self,
        tokens: &TokenStream<'_>,
        nesting: Nesting,
        at: usize,
    ) -> Result<(Items<Index>, usize), Refusal>
        requires { Nests nesting.levels (F.pre self.now.operation) (F.post self.now.operation) }
        ensures { Says (read_indexes tokens.now nesting.levels nesting.outer at) result }
    {
        let at = exactly(tokens, at, Terminal::LeftBracket)?;
        closed(
            tokens,
            self.index_list(tokens, nesting, at),
            Terminal::RightBracket,
        )
    }

    /// Brackets with indexes, one after the other, at least one.
    #[tactic(auto, using(crate::proofs::Lists::all_indexes_are))]
    pub fn all_indexes(
        &self,
        tokens: &TokenStream<'_>,
        nesting: Nesting,
        at: usize,
    ) -> Result<(Items<Items<Index>>, usize), Refusal>
        requires { Nests nesting.levels (F.pre self.now.operation) (F.post self.now.operation) }
        ensures { Says (read_all_indexes tokens.now nesting.levels nesting.outer at) result }
    {
        let (all, at) = begun(self.alloc, self.indexes(tokens, nesting, at))?;
        self.more_of_all_indexes(tokens, nesting, at, all)
    }

    /// What stands behind the first of them.
    fn more_of_all_indexes(
        &self,
        tokens: &TokenStream<'_>,
        nesting: Nesting,
        at: usize,
        all: Items<Items<Index>>,
    ) -> Result<(Items<Items<Index>>, usize), Refusal>
        requires { Nests nesting.levels (F.pre self.now.operation) (F.post self.now.operation) }
        ensures { Says (rest_some tokens.now language.indexes nesting.levels nesting.outer (length tokens.now) all at) result }
    {
        let mut all = all;
        let mut at = at;
        'turn: for turn in 0..tokens.len() {
            if !next_is(tokens, at, Terminal::LeftBracket) {
                return Ok((all, at));
            }
            at = appended(&mut all, self.indexes(tokens, nesting, at))?;
        }
        Ok((all, at))
    }
}
