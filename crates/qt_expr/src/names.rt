//! Names.

ghost use Rattle.std.specs.Prelude.{◌≡◌, ◌-◌, ◌<◌, length};
ghost use Rattle.qt_grammar.specs.Language as language;
ghost use Rattle.qt_terminals.specs.declared.terminal.Terminal.TheVariants as w;
ghost use Rattle.qt_grammar.specs.Outcome.{Says};
ghost use Rattle.qt_expr.specs.Parser.{read_label, read_names, rest_separated};

use crate::grown::{appended, begun};
use qt_grammar::refusal::Refusal;
use qt_lookahead::one_token::{behind, exactly, next_is};
use qt_terminals::stream::TokenStream;
use qt_terminals::terminal::Terminal;
use qt_tree::label::Label;
use sqlite_items::Items;
use std::alloc::Global;

/// A name.
#[tactic(auto, unfolding(crate::specs::Parser::read_label, qt_lookahead::specs::OneToken::read_exactly))]
pub fn label(alloc: Global, tokens: &TokenStream<'_>, at: usize) -> Result<(Label, usize), Refusal>
    ensures { Says (read_label tokens.now at) result }
{
    let behind = exactly(tokens, at, Terminal::Name)?;
    let name = Label::new(alloc, tokens.spelling(at))?;
    Ok((name, behind))
}

/// Names with commas between, at least one.
#[tactic(auto, using(crate::proofs::Lists::names_is))]
pub fn names(
    alloc: Global,
    tokens: &TokenStream<'_>,
    at: usize,
) -> Result<(Items<Label>, usize), Refusal>
    ensures { Says (read_names tokens.now at) result }
{
    let (all, at) = begun(alloc, label(alloc, tokens, at))?;
    more_names(alloc, tokens, at, all)
}

/// What stands behind the first of them.
fn more_names(
    alloc: Global,
    tokens: &TokenStream<'_>,
    at: usize,
    all: Items<Label>,
) -> Result<(Items<Label>, usize), Refusal>
    ensures { Says (rest_separated tokens.now w.Comma language.a_label 0 None (length tokens.now) all at) result }
{
    let mut all = all;
    let mut at = at;
    'turn: for turn in 0..tokens.len() {
        if !next_is(tokens, at, Terminal::Comma) {
            return Ok((all, at));
        }
        at = appended(&mut all, label(alloc, tokens, behind(tokens, at)))?;
    }
    Ok((all, at))
}
