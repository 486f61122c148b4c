//! Pieces of a form, put together while the form is read.
//!
//! The functions are generic in what was read, so that a function that holds a tree while it reads on hands the tree over, and
//! needn't prove what there is to drop, variant by variant, at each of its refusals.

ghost use Rattle.std.specs.Prelude.{◌≡◌, ◌<◌};
ghost use Rattle.qt_terminals.specs.Alphabet as alphabet;
ghost use Rattle.qt_terminals.specs.Terminals.{stream};
ghost use Rattle.qt_terminals.specs.declared.terminal.Terminal.TheVariants as w;
ghost use Rattle.qt_grammar.specs.Outcome.{Says};
ghost use Rattle.qt_lookahead.specs.OneToken.{Adds, Ends, read_exactly};

use crate::one_token::{behind, exactly, next_is};
use qt_grammar::refusal::Refusal;
use qt_terminals::stream::TokenStream;
use qt_terminals::terminal::Terminal;
use sqlite_items::Boxed;
use std::alloc::Global;

/// What was read, and the place behind the token of that terminal which ends it; Syntax where another stands there.
#[tactic(auto, unfolding(crate::specs::OneToken::read_exactly))]
pub fn ended<T: Drop>(
    tokens: &TokenStream<'_>,
    read: T,
    at: usize,
    terminal: Terminal,
) -> Result<(T, usize), Refusal>
    requires { 0 < alphabet.code terminal }
    ensures { Ends (read_exactly tokens.now (alphabet.code terminal) at) (stream tokens.now at) read result }
{
    let at = exactly(tokens, at, terminal)?;
    Ok((read, at))
}

/// What was read of a statement, and the place behind its semicolon; Syntax where another token stands there.
#[tactic(auto, unfolding(crate::specs::OneToken::read_exactly))]
pub fn with_semicolon<T: Drop>(
    tokens: &TokenStream<'_>,
    statement: T,
    at: usize,
) -> Result<(T, usize), Refusal>
    ensures { Ends (read_exactly tokens.now (alphabet.code w.Semicolon) at) (stream tokens.now at) statement result }
{
    if !next_is(tokens, at, Terminal::Semicolon) {
        return Err(Refusal::Syntax(at));
    }
    Ok((statement, behind(tokens, at)))
}

/// What was read first, together with what was read behind it, or why that wasn't read.
pub fn paired<A: Drop, B: Drop>(
    first: A,
    second: Result<(B, usize), Refusal>,
) -> Result<((A, B), usize), Refusal>
    ensures { Adds first second result }
{
    let (second, at) = second?;
    Ok(((first, second), at))
}

/// What was read, in a box.
pub fn boxed<T: Drop>(
    alloc: Global,
    read: Result<(T, usize), Refusal>,
) -> Result<(Boxed<T>, usize), Refusal>
    ensures { Says read result }
{
    let (read, at) = read?;
    Ok((Boxed::new(alloc, read)?, at))
}
