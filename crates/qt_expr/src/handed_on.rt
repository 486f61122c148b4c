//! What was read, handed on as it was answered.
//!
//! The functions are generic in what was read, like those of `qt_lookahead::pieces`, and take it as it was answered: a function that
//! takes a tree out of its answer needs to prove what there is to drop, variant by variant, where what follows is refused.

ghost use Rattle.std.specs.Prelude.{◌≡◌, ◌<◌};
ghost use Rattle.qt_terminals.specs.Alphabet as alphabet;
ghost use Rattle.qt_expr.specs.HandedOn.{as_some, then_token};

use qt_grammar::refusal::Refusal;
use qt_lookahead::pieces::ended;
use qt_terminals::stream::TokenStream;
use qt_terminals::terminal::Terminal;

/// What was read, and the place behind the token of that terminal which ends it; Syntax where another token stands there, or why
/// it wasn't read.
pub fn closed<T: Drop>(
    tokens: &TokenStream<'_>,
    read: Result<(T, usize), Refusal>,
    terminal: Terminal,
) -> Result<(T, usize), Refusal>
    requires { 0 < alphabet.code terminal }
    ensures { result ≡ then_token tokens.now (alphabet.code terminal) read }
{
    let (read, at) = read?;
    ended(tokens, read, at, terminal)
}

/// What was read where it may be left out, or why it wasn't read.
pub fn present<T: Drop>(read: Result<(T, usize), Refusal>) -> Result<(Option<T>, usize), Refusal>
    ensures { result ≡ as_some read }
{
    let (read, at) = read?;
    Ok((Some(read), at))
}
