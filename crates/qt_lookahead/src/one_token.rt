//! Single tokens.

ghost use Rattle.std.specs.Prelude.{◌≡◌, ◌+◌, ◌<◌, [], ◌∷◌};
ghost use Rattle.qt_terminals.specs.Alphabet as alphabet;
ghost use Rattle.qt_terminals.specs.Terminals.{stream};
ghost use Rattle.qt_grammar.specs.Form.{member, terminal_at};
ghost use Rattle.qt_lookahead.specs.OneToken.{Steps, read_exactly};

use qt_grammar::refusal::Refusal;
use qt_terminals::stream::TokenStream;
use qt_terminals::terminal::Terminal;

/// Whether a token of that terminal stands there.
pub fn next_is(tokens: &TokenStream<'_>, at: usize, terminal: Terminal) -> bool
    ensures { result ≡ member (terminal_at (stream tokens.now) at) (alphabet.code terminal ∷ []) }
{
    tokens.terminal(at).is(terminal)
}

/// The place behind a token, which isn't the end of the text.
pub fn behind(tokens: &TokenStream<'_>, at: usize) -> usize
    requires { 0 < terminal_at (stream tokens.now) at }
    ensures { result ≡ at + 1 }
{
    let _terminal = tokens.terminal(at);
    at + 1
}

/// The place behind a token of that terminal; Syntax where another stands there.
#[tactic(auto, unfolding(crate::specs::OneToken::read_exactly))]
pub fn exactly(tokens: &TokenStream<'_>, at: usize, terminal: Terminal) -> Result<usize, Refusal>
    requires { 0 < alphabet.code terminal }
    ensures { Steps (read_exactly tokens.now (alphabet.code terminal) at) (stream tokens.now at) result }
{
    if tokens.terminal(at).is(terminal) {
        Ok(at + 1)
    } else {
        Err(Refusal::Syntax(at))
    }
}
