//! The first character of a text that is to blame, without its tokens.

ghost use Rattle.std.specs.Prelude.{◌≡◌, ◌<◌, ◌≤◌, ◌^◌, ◌↔◌, ℕ, List, length, Some, IsNone, IfSome, IfNone};
ghost use Rattle.qt_tree.specs.declared.place.Place.{Place};
ghost use Rattle.qt_lex.specs.declared.tokens.Token.{Token};
ghost use Rattle.qt_lex.specs.Bytes.{byte};
ghost use Rattle.qt_lex.specs.Tokens.{GivesTokens, FailsAt};
ghost use Rattle.qt_lex.specs.Answers.{GoesOnAt, IsToBlame};

use crate::lexer::{Gap, gap_at, place_after, token_at};
use qt_tree::place::Place;

/// The end of the blank, comment or token that begins at a place, if one does.
fn step_end(text: &[u8], at: usize) -> Option<usize>
    requires { at < length text.now }
    ensures some { IfSome result (λ end. GoesOnAt text.now at end) }
    ensures inside { IfSome result (λ end. (at < end) × (end ≤ length text.now)) }
    ensures none { IfNone result (IsToBlame (byte text.now) at) }
{
    match gap_at(text, at) {
        Gap::Open => None,
        Gap::Ends(end) => Some(end),
        Gap::Solid => match token_at(text, at) {
            Some((_, end)) => Some(end),
            None => None,
        },
    }
}

/// The place of the first character of the text's bytes that is to blame.
fn fault_in(text: &[u8], file: u16) -> Option<Place>
    requires { length text.now ≤ 2 ^ 31 }
    ensures none { IfNone result ((tokens : List Token) × GivesTokens text.now file tokens) }
    ensures some { IfSome result (λ place. FailsAt text.now file place) }
{
    let mut at = 0;
    let mut place = Place {
        file,
        line: 1,
        column: 1,
    };
    'text: while at < text.len() {
        let Some(end) = step_end(text, at) else {
            return Some(place);
        };
        place = place_after(text, place, at, end);
        at = end;
    }
    None
}

/// The place of the first character where no token begins, or of the first comment or text in quotes that isn't closed;
/// none where the text gives tokens. It needs no memory, so it answers for every text of at most 2^31 bytes. `file` is the number of the text.
pub fn first_fault(text: &str, file: u16) -> Option<Place>
    requires { length text.now ≤ 2 ^ 31 }
    ensures none { IsNone result ↔ (tokens : List Token) × GivesTokens text.now file tokens }
    ensures some { (place : Place) → (result ≡ Some place) ↔ FailsAt text.now file place }
{
    fault_in(text.as_bytes(), file)
}
