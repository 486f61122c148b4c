//! Texts with comments between their tokens.

use qt_lex::lexer::lex;
use qt_lex::tokens::Token;
use qt_rows::answer::Answer;
use std::alloc::Global;

/// What stands in every gap of a wide text.
const GAP: &str = " /* a \n * b **/\t// c \u{3c0}\r\n  ";

/// The longest text that is made wide.
const LONGEST: usize = 4096;

/// The tokens of a text, if there are any and the text isn't long.
fn tokens_of(alloc: Global, text: &str) -> Option<Vec<Token>> {
    if text.len() > LONGEST {
        return None;
    }
    lex(alloc, text, 0).ok()
}

/// Appends a text.
fn push(bytes: &mut Vec<u8>, text: &[u8], answer: &mut Answer) {
    answer.require(bytes.extend_from_slice(text));
}

fn push_tokens(bytes: &mut Vec<u8>, text: &str, tokens: &[Token], answer: &mut Answer) {
    push(bytes, GAP.as_bytes(), answer);
    for token in tokens {
        if let Some(spelling) = text.as_bytes().get(token.start..token.end) {
            push(bytes, spelling, answer);
            push(bytes, GAP.as_bytes(), answer);
        }
    }
}

/// The tokens of a text, with comments in every gap; the text itself where it has no tokens or is long.
pub fn wide(alloc: Global, text: &str, answer: &mut Answer) -> Vec<u8> {
    let mut bytes = Vec::new(alloc);
    match tokens_of(alloc, text) {
        Some(tokens) => push_tokens(&mut bytes, text, tokens.as_slice(), answer),
        None => push(&mut bytes, text.as_bytes(), answer),
    }
    bytes
}
