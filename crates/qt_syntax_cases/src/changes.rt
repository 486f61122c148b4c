//! Rows of texts in whose tokens one is changed, each in turn.

use crate::LONGEST;
use crate::reading::answer_outcome;
use qt_lex::lexer::lex;
use qt_lex::tokens::{Kind, Token};
use qt_rows::answer::Answer;
use qt_rows::row::Row;
use std::alloc::Global;

/// The outcome of the first tokens of a text, with the end of the text at the place of the last of them, and a `;`.
fn write_ended(alloc: Global, text: &str, tokens: &[Token], answer: &mut Answer) {
    if let Some(mut tokens) = answer.given(Vec::from_slice(alloc, tokens)) {
        if let Some(last) = tokens.last_mut() {
            last.kind = Kind::End;
        }
        answer_outcome(alloc, text, &tokens, answer);
    }
    answer.push_str(";");
}

/// `ended: TEXT`: the outcome of the first tokens alone, for each number of them.
pub fn answer_ended(alloc: Global, text: &str, tokens: &[Token], answer: &mut Answer) {
    for count in 0..tokens.len() {
        write_ended(alloc, text, &tokens[..=count], answer);
    }
}

/// The outcome of the tokens of a text with another in place of one of them, and a `;`.
fn write_changed(
    alloc: Global,
    text: &str,
    tokens: &[Token],
    at: usize,
    other: Token,
    answer: &mut Answer,
) {
    if let Some(mut tokens) = answer.given(Vec::from_slice(alloc, tokens)) {
        if let Some(token) = tokens.get_mut(at) {
            token.kind = other.kind;
            token.start = other.start;
            token.end = other.end;
        }
        answer_outcome(alloc, text, &tokens, answer);
    }
    answer.push_str(";");
}

/// The last token of a text before its end.
fn last_of(alloc: Global, text: &str) -> Option<Token> {
    if text.len() > LONGEST {
        return None;
    }
    let tokens = lex(alloc, text, 0).ok()?;
    tokens.get(tokens.len().checked_sub(2)?).copied()
}

/// `changed SPELLING: TEXT`: the outcome of the text with each of its tokens in turn replaced by the one of that spelling.
pub fn answer_changed(
    alloc: Global,
    row: &mut Row<'_>,
    text: &str,
    tokens: &[Token],
    answer: &mut Answer,
) {
    let spelling = row.word();
    // The other token stands on a line of its own behind the text, so that it has a spelling.
    let Some(text) = answer.given(format!(in alloc; "{text}\n{spelling}")) else {
        return;
    };
    let Some(other) = last_of(alloc, &text) else {
        return row.refuse();
    };
    for at in 0..tokens.len() {
        write_changed(alloc, &text, tokens, at, other, answer);
    }
}
