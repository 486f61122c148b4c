//! Cases of the syntax as a program.
//!
//! It reads rows from the standard input, one a line, and prints the answer to each as one line. A row is a call, and behind `: ` the
//! text that it is made on, as in `parse: h q;` and `expr 0 64: (1)`. In a text `\` and two hexadecimal digits are that byte, and
//! `¦COUNT¦PART¦` is a part so many times. Trees are written in brackets, as in `qt_tree_text`. A line that is no row is answered
//! with `no row`.
//!
//! `trees.py` writes the rows and, from the tables of the cases and by a reader of its own, the answers that are wanted.
#![tactic(auto)]

mod changes;
mod forms;
mod reading;
mod refusals;
mod texts;

use qt_lex::lexer::lex;
use qt_lex::tokens::{LexRefusal, Token};
use qt_rows::answer::Answer;
use qt_rows::cases::{Cases, answer_lines};
use qt_rows::row::Row;
use qt_tree_text::tree::write_placed;
use std::alloc::Global;
use std::io;
use std::process::ExitCode;

/// The longest text of a row.
const LONGEST: usize = 2_000_000;

/// What answers the rows.
#[derive(Drop)]
struct SyntaxCases;

/// The answer to a call on the tokens of a text.
fn answer_tokens(
    alloc: Global,
    call: &str,
    row: &mut Row<'_>,
    text: &str,
    tokens: &[Token],
    answer: &mut Answer,
) {
    match call {
        "parse" => reading::answer_parse(alloc, text, tokens, answer),
        "outcome" => reading::answer_outcome(alloc, text, tokens, answer),
        "expr" => forms::answer_expr(alloc, row, text, tokens, answer),
        "form" => forms::answer_form(alloc, row, text, tokens, answer),
        "beginnings" => forms::answer_beginnings(alloc, text, tokens, answer),
        "ended" => changes::answer_ended(alloc, text, tokens, answer),
        "changed" => changes::answer_changed(alloc, row, text, tokens, answer),
        _ => row.refuse(),
    }
}

/// The answer to a call on a text.
fn answer_text(alloc: Global, call: &str, row: &mut Row<'_>, text: &[u8], answer: &mut Answer) {
    let Ok(text) = str::from_utf8(text) else {
        return answer.push_str("no characters");
    };
    if text.len() > LONGEST {
        return answer.push_str("too long");
    }
    match lex(alloc, text, 0) {
        Ok(tokens) => answer_tokens(alloc, call, row, text, &tokens, answer),
        Err(LexRefusal::Token(place)) => write_placed(" Token", place, answer),
        Err(LexRefusal::OutOfMemory) => answer.lose(),
    }
}

/// The answer to a call on the bytes of a text.
fn answer_call(alloc: Global, row: &mut Row<'_>, text: &[u8], answer: &mut Answer) {
    match row.word() {
        "read" => reading::answer_read(alloc, row, text, answer),
        "refusal" => refusals::answer_refusal(alloc, row, answer),
        call => answer_text(alloc, call, row, text, answer),
    }
}

impl Cases for SyntaxCases {
    fn answer(&mut self, alloc: Global, row: &mut Row<'_>, answer: &mut Answer) {
        let (call, written) = row.rest.split_once(": ").unwrap_or((row.rest, ""));
        let text = texts::bytes_of(alloc, written, answer);
        let mut call = Row::new(call);
        answer_call(alloc, &mut call, &text, answer);
        row.refused |= call.refused;
    }
}

fn main(rt: HostRuntime) -> io::Result<ExitCode> {
    answer_lines(rt.alloc(), &mut SyntaxCases, rt.reader(), io::writer(&rt))
}
