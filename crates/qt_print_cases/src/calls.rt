//! The calls of rows. Each writes its answer behind what stands there.

use qt_lex::lexer::lex;
use qt_lex::tokens::Token;
use qt_parse::parser::parse;
use qt_print::print;
use qt_round_trip::read_back::read_back;
use qt_rows::answer::Answer;
use qt_tree::program::Program;
use std::alloc::Global;
use std::fmt::Debug;

/// The most bytes that the lexer takes.
const MOST_BYTES: usize = 2147483648;

/// What stands in every gap of a sprawling text.
const GAP: &str = " /* a \n * b **/\t// c \u{3c0}\r\n  ";

fn write_debug<T: Debug>(value: &T, answer: &mut Answer) {
    write!(answer, "{value:?}");
}

/// What was read. Where nothing was, the answer is the refusal.
fn found<T, E: Debug + Drop>(read: Result<T, E>, answer: &mut Answer) -> Option<T> {
    match read {
        Ok(read) => Some(read),
        Err(refusal) => {
            write_debug(&refusal, answer);
            None
        }
    }
}

/// The tokens of a text. Where it has none, the answer says why.
fn tokens_of(alloc: Global, text: &str, answer: &mut Answer) -> Option<Vec<Token>> {
    if text.len() > MOST_BYTES {
        answer.push_str("too long");
        return None;
    }
    found(lex(alloc, text, 0), answer)
}

/// The program of a text. Where it has none, the answer says why.
fn program_of(alloc: Global, text: &str, answer: &mut Answer) -> Option<Program> {
    match tokens_of(alloc, text, answer) {
        Some(tokens) => found(parse(alloc, text, tokens.as_slice()), answer),
        None => None,
    }
}

/// Writes a text with escapes, so that it is on one line.
fn write_escaped(text: &str, answer: &mut Answer) {
    for letter in text.chars() {
        match letter {
            '\n' => answer.push_str("\\n"),
            '\r' => answer.push_str("\\r"),
            '\\' => answer.push_str("\\\\"),
            _ => write!(answer, "{letter}"),
        }
    }
}

fn write_canonical(alloc: Global, program: &Program, answer: &mut Answer) {
    if let Some(printed) = answer.given(print(alloc, program)) {
        write_escaped(printed.as_str(), answer);
    }
}

/// `format TEXT`: the canonical text of the program of the text.
pub fn format(alloc: Global, text: &str, answer: &mut Answer) {
    if let Some(program) = program_of(alloc, text, answer) {
        write_canonical(alloc, &program, answer);
        program.discard();
    }
}

/// The bytes of a text with comments before and behind each token.
fn sprawling(alloc: Global, text: &str, tokens: &[Token], answer: &mut Answer) -> Vec<u8> {
    let mut wide = Vec::new(alloc);
    answer.require(wide.extend_from_slice(GAP.as_bytes()));
    for token in tokens {
        if let Some(spelling) = text.as_bytes().get(token.start..token.end) {
            answer.require(wide.extend_from_slice(spelling));
        }
        answer.require(wide.extend_from_slice(GAP.as_bytes()));
    }
    wide
}

fn format_bytes(alloc: Global, text: &[u8], answer: &mut Answer) {
    match str::from_utf8(text) {
        Ok(text) => format(alloc, text, answer),
        Err(_) => answer.push_str("no text"),
    }
}

/// `sprawl TEXT`: the canonical text of the program of the text with comments in every gap.
pub fn sprawl(alloc: Global, text: &str, answer: &mut Answer) {
    if let Some(tokens) = tokens_of(alloc, text, answer) {
        let wide = sprawling(alloc, text, tokens.as_slice(), answer);
        format_bytes(alloc, wide.as_slice(), answer);
    }
}

/// Writes whether a text is the canonical one of a program.
fn write_same(alloc: Global, printed: &str, program: &Program, answer: &mut Answer) {
    if let Some(again) = answer.given(print(alloc, program)) {
        answer.push_str(if again.as_str() == printed {
            "same"
        } else {
            "differs"
        });
    }
}

/// Writes whether the program that is read back has the text that was printed.
fn write_again(alloc: Global, program: &Program, printed: &str, answer: &mut Answer) {
    if let Some(again) = found(read_back(alloc, program, 1), answer) {
        write_same(alloc, printed, &again, answer);
        again.discard();
    }
}

/// `again TEXT`: the program of the text printed and read back: `same` where it has the same canonical text as before.
pub fn again(alloc: Global, text: &str, answer: &mut Answer) {
    if let Some(program) = program_of(alloc, text, answer) {
        if let Some(printed) = answer.given(print(alloc, &program)) {
            write_again(alloc, &program, printed.as_str(), answer);
        }
        program.discard();
    }
}
