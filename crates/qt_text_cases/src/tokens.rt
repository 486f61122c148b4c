//! Rows of tokens and their terminals.

ghost use Rattle.std.specs.Prelude.{◌≤◌, ◌^◌, IfSome, length, string_bytes};

use qt_lex::fault::first_fault;
use qt_lex::lexer::lex;
use qt_lex::tokens::Token;
use qt_rows::answer::Answer;
use qt_rows::text::unescaped;
use qt_terminals::stream::TokenStream;
use qt_terminals::terminal::Terminal;
use std::alloc::Global;

const LONGEST: usize = 65536;

/// The text that a row writes. Where it is too long, the answer says so.
fn text_in(alloc: Global, written: &str, answer: &mut Answer) -> Option<String>
    ensures { IfSome result (λ text. length (string_bytes text) ≤ 2 ^ 31) }
{
    let text = answer.given(unescaped(alloc, written))?;
    if text.len() > LONGEST {
        answer.push_str("too long");
        return None;
    }
    Some(text)
}

/// The tokens of a text. Where there are none, the answer is the refusal.
fn tokens_in(alloc: Global, text: &str, file: u16, answer: &mut Answer) -> Option<Vec<Token>>
    requires { length text.now ≤ 2 ^ 31 }
{
    match lex(alloc, text, file) {
        Ok(tokens) => Some(tokens),
        Err(refusal) => {
            write!(answer, "{refusal:?}");
            None
        }
    }
}

/// The kind of a token, its spelling, where it begins and ends, and its place.
fn token_told(text: &str, token: &Token, answer: &mut Answer) {
    let kind = token.kind;
    let (start, end) = (token.start, token.end);
    let place = token.place;
    let (file, line, column) = (place.file, place.line, place.column);
    let spelling = text.get(start..end).unwrap_or("no slice");
    write!(
        answer,
        "{kind:?} {spelling} {start} {end} {file}:{line}:{column};"
    );
}

fn tokens_told(text: &str, tokens: &[Token], answer: &mut Answer) {
    for token in tokens {
        token_told(text, token, answer);
    }
}

/// `lex TEXT`: the tokens of a text, or the refusal.
pub fn lexed(alloc: Global, written: &str, answer: &mut Answer) {
    if let Some(text) = text_in(alloc, written, answer) {
        if let Some(tokens) = tokens_in(alloc, &text, 7, answer) {
            tokens_told(&text, &tokens, answer);
        }
    }
}

/// `first_fault TEXT`: the place of the first character that is to blame, if there is one.
pub fn fault(alloc: Global, written: &str, answer: &mut Answer) {
    if let Some(text) = text_in(alloc, written, answer) {
        let fault = first_fault(&text, 3);
        write!(answer, "{fault:?}");
    }
}

/// What its terminal says of a token: its number, its bits, or what stands between its quotes, which is nothing for a semicolon.
fn literal_told(stream: &TokenStream<'_>, at: usize, answer: &mut Answer) {
    match stream.terminal(at) {
        Terminal::Integer => {
            let number = stream.integer(at);
            write!(answer, " = {number}");
        }
        Terminal::BitText => {
            let (bits, count) = (stream.bits(at), stream.bit_count(at));
            write!(answer, " = {bits} of {count}");
        }
        Terminal::Text | Terminal::Semicolon => {
            let inside = stream.inside_quotes(at);
            write!(answer, " = {inside}");
        }
        _ => {}
    }
}

/// What a terminal says of itself: its name, its number, whether it is itself and not the end, whether it is an operator, and its
/// feature.
fn terminal_told(terminal: Terminal, answer: &mut Answer) {
    let code = terminal.code();
    write!(answer, "{terminal:?} {code}");
    if terminal.is(terminal) && !terminal.is(Terminal::End) {
        answer.push_str(" itself");
    }
    if terminal.is_operator() {
        answer.push_str(" operator");
    }
    if let Some(feature) = terminal.feature() {
        write!(answer, " {feature:?}");
    }
}

/// The terminal of a token, its spelling, its place, the operators before it, and what its terminal says of it.
fn place_told(stream: &TokenStream<'_>, at: usize, answer: &mut Answer) {
    terminal_told(stream.terminal(at), answer);
    let spelling = stream.spelling(at);
    let (place, operators) = (stream.place(at), stream.operators(at));
    let (line, column) = (place.line, place.column);
    write!(answer, " {spelling} {line}:{column} {operators}");
    literal_told(stream, at, answer);
    answer.push_str(";");
}

/// All tokens, and what stands behind the last.
fn stream_told(stream: &TokenStream<'_>, answer: &mut Answer) {
    let count = stream.len();
    write!(answer, "{count};");
    for at in 0..count {
        place_told(stream, at, answer);
    }
    place_told(stream, count, answer);
}

fn terminals_told(alloc: Global, text: &str, tokens: &[Token], answer: &mut Answer) {
    match TokenStream::new(alloc, text, tokens) {
        Ok(stream) => stream_told(&stream, answer),
        Err(_) => answer.lose(),
    }
}

/// `terminals TEXT`: the terminals of a text.
pub fn terminals(alloc: Global, written: &str, answer: &mut Answer) {
    if let Some(text) = text_in(alloc, written, answer) {
        if let Some(tokens) = tokens_in(alloc, &text, 0, answer) {
            terminals_told(alloc, &text, &tokens, answer);
        }
    }
}

fn replaced_told(alloc: Global, text: &str, tokens: &[Token], answer: &mut Answer) {
    match TokenStream::new(alloc, text, tokens) {
        Ok(mut stream) => {
            stream.replaced(0, Terminal::Barrier);
            stream.replaced(stream.len(), Terminal::Barrier);
            stream_told(&stream, answer);
        }
        Err(_) => answer.lose(),
    }
}

/// `replaced TEXT`: the terminals of a text whose first one, and one behind the last, are replaced by `barrier`.
pub fn replaced(alloc: Global, written: &str, answer: &mut Answer) {
    if let Some(text) = text_in(alloc, written, answer) {
        if let Some(tokens) = tokens_in(alloc, &text, 0, answer) {
            replaced_told(alloc, &text, &tokens, answer);
        }
    }
}
