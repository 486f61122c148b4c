//! Rows of whole texts: their programs, or why they have none.

use crate::refusals::write_line;
use qt_lex::tokens::Token;
use qt_lookahead::refusal::ParseRefusal;
use qt_parse::parser::parse;
use qt_read::read::read;
use qt_rows::answer::Answer;
use qt_rows::row::Row;
use qt_tree_text::programs::write_program;
use qt_tree_text::tree::{write_place, write_placed};
use std::alloc::Global;

/// A refusal with its place.
pub fn write_refusal(refusal: ParseRefusal, answer: &mut Answer) {
    match refusal {
        ParseRefusal::Syntax(place) => write_placed(" Syntax", place, answer),
        ParseRefusal::Nest(place) => write_placed(" Nest", place, answer),
        ParseRefusal::NotInProfile(place, feature) => {
            write!(answer, " NotInProfile {feature:?}");
            write_place(place, answer);
        }
        ParseRefusal::OutOfMemory => answer.lose(),
    }
}

/// `parse: TEXT`: the tree of a program, or the refusal.
pub fn answer_parse(alloc: Global, text: &str, tokens: &[Token], answer: &mut Answer) {
    match parse(alloc, text, tokens) {
        Ok(program) => write_program(program, answer),
        Err(refusal) => write_refusal(refusal, answer),
    }
}

/// `outcome: TEXT`: whether tokens are those of a program, or the refusal.
pub fn answer_outcome(alloc: Global, text: &str, tokens: &[Token], answer: &mut Answer) {
    match parse(alloc, text, tokens) {
        Ok(program) => {
            program.discard();
            answer.push_str(" program");
        }
        Err(refusal) => write_refusal(refusal, answer),
    }
}

/// `read FILE: TEXT`: the tree of the program of the text with that number, or the line of its refusal.
pub fn answer_read(alloc: Global, row: &mut Row<'_>, text: &[u8], answer: &mut Answer) {
    match read(alloc, "p.qasm", row.u16(), text) {
        Ok(program) => write_program(program, answer),
        Err(refusal) => write_line(alloc, &refusal, answer),
    }
}
