//! Cases of texts as a program: the fakes of the outside, labels, places and refusals, tokens and terminals.
//!
//! It reads rows from the standard input, one a line, and prints the answer to each as one line. A row is a call: a word, and what
//! stands behind it, as in `lex a<<=1`, `terminals pi` and `sink 2 3`. In a text `\n`, `\r`, `\0` and `\\` are the characters that
//! they are in Rust. A line that is no row is answered with `no row`, and a text that is too long with `too long`.
//!
//! `text_cases.py` writes the rows, and from its own tables the answers that are wanted.
#![tactic(auto)]

mod labels;
mod outside;
mod tokens;

use qt_rows::answer::Answer;
use qt_rows::cases::{Cases, answer_lines};
use qt_rows::row::Row;
use std::alloc::Global;
use std::io;
use std::process::ExitCode;

/// What answers the rows.
#[derive(Drop)]
struct TextCases;

/// The answer of a call on shelves and sinks, or on labels.
fn answer_values(alloc: Global, call: &str, row: &mut Row<'_>, answer: &mut Answer) {
    match call {
        "fault" => outside::fault(row, answer),
        "shelf" => outside::shelf(alloc, row, answer),
        "sure_shelf" => outside::sure_shelf(alloc, row.rest, answer),
        "sink" => outside::sink(alloc, row, answer),
        "sure_sink" => outside::sure_sink(alloc, answer),
        _ => labels::answer_labels(alloc, call, row, answer),
    }
}

impl Cases for TextCases {
    fn answer(&mut self, alloc: Global, row: &mut Row<'_>, answer: &mut Answer) {
        match row.word() {
            "lex" => tokens::lexed(alloc, row.rest, answer),
            "first_fault" => tokens::fault(alloc, row.rest, answer),
            "terminals" => tokens::terminals(alloc, row.rest, answer),
            "replaced" => tokens::replaced(alloc, row.rest, answer),
            call => answer_values(alloc, call, row, answer),
        }
    }
}

fn main(rt: HostRuntime) -> io::Result<ExitCode> {
    answer_lines(rt.alloc(), &mut TextCases, rt.reader(), io::writer(&rt))
}
