//! Cases of the printer and of the round trip as a program.
//!
//! It reads rows from the standard input, one a line, and prints the answer to each as one line. A row is a call and a text, in
//! which `\n`, `\r`, `\t`, `\0` and `\\` are the characters that they are in Rust. `format TEXT` is answered with the canonical text
//! of the program of the text, `sprawl TEXT` with that of the text with comments in every gap, and `again TEXT` with `same` where the
//! program that is printed and read back has the same canonical text. A text that is no program is answered with its refusal, and a
//! line that is no row with `no row`.
//!
//! `format_rows.py` has the table of texts and writes the rows and the answers that are wanted.
#![tactic(auto)]

mod calls;

use qt_rows::answer::Answer;
use qt_rows::cases::{Cases, answer_lines};
use qt_rows::row::Row;
use qt_rows::text::unescaped;
use std::alloc::Global;
use std::io;
use std::process::ExitCode;

/// What answers the rows.
#[derive(Drop)]
struct PrintCases;

impl Cases for PrintCases {
    fn answer(&mut self, alloc: Global, row: &mut Row<'_>, answer: &mut Answer) {
        let call = row.word();
        let Some(text) = answer.given(unescaped(alloc, row.rest)) else {
            return;
        };
        match call {
            "format" => calls::format(alloc, text.as_str(), answer),
            "sprawl" => calls::sprawl(alloc, text.as_str(), answer),
            "again" => calls::again(alloc, text.as_str(), answer),
            _ => row.refuse(),
        }
    }
}

fn main(rt: HostRuntime) -> io::Result<ExitCode> {
    answer_lines(rt.alloc(), &mut PrintCases, rt.reader(), io::writer(&rt))
}
