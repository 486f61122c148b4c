//! Cases of the check of programs as a program.
//!
//! It reads rows from the standard input, one a line, and prints the answer to each as one line. A row is `check`, settings of inputs as
//! `n=3`, and right behind `:` the text of a program, in which `\n`, `\r`, `\t`, `\0` and `\\` are the characters that they are in Rust. The
//! answer is `ok qubits Q slots S size Z`, or the line of the refusal, in which the text is called `p`. A text that includes another one than the
//! standard gates is answered with `includes`, and a line that is no row with `no row`.
//!
//! `program_cases.py` has the programs and writes the rows; its answers were found without this program.
#![tactic(auto)]

mod programs;
mod settings;

use qt_rows::answer::Answer;
use qt_rows::cases::{Cases, answer_lines};
use qt_rows::row::Row;
use qt_rows::text::unescaped;
use std::alloc::Global;
use std::io;
use std::process::ExitCode;

/// What answers the rows.
#[derive(Drop)]
struct ProgramCases;

impl Cases for ProgramCases {
    fn answer(&mut self, alloc: Global, row: &mut Row<'_>, answer: &mut Answer) {
        let head = row.part(':');
        let Some(text) = answer.given(unescaped(alloc, row.rest)) else {
            return;
        };
        let mut words = Row::new(head);
        match words.word() {
            "check" => {
                if let Some(settings) = settings::settings_in(alloc, &mut words, answer) {
                    programs::answer_check(alloc, settings.as_slice(), text.as_str(), answer);
                }
            }
            _ => row.refuse(),
        }
    }
}

fn main(rt: HostRuntime) -> io::Result<ExitCode> {
    answer_lines(rt.alloc(), &mut ProgramCases, rt.reader(), io::writer(&rt))
}
