//! Cases of flat code as a program.
//!
//! It reads rows from the standard input, one a line, and prints the answer to each as one line. A row
//! `code QUBITS SLOTS CELLS / START .. / INSTRUCTION; INSTRUCTION; .. / FIELD; FIELD; ..` gives the parts of code: how many qubits, slots
//! and work cells it has, the values of the slots at the beginning, the instructions, and the variables that are told at the end.
//! Instruction n has the place of line n + 1. The answer is `ok` with what the code has, or `back` with how many instructions the parts
//! have that are handed back. In place of `code`, `cut` leaves the last place out. A line that is no such row is answered with `no row`.
//!
//! An instruction is its name and its fields, as `src/written.rt` reads them; a list of references ends with `,`.
//! `code_cases.py` writes the rows and the answers that are wanted.
#![tactic(auto)]

mod gates;
mod told;
mod values;
mod written;

use crate::told::{tell_back, tell_code};
use crate::written::parts_in;
use qt_code::code::Code;
use qt_rows::answer::Answer;
use qt_rows::cases::{Cases, answer_lines};
use qt_rows::row::Row;
use std::alloc::Global;
use std::io;
use std::process::ExitCode;

/// What answers the rows.
#[derive(Drop)]
struct CodeCases;

fn answer_code(alloc: Global, cut: usize, row: &mut Row<'_>, answer: &mut Answer) {
    match Code::build(parts_in(alloc, cut, row, answer)) {
        Ok(code) => tell_code(&code, answer),
        Err(parts) => tell_back(&parts, answer),
    }
}

impl Cases for CodeCases {
    fn answer(&mut self, alloc: Global, row: &mut Row<'_>, answer: &mut Answer) {
        match row.part(' ') {
            "code" => answer_code(alloc, 0, row, answer),
            "cut" => answer_code(alloc, 1, row, answer),
            _ => row.refuse(),
        }
    }
}

fn main(rt: HostRuntime) -> io::Result<ExitCode> {
    answer_lines(rt.alloc(), &mut CodeCases, rt.reader(), io::writer(&rt))
}
