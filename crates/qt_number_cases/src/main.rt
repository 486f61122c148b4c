//! Cases of the exact numbers, of plain states and of programs of the first form, as a program.
//!
//! It reads rows from the standard input, one a line, and prints the answer to each as one line. A row is a call: a word, and what
//! stands behind it, as in `omega mul 1 2 3 4 5 6 7 8`, `weight scaled one -5 3 0`, `plain 2 h 0; cx 0 1; one 0` and `sure c:2 = 3`.
//! In the text of a program `\n`, `\r`, `\0` and `\\` are the characters that they are in Rust. A line that is no row is answered
//! with `no row`.
//!
//! `number_cases.py` writes the rows and, by its own arithmetic, the answers that are wanted.
#![tactic(auto)]

mod masses;
mod omegas;
mod phases;
mod programs;
mod reports;
mod states;
mod weights;

use qt_rows::answer::Answer;
use qt_rows::cases::{Cases, answer_lines};
use qt_rows::row::Row;
use std::alloc::Global;
use std::io;
use std::process::ExitCode;

/// What answers the rows.
#[derive(Drop)]
struct NumberCases;

/// The answer of a call on a program or a report.
fn answer_report(alloc: Global, call: &str, row: &mut Row<'_>, answer: &mut Answer) {
    match call {
        "fraction" => reports::answer_fraction(alloc, row, answer),
        "sure" => reports::answer_sure(alloc, row, answer),
        "either" => reports::answer_either(alloc, row, answer),
        "read" => programs::answer_read(alloc, row.rest, answer),
        "run" => programs::answer_run(alloc, row.rest, answer),
        "report" => programs::answer_report(alloc, row.rest, answer),
        _ => row.refuse(),
    }
}

impl Cases for NumberCases {
    fn answer(&mut self, alloc: Global, row: &mut Row<'_>, answer: &mut Answer) {
        match row.word() {
            "phase" => phases::answer_phase(row, answer),
            "omega" => omegas::answer_omega(row, answer),
            "weight" => weights::answer_weight(row, answer),
            "mass" => masses::answer_mass(row, answer),
            "plain" => states::answer_plain(alloc, row, answer),
            call => answer_report(alloc, call, row, answer),
        }
    }
}

fn main(rt: HostRuntime) -> io::Result<ExitCode> {
    answer_lines(rt.alloc(), &mut NumberCases, rt.reader(), io::writer(&rt))
}
