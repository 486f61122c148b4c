//! Cases of state vectors as a program: gates on them, measurements, canonical forms and branches.
//!
//! It reads rows from the standard input, one a line, and prints the answer to each as one line. A row is a call: a word, and what
//! stands behind it. Amplitudes are written as four coefficients, with a comma between two amplitudes.
//!
//! - `state QUBITS LIST; STEP; STEP`: the state of the amplitudes, or of all qubits in 0 for the list `zeros`, after the steps. A step
//!   is `turn ONES ZEROS TARGET THETA PHI LAMBDA`, `phase ONES ZEROS ANGLE`, `zero QUBIT`, `one QUBIT` or `flip QUBIT`, of which `zero`
//!   and `one` keep what that outcome leaves. The first step that can't be done ends them.
//! - `split QUBITS LIST; QUBIT`, `norm LIST`, `canon LIST`: what the call answers.
//! - `branch AT; SLOTS; QUBITS LIST`: what a branch has; `same BRANCH | BRANCH`: whether two are equal, and whether they hash alike.
//!
//! A row that breaks a condition of its call is answered with `refused`, and a line that is no call with `no row`.
//!
//! `state_cases.py` writes the rows and, by its own arithmetic, the answers that are wanted.
#![tactic(auto)]

mod amplitudes;
mod branches;
mod forms;
mod measures;
mod states;
mod text;

use qt_rows::answer::Answer;
use qt_rows::cases::{Cases, answer_lines};
use qt_rows::row::Row;
use std::alloc::Global;
use std::io;
use std::process::ExitCode;

/// What answers the rows.
#[derive(Drop)]
struct StateCases;

impl Cases for StateCases {
    fn answer(&mut self, alloc: Global, row: &mut Row<'_>, answer: &mut Answer) {
        let Some((call, rest)) = row.rest.split_once(' ') else {
            return row.refuse();
        };
        let mut given = Row::new(rest);
        match call {
            "state" => states::answer_state(alloc, &mut given, answer),
            "split" => measures::answer_split(alloc, &mut given, answer),
            "norm" => measures::answer_norm(alloc, &mut given, answer),
            "canon" => forms::answer_canon(alloc, &mut given, answer),
            "branch" => branches::answer_branch(alloc, &mut given, answer),
            "same" => branches::answer_same(alloc, &mut given, answer),
            _ => row.refuse(),
        }
        if given.refused {
            answer.replace("refused");
        }
    }
}

fn main(rt: HostRuntime) -> io::Result<ExitCode> {
    answer_lines(rt.alloc(), &mut StateCases, rt.reader(), io::writer(&rt))
}
