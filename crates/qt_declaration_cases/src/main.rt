//! Cases of the check of declarations and of settings, as a program.
//!
//! It reads rows from the standard input, one a line, and prints the answer to each as one line. What is declared stays from row to row.
//!
//! - `constant TYPE SIZE NAME NUMBER`: a constant, the number as it is written; `-` for a size that isn't written, as below;
//! - `qubit SIZE NAME`, `qreg NAME SIZE`, `creg NAME SIZE`: qubits, qubits in the old form, and bits;
//! - `element TYPE SIZE`, `lengths NUMBER ..`: the type and the lengths of an array;
//! - `slots NUMBER`: so many slots are taken; `enter` and `leave KNOWN`: a scope is opened, and closed with so many constants known;
//! - `input TYPE WIDTH NAME SLOT` and `setting NAME VALUE`: an input, and what is given for one; `fit`: the values of all inputs.
//!
//! `TYPE` is `bool`, `bit`, `int`, `uint` or `angle`. Behind what a declaration answers stand how many slots, qubits, known names and global
//! variables there are. A line that is no row is answered with `no row`.
#![tactic(auto)]

mod declared;
mod parts;
mod settings;

use crate::declared::state_of;
use crate::settings::Given;
use qt_rows::answer::Answer;
use qt_rows::cases::{Cases, answer_lines};
use qt_rows::row::Row;
use qt_typing::state::State;
use std::alloc::Global;
use std::io;
use std::process::ExitCode;

/// What stays from row to row.
#[derive(Drop)]
struct DeclarationCases {
    state: State,
    given: Given,
}

impl Cases for DeclarationCases {
    fn answer(&mut self, alloc: Global, row: &mut Row<'_>, answer: &mut Answer) {
        let (state, given) = (&mut self.state, &mut self.given);
        match row.word() {
            "constant" => declared::constant(alloc, state, row, answer),
            "qubit" => declared::qubit(alloc, state, row, answer),
            "qreg" => declared::qreg(alloc, state, row, answer),
            "creg" => declared::creg(alloc, state, row, answer),
            "element" => declared::element(alloc, state, row, answer),
            "lengths" => declared::lengths(alloc, state, row, answer),
            "slots" => declared::slots(state, row, answer),
            "enter" => declared::enter_scope(state, answer),
            "leave" => declared::leave_scope(state, row, answer),
            "input" => settings::input(alloc, given, row, answer),
            "setting" => settings::setting(alloc, given, row, answer),
            "fit" => settings::fit(alloc, given, answer),
            _ => row.refuse(),
        }
    }
}

fn main(rt: HostRuntime) -> io::Result<ExitCode> {
    let alloc = rt.alloc();
    let Ok(state) = state_of(alloc) else {
        return Ok(ExitCode::FAILURE);
    };
    let mut cases = DeclarationCases {
        state,
        given: Given::none(alloc),
    };
    answer_lines(alloc, &mut cases, rt.reader(), io::writer(&rt))
}
