//! Cases of the check of expressions, as a program.
//!
//! It reads rows from the standard input, one a line, and prints the answer to each as one line. Names stay from row to row.
//!
//! - `variable NAME TYPE WIDTH SLOT LENGTH ..` declares a variable, or an array of these lengths, at a slot; `constant NAME TYPE WIDTH BITS`
//!   a constant, and `phase NAME UNITS` a constant phase of so many units of π/2^32. `TYPE` is `bool`, `bit`, `int`, `uint` or `angle`.
//! - `typed EXPRESSION`: the type of an expression and the outermost form that it is typed as, or its refusal.
//! - `value TYPE WIDTH EXPRESSION`: the same of one where a value of that type is wanted.
//! - `register NAME FIRST SIZE` declares so many qubits, from the first on, and a single one for the size 0; `parameter NAME NUMBER SIZE` a
//!   register that a subroutine is given, and `slot NAME SLOT` a single qubit of it. `qubits OPERAND`, with a place, a range or a set, tells
//!   which qubits are named, `places OPERAND` the register of them where it is known before the run, and `repeats OPERAND; ..` of each
//!   operand whether some of its qubits stand among those before it.
//! - `target NAME[INDEX, ..]..`: the type of what is stored there, the slot, and how many indexes and steps to bits there are;
//!   `measured NAME TARGET`: the same where the outcomes of a name's qubits are stored.
//!
//! A line that is no row is answered with `no row`. The rows from `parameter pf 2 6` on, and their answers, are written by `qubit_rows.py`.
#![tactic(auto)]

mod expressions;
mod names;
mod qubits;
mod shown;
mod targets;

use qt_const::consts::Consts;
use qt_names::scopes::Scopes;
use qt_rows::answer::Answer;
use qt_rows::cases::{Cases, answer_lines};
use qt_rows::row::Row;
use qt_typing::names::Names;
use std::alloc::Global;
use std::io;
use std::process::ExitCode;

/// The names that stay from row to row.
#[derive(Drop)]
struct CheckCases {
    names: Names,
}

impl Cases for CheckCases {
    fn answer(&mut self, alloc: Global, row: &mut Row<'_>, answer: &mut Answer) {
        let names = &mut self.names;
        match row.word() {
            "variable" => names::variable(alloc, names, row, answer),
            "constant" => names::constant(alloc, names, row, answer),
            "phase" => names::phase(alloc, names, row, answer),
            "typed" => expressions::typed_row(alloc, names, row, answer),
            "value" => expressions::value_row(alloc, names, row, answer),
            "register" => qubits::register(alloc, names, row, answer),
            "parameter" => qubits::parameter(alloc, names, row, answer),
            "slot" => qubits::slot(alloc, names, row, answer),
            "qubits" => qubits::qubits(alloc, names, row, answer),
            "places" => qubits::places(alloc, names, row, answer),
            "repeats" => qubits::repeats_row(alloc, names, row, answer),
            "target" => targets::target(alloc, names, row, answer),
            "measured" => targets::measured(alloc, names, row, answer),
            _ => row.refuse(),
        }
    }
}

fn main(rt: HostRuntime) -> io::Result<ExitCode> {
    let alloc = rt.alloc();
    let mut cases = CheckCases {
        names: Names {
            scopes: Scopes::new(alloc),
            consts: Consts::new(alloc),
        },
    };
    answer_lines(alloc, &mut cases, rt.reader(), io::writer(&rt))
}
