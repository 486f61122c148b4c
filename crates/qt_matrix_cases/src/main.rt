//! Cases of gate calls as matrices, as a program.
//!
//! It reads rows from the standard input, one a line, and prints the answer to each as one line. A row `matrix N; GATE; ..; CALL` expands
//! the call and applies its primitives to each of the 2^N basis states of N qubits: the answer has the state that comes of each, in their
//! order, as `K I:A,B,C,D I:A,B,C,D ..` with `;` behind it. The amplitude of the basis state I, whose bit J is that of qubit J, is
//! (A + Bω + Cω² + Dω³) / 2^K with ω = e^(iπ/4), and amplitudes 0 are left out. Where a fixed angle is refused the answer is `angle UNITS`,
//! where one rests on a step of the run `at run time`, where memory is wanting `memory`. A row `count N; GATE; ..; CALL` is answered with
//! how many primitives and operators the call comes to.
//!
//! A gate is `gate P Q|CALL|CALL ..` with P parameters and Q qubits, and is called `g0`, `g1` and so on in the order of the row. A call is
//! `MODIFIERS NAME ANGLES QUBITS`, each a word with its parts between commas, and `-` where there are none. A modifier is `inv`, `ctrl`,
//! `negctrl` or `pow:K`, the outermost first. An angle is written in units of π/2^32 and operators behind their operands, with `_` between:
//! `$0` is a parameter, `neg`, `add` and `sub` are operators, `*K` and `/K` are those with a whole number. The angles of the call at the
//! end are units. Of its qubits `F+C` is a register of C qubits from F on, and then there is one call for each place.
//! A line that is no such row is answered with `no row`.
//!
//! `matrix_cases.py` writes the rows and the answers that are wanted.
#![tactic(auto)]

mod calls;
mod columns;
mod notation;

use crate::calls::{calls_in, tell_counts};
use crate::columns::tell_columns;
use crate::notation::{Last, last_in};
use qt_rows::answer::Answer;
use qt_rows::cases::{Cases, answer_lines};
use qt_rows::row::Row;
use std::alloc::Global;
use std::io;
use std::process::ExitCode;

/// The most qubits of a row.
const MOST_QUBITS: u32 = 8;

/// What answers the rows.
#[derive(Drop)]
struct MatrixCases;

/// `matrix N; GATE; ..; CALL`
fn answer_matrix(alloc: Global, qubits: u32, last: Last, answer: &mut Answer) {
    if let Some(primitives) = calls_in(alloc, last, answer) {
        tell_columns(alloc, qubits, primitives.as_slice(), answer);
    }
}

impl Cases for MatrixCases {
    fn answer(&mut self, alloc: Global, row: &mut Row<'_>, answer: &mut Answer) {
        let mut head = Row::new(row.part(';'));
        let (kind, qubits) = (head.word(), head.u32());
        row.refused |= head.refused || qubits > MOST_QUBITS;
        let Some(last) = last_in(alloc, row, answer) else {
            return;
        };
        match kind {
            "matrix" => answer_matrix(alloc, qubits, last, answer),
            "count" => tell_counts(alloc, last, answer),
            _ => row.refuse(),
        }
    }
}

fn main(rt: HostRuntime) -> io::Result<ExitCode> {
    answer_lines(rt.alloc(), &mut MatrixCases, rt.reader(), io::writer(&rt))
}
