//! Rows of what outcomes leave, and of norms.

use crate::amplitudes::{Amplitudes, SmallList};
use crate::states::write_state;
use crate::text::number_in;
use qt_measure::{Halves, norm, split};
use qt_ring::QUBITS;
use qt_rows::answer::Answer;
use qt_rows::row::Row;
use qt_vector::vector::Vector;
use std::alloc::Global;

fn write_half(name: &str, half: &Option<Vector>, answer: &mut Answer) {
    answer.push_str(name);
    match half {
        Some(state) => write_state(state, answer),
        None => answer.push_str("none"),
    }
}

fn write_halves(halves: &Halves, answer: &mut Answer) {
    write_half("zero ", &halves.zero, answer);
    write_half("; one ", &halves.one, answer);
}

/// Writes what the outcomes of a qubit, which the state has, leave of it.
fn split_state(alloc: Global, state: &Vector, qubit: u32, row: &mut Row<'_>, answer: &mut Answer) {
    if qubit >= state.qubits() {
        return row.refuse();
    }
    if let Some(halves) = answer.given(split(alloc, state, qubit)) {
        write_halves(&halves, answer);
    }
}

/// The state whose amplitudes `QUBITS LIST` writes.
pub fn state_of(
    alloc: Global,
    written: &str,
    row: &mut Row<'_>,
    answer: &mut Answer,
) -> Option<Vector> {
    match Amplitudes::read(alloc, written, row, answer) {
        Some(Amplitudes { qubits, entries }) => {
            answer.given(Vector::from_entries(alloc, qubits, entries.as_slice()))
        }
        None => None,
    }
}

/// `split QUBITS LIST; QUBIT`.
pub fn answer_split(alloc: Global, row: &mut Row<'_>, answer: &mut Answer) {
    let written = row.part(';');
    let qubit = number_in(row.rest, row);
    if let Some(state) = state_of(alloc, written, row, answer) {
        split_state(alloc, &state, qubit, row, answer);
    }
}

/// `norm LIST`.
pub fn answer_norm(alloc: Global, row: &mut Row<'_>, answer: &mut Answer) {
    let SmallList { entries } = SmallList::read(alloc, row.rest, row, answer);
    if entries.len() > 1 << QUBITS {
        return row.refuse();
    }
    let (a, b) = norm(entries.as_slice());
    write!(answer, "{a} {b}");
}
