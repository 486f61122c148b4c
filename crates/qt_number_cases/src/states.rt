//! Rows of plain states.

use qt_plain::vector::StateVector;
use qt_rows::answer::Answer;
use qt_rows::row::Row;
use std::alloc::{AllocError, Global};

/// Writes what is told of a state: the numerators of its mass over 2^96, its halvings, and whether all amplitudes are 0.
fn tell(state: &StateVector, answer: &mut Answer) {
    let mass = state.mass();
    let (a, b) = (mass.a, mass.b);
    let (halvings, vanishes) = (state.halvings(), state.vanishes());
    write!(
        answer,
        "Summary {{ a: {a}, b: {b}, halvings: {halvings}, vanishes: {vanishes} }}"
    );
}

/// Puts the state that a call gave in place of the one before.
fn put(next: Result<StateVector, AllocError>, state: &mut StateVector, answer: &mut Answer) {
    match next {
        Ok(next) => *state = next,
        Err(_) => answer.lose(),
    }
}

/// Steps on one qubit, which the state has.
fn on_qubit(
    alloc: Global,
    call: &str,
    row: &mut Row<'_>,
    state: &mut StateVector,
    answer: &mut Answer,
) {
    let qubit = row.u32();
    if qubit >= state.qubits() || state.halvings() >= 32 {
        return row.refuse();
    }
    match call {
        "h" => put(state.hadamard(alloc, qubit), state, answer),
        "x" => put(state.x(alloc, qubit), state, answer),
        "t" => put(state.t(alloc, qubit), state, answer),
        "zero" => put(state.projected(alloc, qubit, false), state, answer),
        "one" => put(state.projected(alloc, qubit, true), state, answer),
        _ => row.refuse(),
    }
}

fn controlled_x(alloc: Global, row: &mut Row<'_>, state: &mut StateVector, answer: &mut Answer) {
    let (control, target, qubits) = (row.u32(), row.u32(), state.qubits());
    if control < qubits && target < qubits && control != target && state.halvings() < 32 {
        put(state.controlled_x(alloc, control, target), state, answer);
    } else {
        row.refuse();
    }
}

fn take_step(alloc: Global, row: &mut Row<'_>, state: &mut StateVector, answer: &mut Answer) {
    match row.word() {
        "copy" => put(state.copied(alloc), state, answer),
        "cx" => controlled_x(alloc, row, state, answer),
        call => on_qubit(alloc, call, row, state, answer),
    }
}

fn take_steps(alloc: Global, row: &mut Row<'_>, state: &mut StateVector, answer: &mut Answer) {
    for written in row.rest.split(';') {
        let mut step = Row::new(written);
        take_step(alloc, &mut step, state, answer);
        row.refused |= step.refused;
    }
}

/// `plain QUBITS STEP; STEP; ..`.
pub fn answer_plain(alloc: Global, row: &mut Row<'_>, answer: &mut Answer) {
    let qubits = row.u32();
    if qubits > 4 {
        return row.refuse();
    }
    match StateVector::zero(alloc, qubits) {
        Ok(mut state) => {
            take_steps(alloc, row, &mut state, answer);
            tell(&state, answer);
        }
        Err(_) => answer.lose(),
    }
}
