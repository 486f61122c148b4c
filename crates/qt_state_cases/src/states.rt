//! Rows of states, and of the steps that are done to them.

use crate::amplitudes::write_amplitudes;
use crate::measures::state_of;
use qt_kernel::kernel::turn;
use qt_kernel::primitive::FixedPrim;
use qt_measure::{Halves, flip, split};
use qt_ring::QUBITS;
use qt_rows::answer::Answer;
use qt_rows::row::Row;
use qt_vector::vector::Vector;
use std::alloc::Global;

/// How a step ends.
#[derive(Clone, Copy, PartialEq, Eq)]
enum End {
    Done,
    Fault,
    Nothing,
}

fn turn_in(row: &mut Row<'_>) -> FixedPrim {
    FixedPrim::Turn {
        ones: row.u32(),
        zeros: row.u32(),
        target: row.u8(),
        theta: row.u8(),
        phi: row.u8(),
        lambda: row.u8(),
    }
}

fn phase_in(row: &mut Row<'_>) -> FixedPrim {
    FixedPrim::Phase {
        ones: row.u32(),
        zeros: row.u32(),
        angle: row.u8(),
    }
}

fn apply(state: &mut Vector, prim: FixedPrim, row: &mut Row<'_>) -> End {
    if !prim.is_on(state.qubits()) {
        row.refuse();
        return End::Done;
    }
    match turn(state, &prim) {
        Ok(()) => End::Done,
        Err(_) => End::Fault,
    }
}

/// Puts what an outcome leaves in place of the state, if it leaves anything.
fn put(half: Option<Vector>, state: &mut Vector) -> End {
    match half {
        Some(half) => {
            *state = half;
            End::Done
        }
        None => End::Nothing,
    }
}

/// Replaces the state by what the outcome leaves of it.
fn keep(
    alloc: Global,
    state: &mut Vector,
    outcome: bool,
    row: &mut Row<'_>,
    answer: &mut Answer,
) -> End {
    let qubit = row.u32();
    if qubit >= state.qubits() {
        row.refuse();
        return End::Done;
    }
    match answer.given(split(alloc, state, qubit)) {
        Some(Halves { zero, one }) => put(if outcome { one } else { zero }, state),
        None => End::Done,
    }
}

fn turn_over(state: &mut Vector, row: &mut Row<'_>) -> End {
    let qubit = row.u32();
    if qubit < state.qubits() {
        flip(state, qubit);
    } else {
        row.refuse();
    }
    End::Done
}

/// Takes the step that a row writes.
fn take_step(alloc: Global, state: &mut Vector, row: &mut Row<'_>, answer: &mut Answer) -> End {
    match row.word() {
        "turn" => apply(state, turn_in(row), row),
        "phase" => apply(state, phase_in(row), row),
        "zero" => keep(alloc, state, false, row, answer),
        "one" => keep(alloc, state, true, row, answer),
        "flip" => turn_over(state, row),
        _ => {
            row.refuse();
            End::Done
        }
    }
}

/// Takes steps up to the first that can't be done.
fn take_steps(
    alloc: Global,
    state: &mut Vector,
    steps: &str,
    row: &mut Row<'_>,
    answer: &mut Answer,
) -> End {
    for written in steps.split(';') {
        let mut step = Row::new(written);
        let end = take_step(alloc, state, &mut step, answer);
        row.refused |= step.refused;
        if end != End::Done {
            return end;
        }
    }
    End::Done
}

/// The state that `QUBITS zeros` or `QUBITS LIST` writes.
fn state_in(
    alloc: Global,
    written: &str,
    row: &mut Row<'_>,
    answer: &mut Answer,
) -> Option<Vector> {
    match written.strip_suffix(" zeros") {
        Some(size) => zeros(alloc, size, row, answer),
        None => state_of(alloc, written, row, answer),
    }
}

fn zeros(alloc: Global, size: &str, row: &mut Row<'_>, answer: &mut Answer) -> Option<Vector> {
    match size.parse::<u32>() {
        Ok(qubits) if qubits <= QUBITS => answer.given(Vector::zero_state(alloc, qubits)),
        _ => {
            row.refuse();
            None
        }
    }
}

/// Writes a state as its halvings and its amplitudes.
pub fn write_state(state: &Vector, answer: &mut Answer) {
    let k = state.k();
    write!(answer, "k {k}: ");
    write_amplitudes(state.entries(), answer);
}

fn write_end(end: End, answer: &mut Answer) {
    match end {
        End::Done => (),
        End::Fault => answer.push_str("fault, "),
        End::Nothing => answer.push_str("nothing, "),
    }
}

/// `state QUBITS LIST; STEP; STEP; ..`.
pub fn answer_state(alloc: Global, row: &mut Row<'_>, answer: &mut Answer) {
    let (written, steps) = match row.rest.split_once(';') {
        Some((written, steps)) => (written, Some(steps)),
        None => (row.rest, None),
    };
    let Some(mut state) = state_in(alloc, written, row, answer) else {
        return;
    };
    if let Some(steps) = steps {
        write_end(take_steps(alloc, &mut state, steps, row, answer), answer);
    }
    write_state(&state, answer);
}
