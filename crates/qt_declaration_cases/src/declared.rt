//! Rows that declare names.

use crate::parts::{held, number_in, scalar_in, size_in};
use qt_check_declarations::constants::constant_of;
use qt_check_declarations::registers::{bit_register, qubit_declaration, qubit_register};
use qt_check_declarations::sizes::{element_type, lengths_of};
use qt_check_declarations::state::{enter, leave, take_slots};
use qt_const_rules::consts::Consts;
use qt_gate_calls::body::GateBodies;
use qt_names::scopes::Scopes;
use qt_outside::faults::OutOfMemory;
use qt_rows::answer::Answer;
use qt_rows::row::Row;
use qt_tree::expression::Expr;
use qt_tree::place::Place;
use qt_tree::refusal::TextRefusal;
use qt_typing::names::Names;
use qt_typing::state::State;
use sqlite_items::Items;
use std::alloc::Global;

/// Where all declarations stand.
const HERE: Place = Place {
    file: 0,
    line: 3,
    column: 4,
};

fn no_names(alloc: Global) -> Names {
    Names {
        scopes: Scopes::new(alloc),
        consts: Consts::new(alloc),
    }
}

/// The state before the first declaration.
pub fn state_of(alloc: Global) -> Result<State, OutOfMemory> {
    let all_gates = GateBodies::new(alloc, Items::new(alloc))?;
    Ok(State {
        names: no_names(alloc),
        inside: no_names(alloc),
        slots: 0,
        qubits: 0,
        subroutines: Items::new(alloc),
        gates: Items::new(alloc),
        all_gates,
        inputs: Items::new(alloc),
        outputs: Items::new(alloc),
        variables: Items::new(alloc),
        tokens: 0,
        included: false,
    })
}

/// What came of a declaration, and what is declared by then.
fn tell(state: &State, done: Result<(), TextRefusal>, answer: &mut Answer) {
    match done {
        Ok(()) => answer.push_str("declared"),
        Err(refusal) => write!(answer, "{refusal:?}"),
    }
    let (slots, qubits) = (state.slots, state.qubits);
    let (constants, variables) = (state.names.consts.len(), state.variables.len());
    write!(
        answer,
        " slots {slots} qubits {qubits} constants {constants} variables {variables}"
    );
}

/// `constant TYPE SIZE NAME NUMBER`
pub fn constant(alloc: Global, state: &mut State, row: &mut Row<'_>, answer: &mut Answer) {
    let scalar = scalar_in(alloc, row, answer);
    let name = row.word();
    let number = number_in(alloc, row, answer);
    if row.refused {
        return;
    }
    if let Some(number) = number {
        let done = constant_of(alloc, state, HERE, &scalar, name, number.get());
        tell(state, done, answer);
    }
}

/// `qubit SIZE NAME`
pub fn qubit(alloc: Global, state: &mut State, row: &mut Row<'_>, answer: &mut Answer) {
    let size = size_in(alloc, row, answer);
    let name = row.word();
    if row.refused {
        return;
    }
    let done = qubit_declaration(alloc, state, HERE, held(&size), name);
    tell(state, done, answer);
}

/// `qreg NAME SIZE`
pub fn qreg(alloc: Global, state: &mut State, row: &mut Row<'_>, answer: &mut Answer) {
    let name = row.word();
    let size = size_in(alloc, row, answer);
    if row.refused {
        return;
    }
    let done = qubit_register(alloc, state, HERE, name, held(&size));
    tell(state, done, answer);
}

/// `creg NAME SIZE`
pub fn creg(alloc: Global, state: &mut State, row: &mut Row<'_>, answer: &mut Answer) {
    let name = row.word();
    let size = size_in(alloc, row, answer);
    if row.refused {
        return;
    }
    let done = bit_register(alloc, state, HERE, name, held(&size));
    tell(state, done.map(drop), answer);
}

/// `element TYPE SIZE`
pub fn element(alloc: Global, state: &State, row: &mut Row<'_>, answer: &mut Answer) {
    let scalar = scalar_in(alloc, row, answer);
    match element_type(alloc, &state.names, HERE, &scalar) {
        Ok(kind) => write!(answer, "{kind:?}"),
        Err(refusal) => write!(answer, "{refusal:?}"),
    }
}

/// The numbers of a row.
fn numbers_in(alloc: Global, row: &mut Row<'_>, answer: &mut Answer) -> Vec<Expr> {
    let mut numbers = Vec::new(alloc);
    for word in row.rest.split_whitespace() {
        match word.parse::<u64>() {
            Ok(value) => answer.require(numbers.push(Expr::Whole { value })),
            Err(_) => row.refused = true,
        }
    }
    numbers
}

/// `lengths NUMBER ..`
pub fn lengths(alloc: Global, state: &State, row: &mut Row<'_>, answer: &mut Answer) {
    let numbers = numbers_in(alloc, row, answer);
    match lengths_of(alloc, &state.names, HERE, numbers.as_slice()) {
        Ok(lengths) => write!(answer, "{lengths:?}"),
        Err(refusal) => write!(answer, "{refusal:?}"),
    }
}

/// `slots NUMBER`
pub fn slots(state: &mut State, row: &mut Row<'_>, answer: &mut Answer) {
    let first = take_slots(state, row.u32());
    write!(answer, "from {first} ");
    tell(state, Ok(()), answer);
}

/// `enter`
pub fn enter_scope(state: &mut State, answer: &mut Answer) {
    answer.require(enter(state));
    tell(state, Ok(()), answer);
}

/// `leave KNOWN`
pub fn leave_scope(state: &mut State, row: &mut Row<'_>, answer: &mut Answer) {
    leave(state, row.usize());
    tell(state, Ok(()), answer);
}
