//! Cases of the bodies of gates as a program.
//!
//! It reads rows from the standard input, one a line, and prints the answer to each as one line. A row `bodies P:Q P:Q ..` is a list of
//! bodies without calls, each with so many parameters and qubits: the answer has them as the bodies of a program, and as what they are
//! shared with. A row `standard NAME` asks for the standard gate of that name: the answer is its number, its parameters and its qubits, or
//! `none`. A row `table standard` is answered with all standard gates, `NAME:P:Q:C` with so many parameters, qubits and calls in its body.
//! A row `count NAME MODIFIER ..` is a call of that standard gate under these modifiers, `inv`, `ctrl`, `negctrl` or `pow:K`: the answer is
//! how many primitives and operators it comes to. A row `chain N K` is a call of the last of N gates behind the standard ones, the first of
//! which calls `swap` twice, and each other the gate before it, with K operators in the arguments of each call.
//! A row `expand NAME ARGUMENTS OPERANDS MODIFIER ..` is a call of that standard gate in line 4 and column 9: ARGUMENTS are units of
//! π/2^32 and OPERANDS numbers, with commas between, `?` for one of the run and `-` for none. The answer has the steps, with `wN` for the
//! work cell N, and the primitives, each with its controls that are to be 1, those that are to be 0, its qubit and its angles in π/4; or
//! the angle that it is refused for.
//! A row `program T P N` is a program whose statements have T tokens each: a loop that calls the last of N + 1 subroutines, and one that
//! isn't there, and a call of `swap`. The first subroutine calls `swap` at P places, and each other the one before it on either way of a
//! branch. The answer is its size.
//! A line that is no such row is answered with `no row`.
//!
//! `gate_cases.py` writes the rows and the answers that are wanted.
#![tactic(auto)]

mod expansions;
mod programs;

use crate::expansions::{arguments_in, operands_in, tell_call};
use crate::programs::{BEGINNING, SWAP_ROW, sized_program};
use qt_gate_calls::body::{BodyCall, Called, GateBodies, GateBody, GateModifier};
use qt_gates::named::{ROWS, standard};
use qt_gates::table::standard_bodies;
use qt_modify::counts::{operator_count, prim_count};
use qt_rows::answer::Answer;
use qt_rows::cases::{Cases, answer_lines};
use qt_rows::row::Row;
use qt_size::program::size_of;
use qt_typed::call::{GateUse, TypedCall};
use sqlite_items::Items;
use std::alloc::{AllocError, Global};
use std::io;
use std::process::ExitCode;

/// The number of the first gate behind the table.
const FIRST_DECLARED: u32 = 32;

/// What answers the rows.
#[derive(Drop)]
struct GateCases;

/// The body without calls of `P:Q`.
fn body_in(alloc: Global, row: &mut Row<'_>) -> GateBody {
    let mut front = Row::new(row.part(':'));
    let (parameters, qubits) = (front.u32(), row.u32());
    row.refused |= front.refused;
    GateBody {
        parameters,
        qubits,
        calls: Items::new(alloc),
    }
}

fn bodies_in(alloc: Global, row: &mut Row<'_>, answer: &mut Answer) -> Items<GateBody> {
    let mut bodies = Items::new(alloc);
    for written in row.rest.split_whitespace() {
        let mut body = Row::new(written);
        answer.require(bodies.push(body_in(alloc, &mut body)));
        row.refused |= body.refused;
    }
    bodies
}

fn tell_bodies(gates: &GateBodies, answer: &mut Answer) {
    for body in gates.bodies() {
        let (parameters, qubits) = (body.parameters, body.qubits);
        write!(answer, " {parameters}:{qubits}");
    }
}

fn tell_gates(gates: &GateBodies, answer: &mut Answer) {
    answer.push_str("gates");
    tell_bodies(gates, answer);
    if let Some(shared) = answer.given(gates.share()) {
        answer.push_str(", shared");
        tell_bodies(&shared, answer);
    }
}

/// `bodies P:Q P:Q ..`
fn answer_bodies(alloc: Global, row: &mut Row<'_>, answer: &mut Answer) {
    let bodies = bodies_in(alloc, row, answer);
    if let Some(gates) = answer.given(GateBodies::new(alloc, bodies)) {
        tell_gates(&gates, answer);
    }
}

fn tell_table(bodies: &[GateBody], answer: &mut Answer) {
    answer.push_str("table");
    for (&(name, _, _), body) in ROWS.iter().zip(bodies) {
        let (parameters, qubits, calls) = (body.parameters, body.qubits, body.calls.len());
        write!(answer, " {name}:{parameters}:{qubits}:{calls}");
    }
}

/// `table standard`
fn answer_table(alloc: Global, row: &mut Row<'_>, answer: &mut Answer) {
    if row.rest != "standard" {
        row.refuse();
        return;
    }
    if let Some(bodies) = answer.given(standard_bodies(alloc)) {
        tell_table(bodies.as_slice(), answer);
    }
}

/// `standard NAME`
fn answer_standard(row: &mut Row<'_>, answer: &mut Answer) {
    match standard(row.rest) {
        Some(gate) => {
            let (number, parameters, qubits) = (gate.number, gate.parameters, gate.qubits);
            write!(answer, "gate {number}, {parameters}:{qubits}");
        }
        None => answer.push_str("none"),
    }
}

/// The power `pow:K`.
fn power_in(written: &str, row: &mut Row<'_>) -> GateModifier {
    let mut power = Row::new(written);
    row.refused |= power.part(':') != "pow";
    let exponent = power.i32();
    row.refused |= power.refused;
    GateModifier::Pow { exponent }
}

/// A modifier as a row has it.
fn modifier_in(written: &str, row: &mut Row<'_>) -> GateModifier {
    match written {
        "inv" => GateModifier::Inv,
        "ctrl" => GateModifier::Ctrl,
        "negctrl" => GateModifier::NegCtrl,
        _ => power_in(written, row),
    }
}

/// The modifiers of the rest of the row, the outermost first.
fn modifiers_in(alloc: Global, row: &mut Row<'_>, answer: &mut Answer) -> Items<GateModifier> {
    let mut modifiers = Items::new(alloc);
    for written in row.rest.split_whitespace() {
        answer.require(modifiers.push(modifier_in(written, row)));
    }
    modifiers
}

/// The counts of a call of that gate without arguments and operands.
fn tell_counts(
    alloc: Global,
    gates: GateBodies,
    modifiers: Items<GateModifier>,
    number: u32,
    answer: &mut Answer,
) {
    let call = TypedCall {
        place: BEGINNING,
        used: GateUse {
            gates,
            modifiers,
            gate: Called::Gate { number },
            arguments: Items::new(alloc),
        },
        operands: Items::new(alloc),
    };
    let (primitives, operators) = (prim_count(&call), operator_count(&call));
    write!(answer, "primitives {primitives}, operators {operators}");
}

/// The gates of the table, with these behind them.
fn gates_with(alloc: Global, declared: Items<GateBody>, answer: &mut Answer) -> Option<GateBodies> {
    let mut bodies = answer.given(standard_bodies(alloc))?;
    answer.require(bodies.append(declared));
    answer.given(GateBodies::new(alloc, bodies))
}

/// `count NAME MODIFIER ..`
fn answer_count(alloc: Global, row: &mut Row<'_>, answer: &mut Answer) {
    let Some(gate) = standard(row.word()) else {
        row.refuse();
        return;
    };
    let modifiers = modifiers_in(alloc, row, answer);
    if let Some(gates) = gates_with(alloc, Items::new(alloc), answer) {
        tell_counts(alloc, gates, modifiers, gate.number, answer);
    }
}

/// `expand NAME ARGUMENTS OPERANDS MODIFIER ..`
fn answer_expand(alloc: Global, row: &mut Row<'_>, answer: &mut Answer) {
    let Some(gate) = standard(row.word()) else {
        row.refuse();
        return;
    };
    let arguments = row.word();
    let arguments = arguments_in(alloc, arguments, row, answer);
    let operands = row.word();
    let operands = operands_in(alloc, operands, row, answer);
    let modifiers = modifiers_in(alloc, row, answer);
    if let Some(gates) = gates_with(alloc, Items::new(alloc), answer) {
        tell_call(
            alloc,
            gates,
            modifiers,
            gate.number,
            arguments,
            operands,
            answer,
        );
    }
}

/// A call of the gate with that number, on no qubits.
fn bare_call(alloc: Global, number: u32, operators: u32) -> BodyCall {
    BodyCall {
        modifiers: Items::new(alloc),
        gate: Called::Gate { number },
        angles: Items::new(alloc),
        qubits: Items::new(alloc),
        operators,
    }
}

/// A gate that calls another twice.
fn twice(alloc: Global, number: u32, operators: u32) -> Result<GateBody, AllocError> {
    let mut calls = Items::new(alloc);
    calls.push(bare_call(alloc, number, operators))?;
    calls.push(bare_call(alloc, number, operators))?;
    Ok(GateBody {
        parameters: 0,
        qubits: 0,
        calls,
    })
}

/// So many gates, each of which calls the one before it twice, the first of them `swap`.
fn chain(alloc: Global, count: u8, operators: u32) -> Result<Items<GateBody>, AllocError> {
    let mut gates = Items::new(alloc);
    let mut called = SWAP_ROW;
    for number in 0..count {
        gates.push(twice(alloc, called, operators)?)?;
        called = FIRST_DECLARED + number as u32;
    }
    Ok(gates)
}

/// `chain N K`
fn answer_chain(alloc: Global, row: &mut Row<'_>, answer: &mut Answer) {
    let (count, operators) = (row.u8(), row.u32());
    if count == 0 {
        row.refuse();
        return;
    }
    let Some(declared) = answer.given(chain(alloc, count, operators)) else {
        return;
    };
    if let Some(gates) = gates_with(alloc, declared, answer) {
        let last = FIRST_DECLARED + (count - 1) as u32;
        tell_counts(alloc, gates, Items::new(alloc), last, answer);
    }
}

/// `program T P N`
fn answer_program(alloc: Global, row: &mut Row<'_>, answer: &mut Answer) {
    let (tokens, places, count) = (row.u32(), row.u32(), row.u8());
    let Some(gates) = gates_with(alloc, Items::new(alloc), answer) else {
        return;
    };
    let Some(program) = answer.given(sized_program(alloc, gates, tokens, places, count)) else {
        return;
    };
    let size = size_of(
        alloc,
        program.subroutines.as_slice(),
        program.body.as_slice(),
    );
    if let Some(size) = answer.given(size) {
        write!(answer, "size {size}");
    }
}

impl Cases for GateCases {
    fn answer(&mut self, alloc: Global, row: &mut Row<'_>, answer: &mut Answer) {
        match row.part(' ') {
            "bodies" => answer_bodies(alloc, row, answer),
            "standard" => answer_standard(row, answer),
            "table" => answer_table(alloc, row, answer),
            "count" => answer_count(alloc, row, answer),
            "chain" => answer_chain(alloc, row, answer),
            "expand" => answer_expand(alloc, row, answer),
            "program" => answer_program(alloc, row, answer),
            _ => row.refuse(),
        }
    }
}

fn main(rt: HostRuntime) -> io::Result<ExitCode> {
    answer_lines(rt.alloc(), &mut GateCases, rt.reader(), io::writer(&rt))
}
