//! Rows of expansions.

use qt_gate_calls::body::{Called, GateBodies, GateModifier};
use qt_instructions::angle::{AngleArg, AngleStep};
use qt_instructions::primitive::Primitive;
use qt_instructions::reference::{AngleRef, QubitRef};
use qt_modify::call::expand;
use qt_modify::expansion::{ExpandRefusal, Expansion};
use qt_phase::phase::Phase;
use qt_registers::fixed::FixedQubit;
use qt_rows::answer::Answer;
use qt_rows::row::Row;
use qt_tree::place::Place;
use qt_typed::call::{GateUse, TypedCall, TypedQubit};
use qt_typed::expression::{TypedExpr, TypedPhase};
use qt_value::types::ValueType;
use sqlite_items::Items;
use std::alloc::Global;

/// The argument `UNITS`, or `?` for one of the run.
fn argument_in(written: &str, row: &mut Row<'_>) -> TypedPhase {
    if written == "?" {
        return TypedPhase::Angle {
            operand: TypedExpr::Slot {
                kind: ValueType::Angle(8),
                slot: 0,
            },
        };
    }
    let mut number = Row::new(written);
    let units = number.i64();
    row.refused |= number.refused;
    match Phase::from_units(units) {
        Ok(phase) => TypedPhase::Fixed { phase },
        Err(_) => {
            row.refuse();
            TypedPhase::Fixed {
                phase: Phase::zero(),
            }
        }
    }
}

/// The arguments `A,B,..`, or `-` for none.
pub fn arguments_in(
    alloc: Global,
    written: &str,
    row: &mut Row<'_>,
    answer: &mut Answer,
) -> Items<TypedPhase> {
    let mut arguments = Items::new(alloc);
    if written == "-" {
        return arguments;
    }
    for one in written.split(',') {
        answer.require(arguments.push(argument_in(one, row)));
    }
    arguments
}

/// The operand `NUMBER`, or `?` for one of the run.
fn operand_in(written: &str, row: &mut Row<'_>) -> TypedQubit {
    if written == "?" {
        return TypedQubit::Slot { slot: 0 };
    }
    let mut number = Row::new(written);
    let qubit = number.u8() as u64;
    row.refused |= number.refused;
    TypedQubit::Fixed {
        qubit: FixedQubit::Number { qubit },
    }
}

/// The operands `Q,R,..`, or `-` for none.
pub fn operands_in(
    alloc: Global,
    written: &str,
    row: &mut Row<'_>,
    answer: &mut Answer,
) -> Items<TypedQubit> {
    let mut operands = Items::new(alloc);
    if written == "-" {
        return operands;
    }
    for one in written.split(',') {
        answer.require(operands.push(operand_in(one, row)));
    }
    operands
}

fn tell_arg(arg: &AngleArg, answer: &mut Answer) {
    match arg {
        AngleArg::Units(units) => write!(answer, ":{units}"),
        AngleArg::Work(cell) => write!(answer, ":w{cell}"),
    }
}

fn tell_two(name: &str, left: &AngleArg, right: &AngleArg, answer: &mut Answer) {
    answer.push_str(name);
    tell_arg(left, answer);
    tell_arg(right, answer);
}

fn tell_whole(name: &str, of: &AngleArg, number: i128, answer: &mut Answer) {
    answer.push_str(name);
    tell_arg(of, answer);
    write!(answer, ":{number}");
}

fn tell_step(step: &AngleStep, answer: &mut Answer) {
    match step {
        AngleStep::Add(left, right) => tell_two(" add", left, right, answer),
        AngleStep::Sub(left, right) => tell_two(" sub", left, right, answer),
        AngleStep::Neg(of) => {
            answer.push_str(" neg");
            tell_arg(of, answer);
        }
        AngleStep::Times(of, number) => tell_whole(" times", of, *number, answer),
        AngleStep::Over(of, number) => tell_whole(" over", of, *number, answer),
    }
}

fn tell_qubit(qubit: &QubitRef, answer: &mut Answer) {
    match qubit {
        QubitRef::At(number) => write!(answer, ",{number}"),
        QubitRef::Work(cell) => write!(answer, ",w{cell}"),
    }
}

fn tell_controls(name: &str, ones: &[QubitRef], zeros: &[QubitRef], answer: &mut Answer) {
    answer.push_str(name);
    for qubit in ones {
        tell_qubit(qubit, answer);
    }
    answer.push_str("|");
    for qubit in zeros {
        tell_qubit(qubit, answer);
    }
    answer.push_str("|");
}

fn tell_angle(angle: &AngleRef, answer: &mut Answer) {
    match angle {
        AngleRef::Eighth(eighth) => write!(answer, ":{eighth}"),
        AngleRef::Work(cell, negated) => {
            answer.push_str(if *negated { ":-" } else { ":" });
            write!(answer, "w{cell}");
        }
    }
}

fn tell_primitive(primitive: &Primitive, answer: &mut Answer) {
    match primitive {
        Primitive::Turn {
            ones,
            zeros,
            target,
            theta,
            phi,
            lambda,
        } => {
            tell_controls(" U", ones.items(), zeros.items(), answer);
            tell_qubit(target, answer);
            tell_angle(theta, answer);
            tell_angle(phi, answer);
            tell_angle(lambda, answer);
        }
        Primitive::Phase { ones, zeros, angle } => {
            tell_controls(" P", ones.items(), zeros.items(), answer);
            tell_angle(angle, answer);
        }
    }
}

fn tell_expansion(expansion: &Expansion, answer: &mut Answer) {
    answer.push_str("steps");
    for step in expansion.steps.as_slice() {
        tell_step(step, answer);
    }
    answer.push_str("; primitives");
    for primitive in expansion.primitives.as_slice() {
        tell_primitive(primitive, answer);
    }
}

fn tell_refusal(refusal: &ExpandRefusal, answer: &mut Answer) {
    match refusal {
        ExpandRefusal::Angle { place, units } => {
            let (line, column) = (place.line, place.column);
            write!(answer, "angle {units} at {line}:{column}");
        }
        ExpandRefusal::OutOfMemory => answer.lose(),
    }
}

/// A call of the gate with that number, in line 4 and column 9.
pub fn tell_call(
    alloc: Global,
    gates: GateBodies,
    modifiers: Items<GateModifier>,
    number: u32,
    arguments: Items<TypedPhase>,
    operands: Items<TypedQubit>,
    answer: &mut Answer,
) {
    let call = TypedCall {
        place: Place {
            file: 0,
            line: 4,
            column: 9,
        },
        used: GateUse {
            gates,
            modifiers,
            gate: Called::Gate { number },
            arguments,
        },
        operands,
    };
    match expand(alloc, &call) {
        Ok(expansion) => tell_expansion(&expansion, answer),
        Err(refusal) => tell_refusal(&refusal, answer),
    }
}
