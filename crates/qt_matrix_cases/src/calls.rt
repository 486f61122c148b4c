//! The calls of a row, expanded.

use crate::notation::{Last, Run};
use qt_gate_calls::body::GateModifier;
use qt_instructions::primitive::Primitive;
use qt_modify::call::expand;
use qt_modify::counts::{operator_count, prim_count};
use qt_modify::expansion::{ExpandRefusal, Expansion};
use qt_phase::phase::Phase;
use qt_registers::fixed::FixedQubit;
use qt_rows::answer::Answer;
use qt_tree::place::Place;
use qt_typed::call::{GateUse, TypedCall, TypedQubit};
use qt_typed::expression::TypedPhase;
use sqlite_items::Items;
use std::alloc::Global;

/// The beginning of the file.
const BEGINNING: Place = Place {
    file: 0,
    line: 1,
    column: 1,
};

/// The qubit of a run at a place of the broadcast.
fn qubit_at(run: &Run, place: u8) -> TypedQubit {
    let number = match run.count {
        Some(_) => run.first.saturating_add(place),
        None => run.first,
    };
    TypedQubit::Fixed {
        qubit: FixedQubit::Number {
            qubit: u64::from(number),
        },
    }
}

fn operands_at(alloc: Global, runs: &[Run], place: u8, answer: &mut Answer) -> Items<TypedQubit> {
    let mut operands = Items::new(alloc);
    for run in runs {
        answer.require(operands.push(qubit_at(run, place)));
    }
    operands
}

fn arguments_of(alloc: Global, phases: &[Phase], answer: &mut Answer) -> Items<TypedPhase> {
    let mut arguments = Items::new(alloc);
    for phase in phases {
        answer.require(arguments.push(TypedPhase::Fixed { phase: *phase }));
    }
    arguments
}

fn modifiers_of(
    alloc: Global,
    modifiers: &[GateModifier],
    answer: &mut Answer,
) -> Items<GateModifier> {
    let mut again = Items::new(alloc);
    for modifier in modifiers {
        answer.require(again.push(*modifier));
    }
    again
}

/// The call at a place of the broadcast.
fn call_at(alloc: Global, last: &Last, place: u8, answer: &mut Answer) -> Option<TypedCall> {
    let gates = answer.given(last.gates.share())?;
    Some(TypedCall {
        place: BEGINNING,
        used: GateUse {
            gates,
            modifiers: modifiers_of(alloc, last.modifiers.as_slice(), answer),
            gate: last.gate,
            arguments: arguments_of(alloc, last.arguments.as_slice(), answer),
        },
        operands: operands_at(alloc, last.registers.as_slice(), place, answer),
    })
}

/// How many calls there are: one for each place of the registers.
fn places_of(runs: &[Run]) -> u8 {
    let mut places = 1;
    for run in runs {
        places = run.count.unwrap_or(places);
    }
    places
}

/// The expansion, or what is told in its place.
fn expansion_of(alloc: Global, call: &TypedCall, answer: &mut Answer) -> Option<Expansion> {
    match expand(alloc, call) {
        Ok(expansion) => Some(expansion),
        Err(ExpandRefusal::Angle { units, .. }) => {
            write!(answer, "angle {units}");
            None
        }
        Err(ExpandRefusal::OutOfMemory) => {
            answer.push_str("memory");
            None
        }
    }
}

/// The primitives of the calls, one after the other.
pub fn calls_in(alloc: Global, last: Last, answer: &mut Answer) -> Option<Items<Primitive>> {
    let mut primitives = Items::new(alloc);
    for place in 0..places_of(last.registers.as_slice()) {
        let call = call_at(alloc, &last, place, answer)?;
        let expansion = expansion_of(alloc, &call, answer)?;
        answer.require(primitives.append(expansion.primitives));
    }
    Some(primitives)
}

/// How many primitives and operators a call comes to.
pub fn tell_counts(alloc: Global, last: Last, answer: &mut Answer) {
    if let Some(call) = call_at(alloc, &last, 0, answer) {
        let (primitives, operators) = (prim_count(&call), operator_count(&call));
        write!(answer, "primitives {primitives}, operators {operators}");
    }
}
