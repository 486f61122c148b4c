//! Declared gates.

ghost use Rattle.std.specs.Prelude.{◌≡◌, IfOk};
ghost use Rattle.qt_typing.specs.Checked.{Makes};
ghost use Rattle.qt_typing.specs.GateItems as spec;
ghost use Rattle.qt_typing.specs.Subroutines.{turned_inside};
ghost use Rattle.qt_check_gate_items.specs.Steps as steps;

use crate::bodies::body_from;
use crate::names::{declare_angles, declare_wires};
use qt_check_declarations::names::{declare_in_both, new_name};
use qt_check_declarations::state::{enter, leave};
use qt_const_rules::consts::Known;
use qt_gate_calls::body::{BodyCall, GateBody};
use qt_names::named::{Named, Places, What};
use qt_outside::faults::OutOfMemory;
use qt_tree::label::Label;
use qt_tree::lengths::Lengths;
use qt_tree::place::Place;
use qt_tree::program::GateItem;
use qt_tree::refusal::TextRefusal;
use qt_typing::state::State;
use sqlite_items::Items;
use std::alloc::Global;
use std::mem;

/// The names of the parameters.
fn parameters_of(gate: &GateItem) -> &[Label]
    ensures { result.now ≡ spec.parameters_of gate.now }
{
    match &gate.parameters {
        Some(names) => names.as_slice(),
        None => &[],
    }
}

/// So many, as a number of 32 bits.
fn counted(count: usize) -> Result<u32, OutOfMemory>
    ensures { IfOk result (λ number. number ≡ count) }
{
    match u32::try_from(count) {
        Ok(number) => Ok(number),
        Err(_) => Err(OutOfMemory),
    }
}

/// The gate with these calls.
fn body_with(gate: &GateItem, calls: Items<BodyCall>) -> Result<GateBody, OutOfMemory>
    ensures { IfOk result (λ body. body ≡ spec.body_with gate.now calls) }
{
    let parameters = counted(parameters_of(gate).len())?;
    let qubits = counted(gate.qubits.len())?;
    Ok(GateBody {
        parameters,
        qubits,
        calls,
    })
}

/// The body, and the end of its scope.
fn body_and_end(
    alloc: Global,
    state: &mut State,
    included: bool,
    known: usize,
    gate: &GateItem,
) -> Result<GateBody, TextRefusal>
    ensures { Makes (steps.body_and_end included known gate.now state.old) result state.new }
{
    let calls = body_from(alloc, included, gate.body.as_slice(), &state.names)?;
    leave(state, known);
    Ok(body_with(gate, calls)?)
}

/// The qubits, and what stands behind them.
fn wires_and_body(
    alloc: Global,
    state: &mut State,
    included: bool,
    known: usize,
    gate: &GateItem,
) -> Result<GateBody, TextRefusal>
    ensures { Makes (steps.wires_and_body included known gate.now state.old) result state.new }
{
    declare_wires(alloc, state, gate.place, gate.qubits.as_slice())?;
    body_and_end(alloc, state, included, known, gate)
}

/// The parameters, and what stands behind them.
#[tactic(auto, unfolding(crate::specs::Steps::angles_and_body))]
fn angles_and_body(
    alloc: Global,
    state: &mut State,
    included: bool,
    known: usize,
    gate: &GateItem,
) -> Result<GateBody, TextRefusal>
    ensures { Makes (steps.angles_and_body included known gate.now state.old) result state.new }
{
    declare_angles(alloc, state, gate.place, parameters_of(gate))?;
    wires_and_body(alloc, state, included, known, gate)
}

/// A gate in a scope of its own, in which its parameters and qubits stand together.
#[tactic(auto, using(crate::proofs::Inside::inside_is), unfolding(qt_typing::specs::Environment::enter))]
fn gate_inside(alloc: Global, state: &mut State, gate: &GateItem) -> Result<GateBody, TextRefusal>
    ensures { Makes (spec.gate_inside gate.now state.old) result state.new }
{
    let (included, known) = (state.included, state.names.consts.len());
    enter(state)?;
    angles_and_body(alloc, state, included, known, gate)
}

/// Puts the names that a body sees in the place of the others, or back, with so many slots taken.
#[tactic(auto, unfolding(qt_typing::specs::Subroutines::turned_inside))]
fn turned_inside(state: &mut State, slots: u32)
    ensures { state.new ≡ turned_inside slots state.old }
{
    mem::swap(&mut state.names, &mut state.inside);
    state.slots = slots;
}

/// A gate, which sees the global constants and the gates before it.
#[tactic(auto, unfolding(qt_typing::specs::GateItems::gate_body_of))]
fn gate_body_of(alloc: Global, state: &mut State, gate: &GateItem) -> Result<GateBody, TextRefusal>
    ensures { Makes (spec.gate_body_of gate.now state.old) result state.new }
{
    let slots = state.slots;
    turned_inside(state, slots);
    let body = gate_inside(alloc, state, gate)?;
    turned_inside(state, slots);
    Ok(body)
}

/// What the name of a gate stands for: its numbers of parameters and qubits, and its own number.
fn gate_named(alloc: Global, number: u32, body: &GateBody) -> Result<Named, OutOfMemory>
    ensures { IfOk result (λ named. named ≡ spec.gate_named number body.now) }
{
    let mut lengths = Vec::new(alloc);
    lengths.push(body.parameters)?;
    lengths.push(body.qubits)?;
    Ok(Named {
        what: What::Gate,
        of: None,
        lengths: Lengths::from_vec(lengths),
        places: Places::Number { number },
    })
}

/// Declares a gate, whose number is behind those of the gates before it.
#[tactic(auto, unfolding(qt_typing::specs::GateItems::declare_gate))]
fn declare_gate(
    alloc: Global,
    state: &mut State,
    place: Place,
    name: &str,
    body: GateBody,
) -> Result<(), TextRefusal>
    ensures { Makes (spec.declare_gate place name.now body state.old) result state.new }
{
    let number = counted(state.gates.len())?;
    let named = gate_named(alloc, number, &body)?;
    state.gates.push(body)?;
    declare_in_both(alloc, state, place, name, named, Known::Hidden)
}

/// The body of a gate that is judged against what stands before it, without declaring it: `state` has the names before it, those that the
/// bodies of gates see, and whether the standard gates are included. The first refusal is E9 where the gate's name stands in the global
/// scope already or a parameter or qubit has the name of another, or in a call of its body E8, E10, E11, E12 or E14; a program without
/// such a gate has no typing. Behind a refusal nothing is said of the state. OpenQASM 3.0, "Gates", hierarchically defined unitary gates.
pub fn check_gate(
    alloc: Global,
    state: &mut State,
    gate: &GateItem,
) -> Result<GateBody, TextRefusal>
    ensures { Makes (steps.gate_checked gate.now state.old) result state.new }
{
    new_name(alloc, &state.names, gate.place, gate.name.text())?;
    gate_body_of(alloc, state, gate)
}

/// The body of a gate, and then its name.
fn body_and_name(alloc: Global, state: &mut State, gate: &GateItem) -> Result<(), TextRefusal>
    ensures { Makes (steps.body_and_name gate.now state.old) result state.new }
{
    let body = gate_body_of(alloc, state, gate)?;
    declare_gate(alloc, state, gate.place, gate.name.text(), body)
}

/// `gate`: E9 where the name stands in the global scope already or a parameter or qubit has the name of another, and then the first refusal
/// of its body. The names that the program sees have the gate behind it. OpenQASM 3.0, "Gates", hierarchically defined unitary gates.
#[tactic(auto, unfolding(qt_typing::specs::GateItems::gate_item))]
pub fn gate_item(alloc: Global, state: &mut State, gate: &GateItem) -> Result<(), TextRefusal>
    ensures { Makes (spec.gate_item gate.now state.old) result state.new }
{
    new_name(alloc, &state.names, gate.place, gate.name.text())?;
    body_and_name(alloc, state, gate)
}
