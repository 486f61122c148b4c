//! The bodies of declared gates.

ghost use Rattle.std.specs.Prelude.{◌≡◌, [], ◌∷◌, option_to_list, IfOk};
ghost use Rattle.qt_typing.specs.Checked.{Gives};
ghost use Rattle.qt_typing.specs.GateItems as spec;

use crate::angles::angles_from;
use crate::operators::operators_in;
use qt_check_gate_calls::gates::{Gate, count_fits, gate_called, written_arguments};
use qt_check_gate_calls::modifiers::{controls, modifiers_from};
use qt_check_gate_calls::operands::operands_from;
use qt_check_qubits::qubits::qubits_named;
use qt_gate_calls::body::{BodyCall, GateModifier};
use qt_outside::faults::OutOfMemory;
use qt_tree::expression::Expr;
use qt_tree::label::Label;
use qt_tree::place::Place;
use qt_tree::program::{GateForm, GateStatement};
use qt_tree::refusal::TextRefusal;
use qt_tree::statement::{GateCall, Operand};
use qt_typed::call::{TypedQubit, TypedQubits};
use qt_typing::names::Names;
use sqlite_items::Items;
use std::alloc::Global;

/// The number of a qubit of the gate.
fn body_qubit(operand: &TypedQubits) -> Option<u32>
    ensures { option_to_list result ≡ spec.body_qubits (operand.now ∷ []) }
{
    match operand {
        TypedQubits::Single { qubit } => match qubit {
            TypedQubit::Slot { slot } => Some(*slot),
            _ => None,
        },
        TypedQubits::Register { .. } => None,
    }
}

/// The qubits of the gate by their numbers.
#[tactic(auto, using(crate::proofs::BodyQubits::one_more))]
fn body_qubits(alloc: Global, mut operands: &[TypedQubits]) -> Result<Items<u32>, OutOfMemory>
    ensures { IfOk result (λ qubits. qubits ≡ spec.body_qubits operands.entry.now) }
{
    let mut qubits = Items::new(alloc);
    while let [operand, rest @ ..] = operands {
        if let Some(number) = body_qubit(operand) {
            qubits.push(number)?;
        }
        operands = rest;
    }
    Ok(qubits)
}

/// A call in a body of a gate that is found: E14 of another number of parameters, or of qubits with those of the controls.
#[tactic(auto, unfolding(qt_typing::specs::GateItems::body_call_with))]
fn body_call_with(
    alloc: Global,
    place: Place,
    arguments: &[Expr],
    operands: &[Operand],
    modifiers: Items<GateModifier>,
    gate: Gate,
    names: &Names,
) -> Result<BodyCall, TextRefusal>
    ensures { Gives (spec.body_call_with place arguments.now operands.now modifiers gate names.now) result }
{
    count_fits(place, u64::from(gate.parameters), arguments.len() as u64)?;
    let angles = angles_from(alloc, names, place, arguments)?;
    let wanted = controls(modifiers.as_slice()) + u64::from(gate.qubits);
    count_fits(place, wanted, operands.len() as u64)?;
    let all = operands_from(alloc, names, place, operands)?;
    let qubits = body_qubits(alloc, all.as_slice())?;
    let operators = operators_in(arguments)?;
    Ok(BodyCall {
        modifiers,
        gate: gate.called,
        angles,
        qubits,
        operators,
    })
}

/// A call in a body, or its first refusal from left to right, as of a gate call; its arguments are angles of the gate's parameters.
#[tactic(auto, unfolding(qt_typing::specs::GateItems::body_call))]
fn body_call(
    alloc: Global,
    place: Place,
    included: bool,
    call: &GateCall,
    names: &Names,
) -> Result<BodyCall, TextRefusal>
    ensures { Gives (spec.body_call place included call.now names.now) result }
{
    let modifiers = modifiers_from(alloc, names, place, call.modifiers.as_slice())?;
    let gate = gate_called(alloc, names, included, place, &call.gate)?;
    body_call_with(
        alloc,
        place,
        written_arguments(&call.gate),
        call.operands.as_slice(),
        modifiers,
        gate,
        names,
    )
}

/// A barrier in a body, whose names are those of qubits.
#[tactic(auto, unfolding(qt_typing::specs::GateItems::body_barrier))]
fn body_barrier(
    alloc: Global,
    place: Place,
    mut qubits: &[Label],
    names: &Names,
) -> Result<(), TextRefusal>
    ensures { Gives (spec.body_barrier place qubits.entry.now names.now) result }
{
    while let [name, rest @ ..] = qubits {
        qubits_named(alloc, names, place, name)?;
        qubits = rest;
    }
    Ok(())
}

/// The one call.
fn one_call(alloc: Global, call: BodyCall) -> Result<Items<BodyCall>, OutOfMemory>
    ensures { IfOk result (λ calls. calls ≡ call ∷ []) }
{
    let mut calls = Items::new(alloc);
    calls.push(call)?;
    Ok(calls)
}

/// The call that a statement of a body is; a barrier is none.
fn body_statement(
    alloc: Global,
    place: Place,
    included: bool,
    form: &GateForm,
    names: &Names,
) -> Result<Items<BodyCall>, TextRefusal>
    ensures { Gives (spec.body_statement place included form.now names.now) result }
{
    match form {
        GateForm::Call { call } => {
            let call = body_call(alloc, place, included, call, names)?;
            Ok(one_call(alloc, call)?)
        }
        GateForm::Barrier { qubits } => {
            body_barrier(alloc, place, qubits.as_slice(), names)?;
            Ok(Items::new(alloc))
        }
    }
}

/// The calls of a body, in order, or the first refusal of its statements. OpenQASM 3.0, "Gates", hierarchically defined unitary gates.
#[tactic(auto, unfolding(qt_typing::specs::GateItems::body_from))]
pub fn body_from(
    alloc: Global,
    included: bool,
    mut statements: &[GateStatement],
    names: &Names,
) -> Result<Items<BodyCall>, TextRefusal>
    ensures { Gives (spec.body_from included [] statements.entry.now names.now) result }
{
    let mut calls = Items::new(alloc);
    while let [statement, rest @ ..] = statements {
        let more = body_statement(alloc, statement.place, included, &statement.form, names)?;
        calls.append(more)?;
        statements = rest;
    }
    Ok(calls)
}
