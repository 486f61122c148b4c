//! Gate calls.

ghost use Rattle.std.specs.Prelude.{◌≡◌, IfOk, None, Some};
ghost use Rattle.qt_typing.specs.Checked.{Gives};
ghost use Rattle.qt_typing.specs.Gates as spec;

use crate::arguments::phases_from;
use crate::gates::{Gate, gate_called, written_arguments};
use crate::modifiers::{controls, modifiers_from};
use crate::operands::{operands_from, singles};
use qt_check_rules::counts::count_fits;
use qt_check_rules::operands::size_of_all;
use qt_gate_calls::body::{Called, GateBodies, GateModifier};
use qt_outside::faults::OutOfMemory;
use qt_tree::expression::Expr;
use qt_tree::place::Place;
use qt_tree::refusal::TextRefusal;
use qt_tree::statement::{GateCall, Operand};
use qt_typed::call::{Broadcast, GateUse, TypedCall, TypedQubits};
use qt_typed::expression::TypedPhase;
use qt_typed::statement::TypedAction;
use qt_typing::names::Names;
use sqlite_items::Items;
use std::alloc::Global;

/// One call on single qubits.
fn single_call(
    alloc: Global,
    place: Place,
    used: GateUse,
    operands: Items<TypedQubits>,
) -> Result<TypedAction, OutOfMemory>
    ensures { IfOk result (λ action. action ≡ spec.gate_action place used None operands) }
{
    let operands = singles(alloc, operands)?;
    Ok(TypedAction::Gate {
        call: TypedCall {
            place,
            used,
            operands,
        },
    })
}

/// One call for each place of registers of that size.
fn broadcast(
    place: Place,
    used: GateUse,
    size: u64,
    operands: Items<TypedQubits>,
) -> Result<TypedAction, OutOfMemory>
    ensures { IfOk result (λ action. action ≡ spec.gate_action place used (Some size) operands) }
{
    match u32::try_from(size) {
        Ok(size) => Ok(TypedAction::Broadcast {
            call: Broadcast {
                place,
                used,
                operands,
                size,
            },
        }),
        Err(_) => Err(OutOfMemory),
    }
}

/// One call on single qubits, or one for each place of the registers. A register of 2^32 qubits or more, which no check declares, is
/// refused as if memory wanted.
fn gate_action(
    alloc: Global,
    place: Place,
    used: GateUse,
    size: Option<u64>,
    operands: Items<TypedQubits>,
) -> Result<TypedAction, OutOfMemory>
    ensures { IfOk result (λ action. action ≡ spec.gate_action place used size operands) }
{
    match size {
        None => single_call(alloc, place, used, operands),
        Some(size) => broadcast(place, used, size, operands),
    }
}

/// A gate with its modifiers and arguments.
fn used(
    gates: &GateBodies,
    modifiers: Items<GateModifier>,
    gate: Called,
    arguments: Items<TypedPhase>,
) -> Result<GateUse, OutOfMemory>
    ensures { IfOk result
        (λ used. used ≡ record { gates = gates.now; modifiers = modifiers; gate = gate; arguments = arguments }) }
{
    let gates = gates.share()?;
    Ok(GateUse {
        gates,
        modifiers,
        gate,
        arguments,
    })
}

/// A call of a gate that is found: E14 of another number of parameters, or of qubits with those of the controls.
#[tactic(auto, unfolding(qt_typing::specs::Gates::call_with))]
fn call_with(
    alloc: Global,
    place: Place,
    gates: &GateBodies,
    arguments: &[Expr],
    operands: &[Operand],
    modifiers: Items<GateModifier>,
    gate: Gate,
    names: &Names,
) -> Result<TypedAction, TextRefusal>
    ensures { Gives (spec.call_with place gates.now arguments.now operands.now modifiers gate names.now) result }
{
    count_fits(place, u64::from(gate.parameters), arguments.len() as u64)?;
    let phases = phases_from(alloc, names, place, arguments)?;
    let wanted = controls(modifiers.as_slice()) + u64::from(gate.qubits);
    count_fits(place, wanted, operands.len() as u64)?;
    let all = operands_from(alloc, names, place, operands)?;
    let used = used(gates, modifiers, gate.called, phases)?;
    let size = size_of_all(all.as_slice());
    Ok(gate_action(alloc, place, used, size, all)?)
}

/// A gate call in a statement at that place, of the gates of a program: one call, or one for each place of its registers. Or its first
/// refusal from left to right: of the modifiers, of the gate's name, of the number of parameters, of each argument, of the number of
/// qubits, and then of each operand: of its name and index, E14 of a register of another size than the first, E11 `qubit` of a qubit that
/// stands twice. OpenQASM 3.0, "Gates", applying gates.
#[tactic(auto, unfolding(qt_typing::specs::Gates::gate_call))]
pub fn gate_call(
    alloc: Global,
    place: Place,
    included: bool,
    gates: &GateBodies,
    call: &GateCall,
    names: &Names,
) -> Result<TypedAction, TextRefusal>
    ensures { Gives (spec.gate_call place included gates.now call.now names.now) result }
{
    let modifiers = modifiers_from(alloc, names, place, call.modifiers.as_slice())?;
    let gate = gate_called(alloc, names, included, place, &call.gate)?;
    call_with(
        alloc,
        place,
        gates,
        written_arguments(&call.gate),
        call.operands.as_slice(),
        modifiers,
        gate,
        names,
    )
}
