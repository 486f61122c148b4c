//! The primitives of a call, with the steps that their angles need.

ghost use Rattle.std.specs.Prelude.{◌≡◌, ◌+◌, IfOk};
ghost use Rattle.qt_modify.specs.Expansions as spec;
ghost use Rattle.qt_modify.specs.Expansions.{body_call_expansion, called_expansion, calls_expansion, expansions_of};
ghost use Rattle.qt_modify.specs.Known.{KnowsNeeds};

use crate::arguments::arguments_of;
use crate::needs::are_idle;
use crate::unit::Steps;
use qt_gate_calls::body::{BodyCall, Called, GateBody, GateModifier};
use qt_instructions::reference::QubitRef;
use qt_primitives::primitives::{
    inner_controls, inner_qubits, modified, one_primitive, phase_of, picked, turn_of,
};
use qt_primitives::unit::{Argument, Controls, UnitPrimitive};
use sqlite_items::{Items, at};
use std::alloc::{AllocError, Global};

/// How many bodies may stand in one another, each called in the one around it. Where there are more, the answer is want of memory, since
/// each takes a part of the stack.
pub const LEVELS: u32 = 1024;

/// The levels that are left inside of a body.
fn inner_levels(levels: u32) -> Result<u32, AllocError>
    ensures { IfOk result (λ inner. inner + 1 ≡ levels) }
{
    levels.checked_sub(1).ok_or(AllocError)
}

/// The primitives of a call under its modifiers, under controls and on its qubits. The steps that they need come behind the steps so far.
/// `needs` has the flags of the parameters that each gate needs, and no more than `levels` bodies may stand in one another. OpenQASM 3.0,
/// "Gates", quantum gate modifiers.
#[cycle(expand)]
pub fn call_expansion(
    alloc: Global,
    gates: &[GateBody],
    needs: &[Items<bool>],
    levels: u32,
    modifiers: &[GateModifier],
    gate: Called,
    arguments: &[Argument],
    controls: &Controls,
    qubits: &[QubitRef],
    steps: &mut Steps,
) -> Result<Items<UnitPrimitive>, AllocError>
    requires { KnowsNeeds gates.now needs.now }
    ensures { IfOk result (λ primitives. spec.call_expansion (expansions_of gates.now) modifiers.now gate arguments.now controls.now
        qubits.now steps.old ≡ record { steps = steps.new; primitives = primitives }) }
{
    if are_idle(modifiers) {
        return Ok(Items::new(alloc));
    }
    let inner = inner_controls(alloc, controls, modifiers, qubits)?;
    let own = inner_qubits(modifiers, qubits);
    let primitives = called_expansion(
        alloc, gates, needs, levels, gate, arguments, inner, own, steps,
    )?;
    modified(alloc, modifiers, primitives)
}

/// The primitives of what a call calls.
#[cycle(expand)]
fn called_expansion(
    alloc: Global,
    gates: &[GateBody],
    needs: &[Items<bool>],
    levels: u32,
    gate: Called,
    arguments: &[Argument],
    controls: Controls,
    qubits: &[QubitRef],
    steps: &mut Steps,
) -> Result<Items<UnitPrimitive>, AllocError>
    requires { KnowsNeeds gates.now needs.now }
    ensures { IfOk result (λ primitives. called_expansion (expansions_of gates.now) gate arguments.now controls qubits.now steps.old
        ≡ record { steps = steps.new; primitives = primitives }) }
{
    match gate {
        Called::U => one_primitive(alloc, turn_of(arguments, qubits), controls),
        Called::GlobalPhase => one_primitive(alloc, phase_of(arguments), controls),
        Called::Gate { number } => gate_expansion(
            alloc,
            gates,
            needs,
            inner_levels(levels)?,
            number as usize,
            arguments,
            &controls,
            qubits,
            steps,
        ),
    }
}

/// The primitives of the gate with that number, which are those of its body over the gates before it.
#[cycle(expand)]
fn gate_expansion(
    alloc: Global,
    gates: &[GateBody],
    needs: &[Items<bool>],
    levels: u32,
    number: usize,
    arguments: &[Argument],
    controls: &Controls,
    qubits: &[QubitRef],
    steps: &mut Steps,
) -> Result<Items<UnitPrimitive>, AllocError>
    requires { KnowsNeeds gates.now needs.now }
    ensures { IfOk result (λ primitives. (expansions_of gates.now number).expander arguments.now controls.now qubits.now steps.old
        ≡ record { steps = steps.new; primitives = primitives }) }
{
    match at(gates, number) {
        None => Ok(Items::new(alloc)),
        Some(body) => calls_expansion(
            alloc,
            &gates[..number],
            needs,
            levels,
            body.calls.as_slice(),
            arguments,
            controls,
            qubits,
            steps,
        ),
    }
}

/// The primitives of the calls of a body, in order.
#[cycle(expand)]
fn calls_expansion(
    alloc: Global,
    gates: &[GateBody],
    needs: &[Items<bool>],
    levels: u32,
    calls: &[BodyCall],
    given: &[Argument],
    controls: &Controls,
    qubits: &[QubitRef],
    steps: &mut Steps,
) -> Result<Items<UnitPrimitive>, AllocError>
    requires { KnowsNeeds gates.now needs.now }
    ensures { IfOk result (λ primitives. calls_expansion (expansions_of gates.now) calls.now given.now controls.now qubits.now steps.old
        ≡ record { steps = steps.new; primitives = primitives }) }
{
    let mut primitives = Items::new(alloc);
    for call in calls {
        let more = body_call_expansion(
            alloc, gates, needs, levels, call, given, controls, qubits, steps,
        )?;
        primitives.append(more)?;
    }
    Ok(primitives)
}

/// The primitives of a call in a body, for the arguments and the qubits of the gate whose body it is.
#[cycle(expand)]
fn body_call_expansion(
    alloc: Global,
    gates: &[GateBody],
    needs: &[Items<bool>],
    levels: u32,
    call: &BodyCall,
    given: &[Argument],
    controls: &Controls,
    qubits: &[QubitRef],
    steps: &mut Steps,
) -> Result<Items<UnitPrimitive>, AllocError>
    requires { KnowsNeeds gates.now needs.now }
    ensures { IfOk result (λ primitives. body_call_expansion (expansions_of gates.now) call.now given.now controls.now qubits.now steps.old
        ≡ record { steps = steps.new; primitives = primitives }) }
{
    let arguments = arguments_of(alloc, gates, needs, call, given, steps)?;
    let named = picked(alloc, qubits, call.qubits.as_slice())?;
    call_expansion(
        alloc,
        gates,
        needs,
        levels,
        call.modifiers.as_slice(),
        call.gate,
        arguments.as_slice(),
        controls,
        named.as_slice(),
        steps,
    )
}
