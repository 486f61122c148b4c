//! Expanding typed gate calls.

ghost use Rattle.std.specs.Prelude.{◌≡◌, suc, take, [], IfOk};
ghost use Rattle.qt_modify.specs.Calls as spec;
ghost use Rattle.qt_modify.specs.Calls.{argument_of, arguments_from, behind_arguments, behind_operands, cell_behind, expansion_of};
ghost use Rattle.qt_modify.specs.Calls.{fixed_phase, fixed_qubit, reached, references_from, reference_of, use_expansion};
ghost use Rattle.qt_modify.specs.Calls.{no_controls};
ghost use Rattle.qt_modify.specs.Expansions.{call_expansion, expansions_of};
ghost use Rattle.qt_modify.specs.Eighths.{Answers};
ghost use Rattle.qt_modify.specs.Known.{KnowsNeeds};

use crate::expand::{LEVELS, call_expansion};
use crate::expansion::{ExpandRefusal, Expansion};
use crate::finish::finished;
use crate::needs::needs_of;
use crate::unit::Steps;
use qt_gate_calls::body::{Called, GateBody};
use qt_instructions::reference::QubitRef;
use qt_outside::faults::OutOfMemory;
use qt_phase::phase::Phase;
use qt_primitives::unit::{Argument, Controls, UnitPrimitive};
use qt_registers::fixed::FixedQubit;
use qt_tree::place::Place;
use qt_typed::call::{GateUse, TypedCall, TypedQubit};
use qt_typed::expression::TypedPhase;
use sqlite_items::Items;
use std::alloc::{AllocError, Global};

// ---- cells

/// The next cell, which is then taken. Cells whose numbers have more than 32 bits are more than memory holds.
fn taken(next: &mut u32) -> Result<u32, AllocError>
    ensures { IfOk result (λ cell. (cell ≡ next.old) × (next.new ≡ suc next.old)) }
{
    let cell = *next;
    match cell.checked_add(1) {
        Some(behind) => {
            *next = behind;
            Ok(cell)
        }
        None => Err(AllocError),
    }
}

/// The phase of an argument, where it is fixed.
fn fixed_phase(phase: &TypedPhase) -> Option<Phase>
    ensures { result ≡ fixed_phase phase.now }
{
    match phase {
        TypedPhase::Fixed { phase } => Some(*phase),
        _ => None,
    }
}

fn argument_of(fixed: Option<Phase>, next: &mut u32) -> Result<Argument, AllocError>
    ensures { IfOk result (λ argument. (argument ≡ argument_of fixed next.old) × (next.new ≡ cell_behind fixed next.old)) }
{
    match fixed {
        Some(phase) => Ok(Argument::Fixed { phase }),
        None => Ok(Argument::Cell { cell: taken(next)? }),
    }
}

/// The arguments of a call, those that aren't fixed in cells from the next one on.
#[tactic(auto, using(crate::proofs::Lists::one_behind))]
fn arguments_from(
    alloc: Global,
    mut phases: &[TypedPhase],
    next: &mut u32,
) -> Result<Items<Argument>, AllocError>
    ensures { IfOk result (λ arguments. (arguments ≡ arguments_from next.old phases.entry.now)
        × (next.new ≡ behind_arguments next.old phases.entry.now)) }
{
    let mut arguments = Items::new(alloc);
    'phases: while let [first, rest @ ..] = phases {
        let argument = argument_of(fixed_phase(first), next)?;
        arguments.push(argument)?;
        phases = rest;
    }
    Ok(arguments)
}

/// The number, where it has eight bits.
fn as_byte(number: u64) -> Option<u8>
    ensures { result ≡ spec.as_byte number }
{
    match u8::try_from(number) {
        Ok(number) => Some(number),
        Err(_) => None,
    }
}

fn number_of(qubit: FixedQubit) -> Option<u8>
    ensures { result ≡ spec.number_of qubit }
{
    match qubit {
        FixedQubit::Number { qubit } => as_byte(qubit),
        FixedQubit::OfParameter { .. } => None,
    }
}

/// The number of an operand, where it is known.
fn fixed_qubit(operand: &TypedQubit) -> Option<u8>
    ensures { result ≡ fixed_qubit operand.now }
{
    match operand {
        TypedQubit::Fixed { qubit } => number_of(*qubit),
        _ => None,
    }
}

fn reference_of(fixed: Option<u8>, next: &mut u32) -> Result<QubitRef, AllocError>
    ensures { IfOk result (λ reference. (reference ≡ reference_of fixed next.old) × (next.new ≡ cell_behind fixed next.old)) }
{
    match fixed {
        Some(number) => Ok(QubitRef::At(number)),
        None => Ok(QubitRef::Work(taken(next)?)),
    }
}

/// The operands of a call, those whose numbers aren't known in cells from the next one on.
#[tactic(auto, using(crate::proofs::Lists::one_behind))]
fn references_from(
    alloc: Global,
    mut operands: &[TypedQubit],
    next: &mut u32,
) -> Result<Items<QubitRef>, AllocError>
    ensures { IfOk result (λ references. (references ≡ references_from next.old operands.entry.now)
        × (next.new ≡ behind_operands next.old operands.entry.now)) }
{
    let mut references = Items::new(alloc);
    'operands: while let [first, rest @ ..] = operands {
        let reference = reference_of(fixed_qubit(first), next)?;
        references.push(reference)?;
        operands = rest;
    }
    Ok(references)
}

// ---- calls

/// The gates up to that number, and all where there are fewer.
#[tactic(auto, using(crate::proofs::Calls::all_taken))]
fn up_to(gates: &[GateBody], number: usize) -> &[GateBody]
    ensures { result.now ≡ take (suc number) gates.now }
{
    if number < gates.len() {
        &gates[..number + 1]
    } else {
        gates
    }
}

/// The gates that a call may put in. Only these are gone through, so a call of a standard gate costs the same whatever is declared.
fn reached(gates: &[GateBody], gate: Called) -> &[GateBody]
    ensures { result.now ≡ reached gates.now gate }
{
    match gate {
        Called::U | Called::GlobalPhase => &[],
        Called::Gate { number } => up_to(gates, number as usize),
    }
}

/// The primitives of a gate over these gates, with the flags of the parameters that they need.
fn unit_expansion_over(
    alloc: Global,
    gates: &[GateBody],
    needs: &[Items<bool>],
    used: &GateUse,
    arguments: &[Argument],
    qubits: &[QubitRef],
    steps: &mut Steps,
) -> Result<Items<UnitPrimitive>, AllocError>
    requires { KnowsNeeds gates.now needs.now }
    ensures { IfOk result (λ primitives. call_expansion (expansions_of gates.now) used.now.modifiers used.now.gate arguments.now
        no_controls qubits.now steps.old ≡ record { steps = steps.new; primitives = primitives }) }
{
    let controls = Controls {
        ones: Items::new(alloc),
        zeros: Items::new(alloc),
    };
    call_expansion(
        alloc,
        gates,
        needs,
        LEVELS,
        used.modifiers.as_slice(),
        used.gate,
        arguments,
        &controls,
        qubits,
        steps,
    )
}

#[tactic(auto, using(crate::proofs::Calls::reached_expand))]
fn unit_expansion(
    alloc: Global,
    used: &GateUse,
    arguments: &[Argument],
    qubits: &[QubitRef],
    steps: &mut Steps,
) -> Result<Items<UnitPrimitive>, AllocError>
    ensures { IfOk result (λ primitives. call_expansion (expansions_of used.now.gates) used.now.modifiers used.now.gate arguments.now
        no_controls qubits.now steps.old ≡ record { steps = steps.new; primitives = primitives }) }
{
    let gates = reached(used.gates.bodies(), used.gate);
    let needs = needs_of(alloc, gates)?;
    unit_expansion_over(
        alloc,
        gates,
        needs.as_slice(),
        used,
        arguments,
        qubits,
        steps,
    )
}

/// No steps yet, the first of which writes that cell.
fn no_steps(alloc: Global, first: u32) -> Steps
    ensures { result ≡ record { first = first; steps = [] } }
{
    Steps {
        first,
        steps: Items::new(alloc),
    }
}

/// The steps and primitives of a gate with its modifiers, as of [`expand_use`], by the flags of the parameters that the gates need. A
/// program makes these once, by `needs_of`, and so each of its calls costs what it comes to, and not what is declared before it.
pub fn expand_known(
    alloc: Global,
    needs: &[Items<bool>],
    place: Place,
    used: &GateUse,
    arguments: &[Argument],
    qubits: &[QubitRef],
    first: u32,
) -> Result<Expansion, ExpandRefusal>
    requires { KnowsNeeds used.now.gates needs.now }
    ensures { Answers (use_expansion used.now arguments.now qubits.now first) place result }
{
    let mut steps = no_steps(alloc, first);
    let gates = used.gates.bodies();
    let primitives = unit_expansion_over(alloc, gates, needs, used, arguments, qubits, &mut steps)?;
    finished(alloc, place, steps, primitives.as_slice())
}

/// The steps and primitives of a gate with its modifiers, for its arguments and on qubits. The first step writes the cell `first`. It is
/// refused exactly where a fixed angle of a primitive is no multiple of π/4, with the units of the first such angle and that place.
/// OpenQASM 3.0, "Gates".
pub fn expand_use(
    alloc: Global,
    place: Place,
    used: &GateUse,
    arguments: &[Argument],
    qubits: &[QubitRef],
    first: u32,
) -> Result<Expansion, ExpandRefusal>
    ensures { Answers (use_expansion used.now arguments.now qubits.now first) place result }
{
    let mut steps = no_steps(alloc, first);
    let primitives = unit_expansion(alloc, used, arguments, qubits, &mut steps)?;
    finished(alloc, place, steps, primitives.as_slice())
}

/// The steps and primitives of a call. Its arguments that aren't fixed have the first work cells, then its operands whose numbers aren't
/// known, then the steps. It is refused exactly where a fixed angle of a primitive is no multiple of π/4, with the units of the first such
/// angle. OpenQASM 3.0, "Gates", applying gates.
pub fn expand(alloc: Global, call: &TypedCall) -> Result<Expansion, ExpandRefusal>
    ensures { Answers (expansion_of call.now) call.now.place result }
{
    let mut next = 0;
    let arguments = arguments_from(alloc, call.used.arguments.as_slice(), &mut next)?;
    let qubits = references_from(alloc, call.operands.as_slice(), &mut next)?;
    expand_use(
        alloc,
        call.place,
        &call.used,
        arguments.as_slice(),
        qubits.as_slice(),
        next,
    )
}
