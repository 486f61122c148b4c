//! Primitives: their controls, and inverses and powers of their lists.

ghost use Rattle.std.specs.Prelude.{◌≡◌, ◌++◌, ◌∷◌, [], IfOk, OnOk};
ghost use Rattle.qt_gate_calls.specs.Primitives.{nth_or, others, picked, powered, repeated, undo};
ghost use Rattle.qt_primitives.specs.Primitives as spec;
ghost use Rattle.qt_primitives.specs.Primitives.{argument_at, behind_control, inner_controls, inner_qubits, inverse_action};
ghost use Rattle.qt_primitives.specs.Primitives.{modified, modified_by, no_qubit, one_control, phase_of, turn_of};

use crate::unit::{Action, Argument, Controls, UnitAngle, UnitPrimitive};
use qt_gate_calls::body::GateModifier;
use qt_instructions::reference::QubitRef;
use qt_phase::phase::Phase;
use sqlite_items::Items;
use std::alloc::{AllocError, Global};

// ---- qubits

/// The qubit at a place, and qubit 0 behind the end.
#[tactic(auto, using(crate::proofs::Lists::qubit_found))]
fn qubit_at(qubits: &[QubitRef], place: u32) -> QubitRef
    ensures { result ≡ nth_or no_qubit place qubits.now }
{
    qubits
        .get(place as usize)
        .copied()
        .unwrap_or(QubitRef::At(0))
}

/// The qubits that a call in a body names.
pub fn picked(
    alloc: Global,
    qubits: &[QubitRef],
    places: &[u32],
) -> Result<Items<QubitRef>, AllocError>
    ensures { IfOk result (λ named. named ≡ picked no_qubit qubits.now places.now) }
{
    let mut named = Items::new(alloc);
    for place in places {
        named.push(qubit_at(qubits, *place))?;
    }
    Ok(named)
}

fn others(qubits: &[QubitRef]) -> &[QubitRef]
    ensures { result.now ≡ others qubits.now }
{
    match qubits {
        [] => qubits,
        [_, rest @ ..] => rest,
    }
}

/// The qubits that a modifier leaves.
fn behind_control<'a>(modifier: &GateModifier, qubits: &'a [QubitRef]) -> &'a [QubitRef]
    ensures { result.now ≡ behind_control modifier.now qubits.now }
{
    match modifier {
        GateModifier::Ctrl | GateModifier::NegCtrl => others(qubits),
        _ => qubits,
    }
}

/// The qubits that the modifiers leave to the gate.
pub fn inner_qubits<'a>(
    mut modifiers: &[GateModifier],
    mut qubits: &'a [QubitRef],
) -> &'a [QubitRef]
    ensures { result.now ≡ inner_qubits modifiers.entry.now qubits.entry.now }
{
    'modifiers: while let [first, rest @ ..] = modifiers {
        qubits = behind_control(first, qubits);
        modifiers = rest;
    }
    qubits
}

// ---- controls

/// The same controls.
pub fn copied(alloc: Global, controls: &Controls) -> Result<Controls, AllocError>
    ensures { IfOk result (λ copy. copy ≡ controls.now) }
{
    let ones = Items::from_slice(alloc, controls.ones.as_slice())?;
    let zeros = Items::from_slice(alloc, controls.zeros.as_slice())?;
    Ok(Controls { ones, zeros })
}

/// Adds the control that a modifier is, with that qubit.
fn add_control(
    controls: &mut Controls,
    modifier: &GateModifier,
    qubit: QubitRef,
) -> Result<(), AllocError>
    ensures { OnOk result (controls.new ≡ one_control modifier.now qubit controls.old) }
{
    match modifier {
        GateModifier::Ctrl => controls.ones.push(qubit),
        GateModifier::NegCtrl => controls.zeros.push(qubit),
        _ => Ok(()),
    }
}

/// Adds the controls that stand among the modifiers, each with the first of the qubits that are left.
fn add_controls(
    controls: &mut Controls,
    mut modifiers: &[GateModifier],
    mut qubits: &[QubitRef],
) -> Result<(), AllocError>
    ensures { OnOk result (controls.new ≡ inner_controls modifiers.entry.now qubits.entry.now controls.old) }
{
    'modifiers: while let [first, rest @ ..] = modifiers {
        add_control(controls, first, qubit_at(qubits, 0))?;
        qubits = behind_control(first, qubits);
        modifiers = rest;
    }
    Ok(())
}

/// The controls under which the gate of a call stands.
pub fn inner_controls(
    alloc: Global,
    controls: &Controls,
    modifiers: &[GateModifier],
    qubits: &[QubitRef],
) -> Result<Controls, AllocError>
    ensures { IfOk result (λ inner. inner ≡ inner_controls modifiers.now qubits.now controls.now) }
{
    let mut inner = copied(alloc, controls)?;
    add_controls(&mut inner, modifiers, qubits)?;
    Ok(inner)
}

// ---- primitives

/// The argument with that number, and no angle behind the end.
#[tactic(auto, using(crate::proofs::Lists::argument_found))]
pub fn argument_at(given: &[Argument], number: u32) -> Argument
    ensures { result ≡ argument_at number given.now }
{
    given
        .get(number as usize)
        .copied()
        .unwrap_or(Argument::Fixed {
            phase: Phase::zero(),
        })
}

fn angle_of(argument: &Argument) -> UnitAngle
    ensures { result ≡ spec.angle_of argument.now }
{
    match argument {
        Argument::Fixed { phase } => UnitAngle::Fixed { phase: *phase },
        Argument::Cell { cell } => UnitAngle::Cell {
            cell: *cell,
            negated: false,
        },
    }
}

fn angle_at(arguments: &[Argument], number: u32) -> UnitAngle
    ensures { result ≡ spec.angle_of (argument_at number arguments.now) }
{
    angle_of(&argument_at(arguments, number))
}

/// U on the first of the qubits, with the first three arguments.
pub fn turn_of(arguments: &[Argument], qubits: &[QubitRef]) -> Action
    ensures { result ≡ turn_of arguments.now qubits.now }
{
    Action::Turn {
        target: qubit_at(qubits, 0),
        theta: angle_at(arguments, 0),
        phi: angle_at(arguments, 1),
        lambda: angle_at(arguments, 2),
    }
}

/// gphase with the first argument.
pub fn phase_of(arguments: &[Argument]) -> Action
    ensures { result ≡ phase_of arguments.now }
{
    Action::Phase {
        angle: angle_at(arguments, 0),
    }
}

/// One primitive alone.
pub fn one_primitive(
    alloc: Global,
    action: Action,
    controls: Controls,
) -> Result<Items<UnitPrimitive>, AllocError>
    ensures { IfOk result (λ primitives. primitives ≡ record { controls = controls; action = action } ∷ []) }
{
    let mut primitives = Items::new(alloc);
    primitives.push(UnitPrimitive { controls, action })?;
    Ok(primitives)
}

fn minus(angle: UnitAngle) -> UnitAngle
    ensures { result ≡ spec.minus angle }
{
    match angle {
        UnitAngle::Fixed { phase } => UnitAngle::Fixed { phase: phase.neg() },
        UnitAngle::Cell { cell, negated } => UnitAngle::Cell {
            cell,
            negated: !negated,
        },
    }
}

fn inverse_action(action: Action) -> Action
    ensures { result ≡ inverse_action action }
{
    match action {
        Action::Turn {
            target,
            theta,
            phi,
            lambda,
        } => Action::Turn {
            target,
            theta: minus(theta),
            phi: minus(lambda),
            lambda: minus(phi),
        },
        Action::Phase { angle } => Action::Phase {
            angle: minus(angle),
        },
    }
}

fn inverse_of(primitive: UnitPrimitive) -> UnitPrimitive
    ensures { result ≡ spec.inverse_of primitive }
{
    let UnitPrimitive { controls, action } = primitive;
    UnitPrimitive {
        controls,
        action: inverse_action(action),
    }
}

// ---- lists of primitives

/// The inverses in reverse order.
#[tactic(auto, using(crate::proofs::Lists::undo_last, crate::proofs::Lists::one_behind))]
fn undone(
    alloc: Global,
    primitives: Items<UnitPrimitive>,
) -> Result<Items<UnitPrimitive>, AllocError>
    ensures { IfOk result (λ undone. undone ≡ undo spec.inverse_of primitives) }
{
    let mut left = primitives;
    let mut undone = Items::new(alloc);
    while let Some(primitive) = left.pop() {
        undone.push(inverse_of(primitive))?;
    }
    Ok(undone)
}

fn copy_of(alloc: Global, primitive: &UnitPrimitive) -> Result<UnitPrimitive, AllocError>
    ensures { IfOk result (λ copy. copy ≡ primitive.now) }
{
    let controls = copied(alloc, &primitive.controls)?;
    Ok(UnitPrimitive {
        controls,
        action: primitive.action,
    })
}

/// Adds copies of the primitives.
#[tactic(auto, using(crate::proofs::Lists::one_more_copied))]
fn copy_onto(
    alloc: Global,
    primitives: &[UnitPrimitive],
    onto: &mut Items<UnitPrimitive>,
) -> Result<(), AllocError>
    ensures { OnOk result (onto.new ≡ onto.old ++ primitives.now) }
{
    for primitive in primitives {
        let copy = copy_of(alloc, primitive)?;
        onto.push(copy)?;
    }
    Ok(())
}

fn copies(
    alloc: Global,
    times: u32,
    primitives: &[UnitPrimitive],
) -> Result<Items<UnitPrimitive>, AllocError>
    ensures { IfOk result (λ copies. copies ≡ repeated times primitives.now) }
{
    let mut copies = Items::new(alloc);
    for _i in 0..times {
        copy_onto(alloc, primitives, &mut copies)?;
    }
    Ok(copies)
}

/// The list so many times. No list is gone through where there is nothing to repeat.
#[tactic(auto, using(crate::proofs::Lists::repeated_nothing))]
fn repeated(
    alloc: Global,
    times: u32,
    primitives: &[UnitPrimitive],
) -> Result<Items<UnitPrimitive>, AllocError>
    ensures { IfOk result (λ copies. copies ≡ repeated times primitives.now) }
{
    match primitives {
        [] => Ok(Items::new(alloc)),
        [_, ..] => copies(alloc, times, primitives),
    }
}

/// The power: for a negative exponent that of the inverse.
#[tactic(auto, using(crate::proofs::Lists::powered_up, crate::proofs::Lists::powered_down))]
fn powered(
    alloc: Global,
    exponent: i32,
    primitives: Items<UnitPrimitive>,
) -> Result<Items<UnitPrimitive>, AllocError>
    ensures { IfOk result (λ power. power ≡ powered spec.inverse_of exponent primitives) }
{
    if exponent >= 0 {
        repeated(alloc, exponent.unsigned_abs(), primitives.as_slice())
    } else {
        let undone = undone(alloc, primitives)?;
        repeated(alloc, exponent.unsigned_abs(), undone.as_slice())
    }
}

fn modified_by(
    alloc: Global,
    modifier: &GateModifier,
    primitives: Items<UnitPrimitive>,
) -> Result<Items<UnitPrimitive>, AllocError>
    ensures { IfOk result (λ more. more ≡ modified_by modifier.now primitives) }
{
    match modifier {
        GateModifier::Inv => undone(alloc, primitives),
        GateModifier::Pow { exponent } => powered(alloc, *exponent, primitives),
        GateModifier::Ctrl | GateModifier::NegCtrl => Ok(primitives),
    }
}

/// The primitives under the inverses and powers among the modifiers, the first of which is the outermost.
pub fn modified(
    alloc: Global,
    modifiers: &[GateModifier],
    primitives: Items<UnitPrimitive>,
) -> Result<Items<UnitPrimitive>, AllocError>
    ensures { IfOk result (λ more. more ≡ modified modifiers.now primitives) }
{
    let mut more = primitives;
    let mut left = modifiers.len();
    while left > 0 {
        left -= 1;
        more = modified_by(alloc, &modifiers[left], more)?;
    }
    Ok(more)
}
