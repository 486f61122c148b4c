//! The last pass over the primitives of a call: their angles in numbers of π/4, or the refusal.

ghost use Rattle.std.specs.Prelude.{◌≡◌, map, IfOk};
ghost use Rattle.qt_gate_calls.specs.Faults.{or_later};
ghost use Rattle.qt_modify.specs.Eighths.{Answers, angle_ref, first_wrong, under_controls, with_eighths, wrong_action, wrong_angle};

use crate::expansion::{ExpandRefusal, Expansion};
use crate::unit::Steps;
use qt_instructions::primitive::Primitive;
use qt_instructions::reference::{AngleRef, QubitRef, Refs};
use qt_primitives::unit::{Action, UnitAngle, UnitPrimitive};
use qt_tree::place::Place;
use sqlite_items::Items;
use std::alloc::{AllocError, Global};

/// The units of a fixed angle that is no multiple of π/4.
fn wrong_angle(angle: &UnitAngle) -> Option<i64>
    ensures { result ≡ wrong_angle angle.now }
{
    match angle {
        UnitAngle::Fixed { phase } => match phase.eighth() {
            Some(_) => None,
            None => Some(phase.units()),
        },
        UnitAngle::Cell { .. } => None,
    }
}

fn or_later(first: Option<i64>, later: Option<i64>) -> Option<i64>
    ensures { result ≡ or_later first later }
{
    match first {
        Some(units) => Some(units),
        None => later,
    }
}

fn wrong_action(action: &Action) -> Option<i64>
    ensures { result ≡ wrong_action action.now }
{
    match action {
        Action::Turn {
            theta,
            phi,
            lambda,
            ..
        } => or_later(
            wrong_angle(theta),
            or_later(wrong_angle(phi), wrong_angle(lambda)),
        ),
        Action::Phase { angle } => wrong_angle(angle),
    }
}

/// The units of the first fixed angle that is no multiple of π/4.
fn first_wrong(mut primitives: &[UnitPrimitive]) -> Option<i64>
    ensures { result ≡ first_wrong primitives.entry.now }
{
    'primitives: while let [first, rest @ ..] = primitives {
        if let Some(units) = wrong_action(&first.action) {
            return Some(units);
        }
        primitives = rest;
    }
    None
}

fn angle_ref(angle: &UnitAngle) -> AngleRef
    ensures { result ≡ angle_ref angle.now }
{
    match angle {
        UnitAngle::Fixed { phase } => AngleRef::Eighth(phase.eighth().unwrap_or(0)),
        UnitAngle::Cell { cell, negated } => AngleRef::Work(*cell, *negated),
    }
}

fn refs(alloc: Global, qubits: &[QubitRef]) -> Result<Refs, AllocError>
    ensures { IfOk result (λ refs. refs ≡ qubits.now) }
{
    let qubits = Vec::from_slice(alloc, qubits)?;
    Ok(Refs::from_vec(qubits))
}

fn under_controls(ones: Refs, zeros: Refs, action: &Action) -> Primitive
    ensures { result ≡ under_controls (record { ones = ones; zeros = zeros }) action.now }
{
    match action {
        Action::Turn {
            target,
            theta,
            phi,
            lambda,
        } => Primitive::Turn {
            ones,
            zeros,
            target: *target,
            theta: angle_ref(theta),
            phi: angle_ref(phi),
            lambda: angle_ref(lambda),
        },
        Action::Phase { angle } => Primitive::Phase {
            ones,
            zeros,
            angle: angle_ref(angle),
        },
    }
}

fn with_eighths(alloc: Global, primitive: &UnitPrimitive) -> Result<Primitive, AllocError>
    ensures { IfOk result (λ made. made ≡ with_eighths primitive.now) }
{
    let ones = refs(alloc, primitive.controls.ones.as_slice())?;
    let zeros = refs(alloc, primitive.controls.zeros.as_slice())?;
    Ok(under_controls(ones, zeros, &primitive.action))
}

#[tactic(auto, using(crate::proofs::Lists::one_more_made))]
fn all_with_eighths(
    alloc: Global,
    primitives: &[UnitPrimitive],
) -> Result<Items<Primitive>, AllocError>
    ensures { IfOk result (λ made. made ≡ map with_eighths primitives.now) }
{
    let mut made = Items::new(alloc);
    for primitive in primitives {
        let one = with_eighths(alloc, primitive)?;
        made.push(one)?;
    }
    Ok(made)
}

/// The answer to a call at that place with these steps and primitives. OpenQASM 3.0, "Gates", built-in gates.
pub fn finished(
    alloc: Global,
    place: Place,
    steps: Steps,
    primitives: &[UnitPrimitive],
) -> Result<Expansion, ExpandRefusal>
    ensures { Answers (record { steps = steps; primitives = primitives.now }) place result }
{
    if let Some(units) = first_wrong(primitives) {
        return Err(ExpandRefusal::Angle { place, units });
    }
    let primitives = all_with_eighths(alloc, primitives)?;
    let Steps { steps, .. } = steps;
    Ok(Expansion { steps, primitives })
}
