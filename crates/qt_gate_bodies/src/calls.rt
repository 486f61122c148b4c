//! The calls in the bodies of the standard gates.

ghost use Rattle.std.specs.Prelude.{◌≡◌, [], ◌∷◌, IfOk};
ghost use Rattle.qt_gate_calls.specs.Standard as spec;

use crate::angles::given;
use crate::lists;
use qt_gate_calls::angle::Angle;
use qt_gate_calls::body::{BodyCall, Called, GateModifier};
use sqlite_items::Items;
use std::alloc::{AllocError, Global};

/// A call, written without operators.
pub fn call(
    modifiers: Items<GateModifier>,
    gate: Called,
    angles: Items<Angle>,
    qubits: Items<u32>,
) -> BodyCall
    ensures { result ≡ record (spec.call gate angles qubits) { modifiers = modifiers } }
{
    BodyCall {
        modifiers,
        gate,
        angles,
        qubits,
        operators: 0,
    }
}

/// A call without modifiers.
fn plain(alloc: Global, gate: Called, angles: Items<Angle>, qubits: Items<u32>) -> BodyCall
    ensures { result ≡ spec.call gate angles qubits }
{
    call(Items::new(alloc), gate, angles, qubits)
}

/// A call under one control.
pub fn controlled(
    alloc: Global,
    gate: Called,
    angles: Items<Angle>,
    qubits: Items<u32>,
) -> Result<BodyCall, AllocError>
    ensures { IfOk result (λ made. made ≡ spec.under_control (spec.call gate angles qubits)) }
{
    let modifiers = lists::one(alloc, GateModifier::Ctrl)?;
    Ok(call(modifiers, gate, angles, qubits))
}

/// U on the first qubit.
pub fn turn(alloc: Global, theta: Angle, phi: Angle, lambda: Angle) -> Result<BodyCall, AllocError>
    ensures { IfOk result (λ made. made ≡ spec.u theta phi lambda (0 ∷ [])) }
{
    let angles = lists::three(alloc, theta, phi, lambda)?;
    let qubits = lists::one(alloc, 0)?;
    Ok(plain(alloc, Called::U, angles, qubits))
}

/// A global phase.
pub fn global_phase(alloc: Global, gamma: Angle) -> Result<BodyCall, AllocError>
    ensures { IfOk result (λ made. made ≡ spec.gphase gamma []) }
{
    let angles = lists::one(alloc, gamma)?;
    Ok(plain(alloc, Called::GlobalPhase, angles, Items::new(alloc)))
}

/// A row of the table with one angle, on the first qubit.
pub fn row_at(alloc: Global, number: u32, angle: Angle) -> Result<BodyCall, AllocError>
    ensures { IfOk result (λ made. made ≡ spec.row number (angle ∷ []) (0 ∷ [])) }
{
    let angles = lists::one(alloc, angle)?;
    let on_first = lists::one(alloc, 0)?;
    Ok(plain(alloc, Called::Gate { number }, angles, on_first))
}

/// A row of the table without angles, on two qubits.
pub fn row_on_two(
    alloc: Global,
    number: u32,
    first: u32,
    second: u32,
) -> Result<BodyCall, AllocError>
    ensures { IfOk result (λ made. made ≡ spec.row number [] (first ∷ second ∷ [])) }
{
    let qubits = lists::two(alloc, first, second)?;
    Ok(plain(alloc, Called::Gate { number }, Items::new(alloc), qubits))
}

/// ctrl @ U(θ, φ, λ) a, b, by the first three parameters.
pub fn controlled_u(alloc: Global) -> Result<BodyCall, AllocError>
    ensures { IfOk result (λ made.
        made ≡ spec.under_control (spec.u (spec.given 0) (spec.given 1) (spec.given 2) (0 ∷ 1 ∷ []))) }
{
    let angles = lists::three(alloc, given(0), given(1), given(2))?;
    let on_both = lists::two(alloc, 0, 1)?;
    controlled(alloc, Called::U, angles, on_both)
}
