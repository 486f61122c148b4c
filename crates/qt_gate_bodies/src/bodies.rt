//! The bodies of the standard gates without parameters, one function a form. Gates are called by the numbers of their rows.

ghost use Rattle.std.specs.Prelude.{◌≡◌, [], ◌∷◌, IfOk};
ghost use Rattle.qt_phase.specs.Phase.{IsPhase};
ghost use Rattle.qt_gate_calls.specs.Standard as spec;
ghost use Rattle.qt_gate_calls.specs.declared.angle.Angle.TheVariants as variant;

use crate::angles::{EIGHTH_TURN, HALF_TURN, QUARTER_TURN, fixed};
use crate::calls::{global_phase, row_at, row_on_two, turn};
use crate::lists;
use qt_gate_calls::angle::Angle;
use qt_gate_calls::body::{BodyCall, GateBody};
use sqlite_items::Items;
use std::alloc::{AllocError, Global};

/// The numbers of the rows that these call.
pub const P_ROW: u32 = 1;

const CX_ROW: u32 = 18;

/// A body of one call.
pub fn of_one(
    alloc: Global,
    parameters: u32,
    qubits: u32,
    call: BodyCall,
) -> Result<GateBody, AllocError>
    ensures { IfOk result (λ made. made ≡ spec.gate parameters qubits (call ∷ [])) }
{
    let calls = lists::one(alloc, call)?;
    Ok(GateBody {
        parameters,
        qubits,
        calls,
    })
}

/// A body of two calls.
pub fn of_two(
    alloc: Global,
    parameters: u32,
    qubits: u32,
    first: BodyCall,
    second: BodyCall,
) -> Result<GateBody, AllocError>
    ensures { IfOk result (λ made. made ≡ spec.gate parameters qubits (first ∷ second ∷ [])) }
{
    let calls = lists::two(alloc, first, second)?;
    Ok(GateBody {
        parameters,
        qubits,
        calls,
    })
}

/// U on one qubit, and then a global phase.
pub fn turn_and_phase(
    alloc: Global,
    parameters: u32,
    call: BodyCall,
    gamma: Angle,
) -> Result<GateBody, AllocError>
    ensures { IfOk result (λ made. made ≡ spec.gate parameters 1 (call ∷ spec.gphase gamma [] ∷ [])) }
{
    let phase = global_phase(alloc, gamma)?;
    of_two(alloc, parameters, 1, call, phase)
}

/// `id a`: U(0, 0, 0) a.
pub fn id_gate(alloc: Global) -> Result<GateBody, AllocError>
    ensures { IfOk result (λ made. made ≡ spec.id_gate) }
{
    let call = turn(alloc, fixed(0), fixed(0), fixed(0))?;
    of_one(alloc, 0, 1, call)
}

/// p at that many units.
pub fn p_at(alloc: Global, units: i64) -> Result<GateBody, AllocError>
    requires { IsPhase units }
    ensures { IfOk result (λ made. made ≡ spec.p_at (variant.Units units)) }
{
    let call = row_at(alloc, P_ROW, fixed(units))?;
    of_one(alloc, 0, 1, call)
}

/// `x a`: U(π, 0, π) a; gphase(−π/2).
pub fn x_gate(alloc: Global) -> Result<GateBody, AllocError>
    ensures { IfOk result (λ made. made ≡ spec.x_gate) }
{
    let call = turn(alloc, fixed(HALF_TURN), fixed(0), fixed(HALF_TURN))?;
    turn_and_phase(alloc, 0, call, fixed(-QUARTER_TURN))
}

/// `y a`: U(π, π/2, π/2) a; gphase(−π/2).
pub fn y_gate(alloc: Global) -> Result<GateBody, AllocError>
    ensures { IfOk result (λ made. made ≡ spec.y_gate) }
{
    let call = turn(
        alloc,
        fixed(HALF_TURN),
        fixed(QUARTER_TURN),
        fixed(QUARTER_TURN),
    )?;
    turn_and_phase(alloc, 0, call, fixed(-QUARTER_TURN))
}

/// `h a`: U(π/2, 0, π) a; gphase(−π/4).
pub fn h_gate(alloc: Global) -> Result<GateBody, AllocError>
    ensures { IfOk result (λ made. made ≡ spec.h_gate) }
{
    let call = turn(alloc, fixed(QUARTER_TURN), fixed(0), fixed(HALF_TURN))?;
    turn_and_phase(alloc, 0, call, fixed(-EIGHTH_TURN))
}

/// `sx a`: U(π/2, −π/2, π/2) a.
pub fn sx_gate(alloc: Global) -> Result<GateBody, AllocError>
    ensures { IfOk result (λ made. made ≡ spec.sx_gate) }
{
    let call = turn(
        alloc,
        fixed(QUARTER_TURN),
        fixed(-QUARTER_TURN),
        fixed(QUARTER_TURN),
    )?;
    of_one(alloc, 0, 1, call)
}

/// cx a, b; cx b, a.
fn cx_both_ways(alloc: Global) -> Result<Items<BodyCall>, AllocError>
    ensures { IfOk result (λ made. made ≡ spec.row 18 [] (0 ∷ 1 ∷ []) ∷ spec.row 18 [] (1 ∷ 0 ∷ []) ∷ []) }
{
    let first = row_on_two(alloc, CX_ROW, 0, 1)?;
    let second = row_on_two(alloc, CX_ROW, 1, 0)?;
    lists::two(alloc, first, second)
}

/// `swap a, b`: cx a, b; cx b, a; cx a, b.
pub fn swap_gate(alloc: Global) -> Result<GateBody, AllocError>
    ensures { IfOk result (λ made. made ≡ spec.swap_gate) }
{
    let mut calls = cx_both_ways(alloc)?;
    let third = row_on_two(alloc, CX_ROW, 0, 1)?;
    calls.push(third)?;
    Ok(GateBody {
        parameters: 0,
        qubits: 2,
        calls,
    })
}
