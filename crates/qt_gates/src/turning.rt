//! The bodies of the standard gates that turn one qubit by their parameters.

ghost use Rattle.std.specs.Prelude.{◌≡◌, [], ◌∷◌, IfOk};
ghost use Rattle.qt_gate_calls.specs.Standard as spec;

use crate::angles::half_sum_back;
use qt_gate_bodies::angles::{QUARTER_TURN, fixed, given, half_back};
use qt_gate_bodies::bodies::{of_two, turn_and_phase};
use qt_gate_bodies::calls::{global_phase, turn};
use qt_gate_calls::angle::Angle;
use qt_gate_calls::body::{BodyCall, GateBody};
use std::alloc::{AllocError, Global};

/// A global phase, and then U on one qubit.
fn phase_and_turn(
    alloc: Global,
    parameters: u32,
    gamma: Angle,
    call: BodyCall,
) -> Result<GateBody, AllocError>
    ensures { IfOk result (λ made. made ≡ spec.gate parameters 1 (spec.gphase gamma [] ∷ call ∷ [])) }
{
    let phase = global_phase(alloc, gamma)?;
    of_two(alloc, parameters, 1, phase, call)
}

/// `rx(θ) a`: U(θ, −π/2, π/2) a; gphase(−θ/2).
pub fn rx_gate(alloc: Global) -> Result<GateBody, AllocError>
    ensures { IfOk result (λ made. made ≡ spec.rx_gate) }
{
    let call = turn(alloc, given(0), fixed(-QUARTER_TURN), fixed(QUARTER_TURN))?;
    let gamma = half_back(alloc, given(0))?;
    turn_and_phase(alloc, 1, call, gamma)
}

/// `ry(θ) a`: U(θ, 0, 0) a; gphase(−θ/2).
pub fn ry_gate(alloc: Global) -> Result<GateBody, AllocError>
    ensures { IfOk result (λ made. made ≡ spec.ry_gate) }
{
    let call = turn(alloc, given(0), fixed(0), fixed(0))?;
    let gamma = half_back(alloc, given(0))?;
    turn_and_phase(alloc, 1, call, gamma)
}

/// `rz(λ) a`: gphase(−λ/2); U(0, 0, λ) a.
pub fn rz_gate(alloc: Global) -> Result<GateBody, AllocError>
    ensures { IfOk result (λ made. made ≡ spec.rz_gate) }
{
    let call = turn(alloc, fixed(0), fixed(0), given(0))?;
    let gamma = half_back(alloc, given(0))?;
    phase_and_turn(alloc, 1, gamma, call)
}

/// `u2(φ, λ) a`: gphase(−(φ + λ + π/2)/2); U(π/2, φ, λ) a.
pub fn u2_gate(alloc: Global) -> Result<GateBody, AllocError>
    ensures { IfOk result (λ made. made ≡ spec.u2_gate) }
{
    let call = turn(alloc, fixed(QUARTER_TURN), given(0), given(1))?;
    let gamma = half_sum_back(alloc, fixed(QUARTER_TURN))?;
    phase_and_turn(alloc, 2, gamma, call)
}

/// `u3(θ, φ, λ) a`: gphase(−(θ + φ + λ)/2); U(θ, φ, λ) a.
pub fn u3_gate(alloc: Global) -> Result<GateBody, AllocError>
    ensures { IfOk result (λ made. made ≡ spec.u3_gate) }
{
    let call = turn(alloc, given(0), given(1), given(2))?;
    let gamma = half_sum_back(alloc, given(2))?;
    phase_and_turn(alloc, 3, gamma, call)
}
