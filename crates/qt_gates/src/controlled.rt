//! The bodies of the standard gates under control.

ghost use Rattle.std.specs.Prelude.{◌≡◌, [], ◌∷◌, IfOk};
ghost use Rattle.qt_gate_calls.specs.Standard as spec;

use crate::angles::last_less_half;
use qt_gate_bodies::angles::given;
use qt_gate_bodies::bodies::{P_ROW, of_one, of_two};
use qt_gate_bodies::calls::{call, controlled, controlled_u, row_at};
use qt_gate_bodies::lists;
use qt_gate_calls::angle::Angle;
use qt_gate_calls::body::{Called, GateBody, GateModifier};
use sqlite_items::Items;
use std::alloc::{AllocError, Global};

/// The numbers of the rows that are put under control.
pub const Z_ROW: u32 = 4;

pub const X_ROW: u32 = 9;

pub const Y_ROW: u32 = 10;

pub const H_ROW: u32 = 11;

pub const RX_ROW: u32 = 13;

pub const RY_ROW: u32 = 14;

pub const RZ_ROW: u32 = 15;

const SWAP_ROW: u32 = 28;

/// `p(λ) a`: ctrl @ gphase(λ) a.
pub fn p_gate(alloc: Global) -> Result<GateBody, AllocError>
    ensures { IfOk result (λ made. made ≡ spec.p_gate) }
{
    let angles = lists::one(alloc, given(0))?;
    let qubits = lists::one(alloc, 0)?;
    let call = controlled(alloc, Called::GlobalPhase, angles, qubits)?;
    of_one(alloc, 1, 1, call)
}

/// A row under one control, with these angles for its parameters.
fn controlled_row(
    alloc: Global,
    number: u32,
    parameters: u32,
    angles: Items<Angle>,
) -> Result<GateBody, AllocError>
    ensures { IfOk result (λ made.
        made ≡ spec.gate parameters 2 (spec.under_control (spec.row number angles (0 ∷ 1 ∷ [])) ∷ [])) }
{
    let qubits = lists::two(alloc, 0, 1)?;
    let call = controlled(alloc, Called::Gate { number }, angles, qubits)?;
    of_one(alloc, parameters, 2, call)
}

/// A row without parameters under one control.
pub fn controlled_fixed(alloc: Global, number: u32) -> Result<GateBody, AllocError>
    ensures { IfOk result (λ made.
        made ≡ spec.gate 0 2 (spec.under_control (spec.row number [] (0 ∷ 1 ∷ [])) ∷ [])) }
{
    controlled_row(alloc, number, 0, Items::new(alloc))
}

/// A row with one parameter under one control.
pub fn controlled_turn(alloc: Global, number: u32) -> Result<GateBody, AllocError>
    ensures { IfOk result (λ made.
        made ≡ spec.gate 1 2 (spec.under_control (spec.row number (spec.given 0 ∷ []) (0 ∷ 1 ∷ [])) ∷ [])) }
{
    let angles = lists::one(alloc, given(0))?;
    controlled_row(alloc, number, 1, angles)
}

/// `ccx a, b, c`: ctrl(2) @ x a, b, c.
pub fn ccx_gate(alloc: Global) -> Result<GateBody, AllocError>
    ensures { IfOk result (λ made. made ≡ spec.ccx_gate) }
{
    let modifiers = lists::two(alloc, GateModifier::Ctrl, GateModifier::Ctrl)?;
    let qubits = lists::three(alloc, 0, 1, 2)?;
    let gate = Called::Gate { number: X_ROW };
    of_one(
        alloc,
        0,
        3,
        call(modifiers, gate, Items::new(alloc), qubits),
    )
}

/// `cswap a, b, c`: ctrl @ swap a, b, c.
pub fn cswap_gate(alloc: Global) -> Result<GateBody, AllocError>
    ensures { IfOk result (λ made. made ≡ spec.cswap_gate) }
{
    let qubits = lists::three(alloc, 0, 1, 2)?;
    let gate = Called::Gate { number: SWAP_ROW };
    let call = controlled(alloc, gate, Items::new(alloc), qubits)?;
    of_one(alloc, 0, 3, call)
}

/// `cu(θ, φ, λ, γ) a, b`: p(γ − θ/2) a; ctrl @ U(θ, φ, λ) a, b.
pub fn cu_gate(alloc: Global) -> Result<GateBody, AllocError>
    ensures { IfOk result (λ made. made ≡ spec.cu_gate) }
{
    let gamma = last_less_half(alloc)?;
    let phase = row_at(alloc, P_ROW, gamma)?;
    let call = controlled_u(alloc)?;
    of_two(alloc, 4, 2, phase, call)
}
