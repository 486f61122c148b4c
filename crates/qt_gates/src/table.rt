//! The table of standard gates: their bodies in its order.

ghost use Rattle.std.specs.Prelude.{◌≡◌, map, IfOk};
ghost use Rattle.qt_gate_calls.specs.Standard as spec;
ghost use Rattle.qt_gates.specs.Forms.{body_of};

use crate::controlled::{
    H_ROW, RX_ROW, RY_ROW, RZ_ROW, X_ROW, Y_ROW, Z_ROW, ccx_gate, controlled_fixed,
    controlled_turn, cswap_gate, cu_gate, p_gate,
};
use crate::turning::{rx_gate, ry_gate, rz_gate, u2_gate, u3_gate};
use qt_gate_bodies::angles::{EIGHTH_TURN, HALF_TURN, QUARTER_TURN};
use qt_gate_bodies::bodies::{P_ROW, h_gate, id_gate, p_at, swap_gate, sx_gate, x_gate, y_gate};
use qt_gate_calls::body::GateBody;
use qt_outside::faults::OutOfMemory;
use sqlite_items::Items;
use std::alloc::{AllocError, Global};

/// The bodies of the table, by the names of their gates: gates of other names have the same ones.
#[derive(Clone, Copy)]
enum Form {
    Id,
    P,
    Z,
    S,
    T,
    Sdg,
    Tdg,
    X,
    Y,
    H,
    Sx,
    Rx,
    Ry,
    Rz,
    U2,
    U3,
    Cx,
    Cy,
    Cz,
    Cp,
    Crx,
    Cry,
    Crz,
    Ch,
    Swap,
    Ccx,
    Cswap,
    Cu,
}

/// The body of each row.
const FORMS: [Form; 32] = [
    Form::Id,
    Form::P,
    Form::P,
    Form::P,
    Form::Z,
    Form::S,
    Form::T,
    Form::Sdg,
    Form::Tdg,
    Form::X,
    Form::Y,
    Form::H,
    Form::Sx,
    Form::Rx,
    Form::Ry,
    Form::Rz,
    Form::U2,
    Form::U3,
    Form::Cx,
    Form::Cx,
    Form::Cy,
    Form::Cz,
    Form::Cp,
    Form::Cp,
    Form::Crx,
    Form::Cry,
    Form::Crz,
    Form::Ch,
    Form::Swap,
    Form::Ccx,
    Form::Cswap,
    Form::Cu,
];

/// The body of that form.
fn body(alloc: Global, form: Form) -> Result<GateBody, AllocError>
    ensures { IfOk result (λ made. made ≡ body_of form) }
{
    match form {
        Form::Id => id_gate(alloc),
        Form::P => p_gate(alloc),
        Form::Z => p_at(alloc, HALF_TURN),
        Form::S => p_at(alloc, QUARTER_TURN),
        Form::T => p_at(alloc, EIGHTH_TURN),
        Form::Sdg => p_at(alloc, -QUARTER_TURN),
        Form::Tdg => p_at(alloc, -EIGHTH_TURN),
        Form::X => x_gate(alloc),
        Form::Y => y_gate(alloc),
        Form::H => h_gate(alloc),
        Form::Sx => sx_gate(alloc),
        Form::Rx => rx_gate(alloc),
        Form::Ry => ry_gate(alloc),
        Form::Rz => rz_gate(alloc),
        Form::U2 => u2_gate(alloc),
        Form::U3 => u3_gate(alloc),
        Form::Cx => controlled_fixed(alloc, X_ROW),
        Form::Cy => controlled_fixed(alloc, Y_ROW),
        Form::Cz => controlled_fixed(alloc, Z_ROW),
        Form::Cp => controlled_turn(alloc, P_ROW),
        Form::Crx => controlled_turn(alloc, RX_ROW),
        Form::Cry => controlled_turn(alloc, RY_ROW),
        Form::Crz => controlled_turn(alloc, RZ_ROW),
        Form::Ch => controlled_fixed(alloc, H_ROW),
        Form::Swap => swap_gate(alloc),
        Form::Ccx => ccx_gate(alloc),
        Form::Cswap => cswap_gate(alloc),
        Form::Cu => cu_gate(alloc),
    }
}

/// The bodies of these forms.
fn bodies(alloc: Global, forms: &[Form]) -> Result<Items<GateBody>, AllocError>
    ensures { IfOk result (λ made. made ≡ map body_of forms.now) }
{
    let mut bodies = Items::new(alloc);
    for form in forms {
        bodies.push(body(alloc, *form)?)?;
    }
    Ok(bodies)
}

/// The bodies of the standard gates, in the order of their table. Rows call U, `gphase` and rows before them, by number.
#[tactic(auto, unfolding(qt_gate_calls::specs::Standard::standard_gates))]
pub fn standard_bodies(alloc: Global) -> Result<Items<GateBody>, OutOfMemory>
    ensures { IfOk result (λ made. made ≡ spec.standard_bodies) }
{
    Ok(bodies(alloc, &FORMS)?)
}
