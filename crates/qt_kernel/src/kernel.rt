ghost use Rattle.std.specs.Prelude.{◌≡◌, OnOk, OnErr};
ghost use Rattle.qt_ring.specs.State.{State};
ghost use Rattle.qt_ring.specs.Multiples.{IsReduced};
ghost use Rattle.qt_vector.specs.States.{IsBounded, IsVector};
ghost use Rattle.qt_kernel.specs.Primitives.{IsPrim, product_of};
ghost use Rattle.qt_kernel.specs.Products.{u_prim, phase_prim};

use crate::gate::{Angles, ControlledU, Controls};
use crate::primitive::FixedPrim;
use qt_root2::scale::NumberFault;
use qt_vector::vector::Vector;

/// Replaces the state by the primitive's product with it, over its least power of two. Where that has a coefficient above
/// `LARGEST` in size, or more than `HALVINGS` halvings, the answer is `NumberFault` and the state is unchanged.
pub fn turn(state: &mut Vector, prim: &FixedPrim) -> Result<(), NumberFault>
    requires { IsPrim state.old.qubits prim.now }
    ensures ok { OnOk result (IsReduced (product_of prim.now state.old) state.new) }
    ensures fault { OnErr result ((t : State) → IsReduced (product_of prim.now state.old) t → ¬ IsBounded t) }
    ensures unchanged { OnErr result (state.new ≡ state.old) }
    ensures qubits { state.new.qubits ≡ state.old.qubits }
    ensures vector { IsVector state.new }
{
    match *prim {
        FixedPrim::Turn {
            ones,
            zeros,
            target,
            theta,
            phi,
            lambda,
        } => apply_u(
            state,
            ControlledU {
                controls: Controls { ones, zeros },
                target,
                angles: Angles { theta, phi, lambda },
            },
        ),
        FixedPrim::Phase { ones, zeros, angle } => {
            apply_phase(state, Controls { ones, zeros }, angle);
            Ok(())
        }
    }
}

fn apply_u(state: &mut Vector, gate: ControlledU) -> Result<(), NumberFault>
    requires { IsPrim state.old.qubits (u_prim gate) }
    ensures ok { OnOk result (IsReduced (product_of (u_prim gate) state.old) state.new) }
    ensures fault { OnErr result ((t : State) → IsReduced (product_of (u_prim gate) state.old) t → ¬ IsBounded t) }
    ensures unchanged { OnErr result (state.new ≡ state.old) }
    ensures qubits { state.new.qubits ≡ state.old.qubits }
    ensures vector { IsVector state.new }
{
    let qubits = state.qubits;
    let halvings = state.halvings;
    state.halvings = gate.multiply(state.entries.as_mut_slice(), qubits, halvings)?;
    Ok(())
}

fn apply_phase(state: &mut Vector, controls: Controls, angle: u8)
    requires { IsPrim state.old.qubits (phase_prim controls angle) }
    ensures reduced { IsReduced (product_of (phase_prim controls angle) state.old) state.new }
    ensures qubits { state.new.qubits ≡ state.old.qubits }
    ensures vector { IsVector state.new }
{
    controls.add_phase(state.entries.as_mut_slice(), angle);
}
