//! Gates on a state, by their primitives.
ghost use Rattle.std.specs.Prelude.{◌<◌, ◌≤◌};
ghost use Rattle.qt_ring.specs.declared.TheConstants.{QUBITS};

use qt_kernel::kernel::turn;
use qt_kernel::primitive::FixedPrim;
use qt_vector::vector::Vector;

#[derive(Clone, Copy)]
pub enum Gate {
    H,
    X,
    T,
    Cx,
}

/// `U(theta, 0, π)` on a target, under the controls of a mask, and then a phase under them, in eighths of a turn.
#[derive(Clone, Copy)]
struct Turned {
    ones: u32,
    target: u8,
    theta: u8,
    phase: u8,
}

/// Whether the primitive was one on the state's qubits, and its product not too large.
fn apply(state: &mut Vector, prim: FixedPrim) -> bool {
    prim.is_on(state.qubits()) && turn(state, &prim).is_ok()
}

fn add_phase(state: &mut Vector, ones: u32, angle: u8) -> bool {
    apply(
        state,
        FixedPrim::Phase {
            ones,
            zeros: 0,
            angle,
        },
    )
}

impl Turned {
    fn apply(self, state: &mut Vector) -> bool {
        let prim = FixedPrim::Turn {
            ones: self.ones,
            zeros: 0,
            target: self.target,
            theta: self.theta,
            phi: 0,
            lambda: 4,
        };
        apply(state, prim) && add_phase(state, self.ones, self.phase)
    }
}

impl Gate {
    /// Applies the gate to a qubit, under another one where it has a control, and tells whether that was done.
    pub fn apply(self, state: &mut Vector, target: u8, control: u8) -> bool
        requires target { target < 32 }
        requires control { control < 32 }
    {
        let (ones, theta, phase) = match self {
            Gate::T => return add_phase(state, 1 << target, 1),
            Gate::H => (0, 2, 7),
            Gate::X => (0, 4, 6),
            Gate::Cx => (1 << control, 4, 6),
        };
        let turned = Turned {
            ones,
            target,
            theta,
            phase,
        };
        turned.apply(state)
    }

    /// Applies the gate so many times, to each qubit in turn with the next one as its control, and tells how often that was done.
    pub fn apply_often(self, state: &mut Vector, qubits: u32, times: u32) -> u64
        requires some { 0 < qubits }
        requires few { qubits ≤ QUBITS }
    {
        let mut done = 0u64;
        for step in 0..times {
            let target = (step % qubits) as u8;
            let control = (step.wrapping_add(1) % qubits) as u8;
            if self.apply(state, target, control) {
                done = done.wrapping_add(1);
            }
        }
        done
    }
}
