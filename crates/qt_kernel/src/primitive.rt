ghost use Rattle.std.specs.Prelude.{◌≤◌, ◌↔◌, IsTrue};
ghost use Rattle.qt_ring.specs.declared.TheConstants.{QUBITS};
ghost use Rattle.qt_embedding.specs.Controls.{AreMasks, IsTarget};
ghost use Rattle.qt_kernel.specs.Primitives.{IsPrim};

/// A gate with fixed angles, on the qubits of a state vector. `ones` and `zeros` are masks of the qubits that control it: bit `j`
/// of `ones` asks that qubit `j` is 1, bit `j` of `zeros` that it is 0. Angles are in eighths of a turn, 0 to 7.
#[derive(Clone, Copy, Debug, PartialEq, Eq)]
pub enum FixedPrim {
    /// The gate `U(theta, phi, lambda)` on a target that is in neither mask.
    Turn {
        ones: u32,
        zeros: u32,
        target: u8,
        theta: u8,
        phi: u8,
        lambda: u8,
    },
    /// A global phase.
    Phase {
        ones: u32,
        zeros: u32,
        angle: u8,
    },
}

impl FixedPrim {
    /// Whether this is a primitive on `n` qubits: it names no qubit from `n` on and none twice, and its angles are 0 to 7.
    pub fn is_on(&self, n: u32) -> bool
        requires { n ≤ QUBITS }
        ensures { IsTrue result ↔ IsPrim n self.now }
    {
        match *self {
            FixedPrim::Turn {
                ones,
                zeros,
                target,
                theta,
                phi,
                lambda,
            } => {
                are_masks(n, ones, zeros)
                    && is_target(n, ones, zeros, target)
                    && theta < 8
                    && phi < 8
                    && lambda < 8
            }
            FixedPrim::Phase { ones, zeros, angle } => are_masks(n, ones, zeros) && angle < 8,
        }
    }
}

fn are_masks(n: u32, ones: u32, zeros: u32) -> bool
    requires { n ≤ QUBITS }
    ensures { IsTrue result ↔ AreMasks n ones zeros }
{
    ones >> n == 0 && zeros >> n == 0 && ones & zeros == 0
}

fn is_target(n: u32, ones: u32, zeros: u32, target: u8) -> bool
    requires { n ≤ QUBITS }
    ensures { IsTrue result ↔ IsTarget n ones zeros target }
{
    u32::from(target) < n && ones >> target & 1 == 0 && zeros >> target & 1 == 0
}
