ghost use Rattle.std.specs.Prelude.{◌≡◌};
ghost use Rattle.qt_embedding.specs.Entries.{masks_hold};

/// Masks of the qubits that are asked to be 1, and to be 0.
#[derive(Clone, Copy)]
pub struct Controls {
    pub ones: u32,
    pub zeros: u32,
}

/// The angles θ, φ and λ of a gate `U`, in eighths of a turn.
#[derive(Clone, Copy)]
pub struct Angles {
    pub theta: u8,
    pub phi: u8,
    pub lambda: u8,
}

/// A gate `U` on a target, under controls.
#[derive(Clone, Copy)]
pub struct ControlledU {
    pub controls: Controls,
    pub target: u8,
    pub angles: Angles,
}

impl Controls {
    /// Whether the bits of an index are as the masks ask.
    pub fn hold(self, index: usize) -> bool
        ensures { result ≡ masks_hold self.ones self.zeros index }
    {
        let ones = self.ones as usize;
        let zeros = self.zeros as usize;
        index & ones == ones && index & zeros == 0
    }
}
