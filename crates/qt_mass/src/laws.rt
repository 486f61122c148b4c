//! Laws of masses, for those who build on them. The functions do nothing: what they promise is the law.
ghost use Rattle.qt_mass.specs.Laws.{KeepsMass, CxKeepsMass, OutcomesShareMass, OnlyZeroIsMassless, ZerosHaveMassOne};
ghost use Rattle.qt_ring.specs.Gates.{h_gate, x_gate, t_gate};

/// The gates h, x, t and cx keep the mass of a state.
pub fn gates()
    ensures h { KeepsMass h_gate }
    ensures x { KeepsMass x_gate }
    ensures t { KeepsMass t_gate }
    ensures cx { CxKeepsMass }
{}

/// What the two outcomes of a measurement leave has the mass of the state, together.
pub fn outcomes()
    ensures { OutcomesShareMass }
{}

/// The mass is 0 where all amplitudes are, and nowhere else.
pub fn zero()
    ensures { OnlyZeroIsMassless }
{}

/// The state of all zeros has the mass 1.
pub fn beginning()
    ensures { ZerosHaveMassOne }
{}
