//! The law of the table. The function does nothing: what it promises is the law.

ghost use Rattle.qt_gates.specs.Laws.{FixedGatesArePrinted, ControlledGatesArePrinted, PermutationsArePrinted, PhasesArePrinted};
ghost use Rattle.qt_gates.specs.Laws.{RotationsArePrinted, TurnsArePrinted, ControlledTurnsArePrinted};

/// Calls of the standard gates have the matrices that the table prints, global phases included: all gates without parameters; `p`, `phase`,
/// `u1`, `cp` and `cphase` at every angle; `rx`, `ry`, `rz`, `crx`, `cry` and `crz` at each multiple of π/2 from 0 to 7π/2; and `rx`, `ry`,
/// `u2`, `u3`, `crx`, `cry` and `cu` at every angle as U times the number of their phase.
pub fn matrices()
    ensures fixed { FixedGatesArePrinted }
    ensures controlled { ControlledGatesArePrinted }
    ensures permutations { PermutationsArePrinted }
    ensures phases { PhasesArePrinted }
    ensures rotations { RotationsArePrinted }
    ensures turns { TurnsArePrinted }
    ensures controlled_turns { ControlledTurnsArePrinted }
{}
