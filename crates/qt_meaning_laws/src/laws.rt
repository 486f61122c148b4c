//! The laws. The functions do nothing: what they promise is the law.
ghost use Rattle.qt_gate_calls.specs.Standard.{standard_bodies};
ghost use Rattle.qt_typed.specs.declared.program.Typed.{Typed};
ghost use Rattle.qt_meaning.specs.Laws.{FuelSuffices, FactorsGoThrough, MassIsKept};
ghost use Rattle.qt_meaning.specs.WellFormed.{GatesFit};
ghost use Rattle.qt_meaning_laws.specs.Maps.{MapsGoThrough};
ghost use Rattle.qt_meaning_laws.specs.Masses.{MassGoesThrough};
ghost use Rattle.qt_meaning_laws.specs.Unitary.{CallsAreUnitary, CallsHaveTheirSize, UnitariesKeepMass, FlipsKeepMass};

/// Where the fuel suffices on each path, a unit more changes nothing but the fuel that is left.
pub fn fuel()
    ensures { (typed : Typed) → FuelSuffices typed }
{}

/// A map of states that goes with all that programs do to states gives the same leaves, with the map of each leaf's state; a factor other
/// than 0 is such a map.
pub fn states()
    ensures maps { (typed : Typed) → MapsGoThrough typed }
    ensures factors { (typed : Typed) → FactorsGoThrough typed }
{}

/// The matrix of a call of well formed gates is unitary and has the call's size, whatever its modifiers and angles are. On different qubits
/// it keeps the mass of a state, and so do flips. The standard gates are well formed.
pub fn gates()
    ensures unitary { CallsAreUnitary }
    ensures sizes { CallsHaveTheirSize }
    ensures masses { UnitariesKeepMass }
    ensures flips { FlipsKeepMass }
    ensures standard { GatesFit standard_bodies }
{}

/// The masses of all leaves of a well formed program are together that of the root's state, which is 1 where the program begins.
pub fn masses()
    ensures kept { (typed : Typed) → MassIsKept typed }
    ensures through { (typed : Typed) → MassGoesThrough typed }
{}
