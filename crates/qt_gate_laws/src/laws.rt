//! The laws. The function does nothing: what it promises are the laws.
ghost use Rattle.qt_gate_laws.specs.Laws.{PrimitivesAreMatrix, PrimitivesMultiply, PrimitivesHaveTheirQubits};
ghost use Rattle.qt_gate_laws.specs.Laws.{OppositesAreConjugate, InversesAreAdjoint};

/// The product of the primitives of a gate call, each by its own full matrix, is the matrix of the call; on a state they make, one after
/// another, what that matrix makes. Each is on different qubits of the call. The opposite of an angle has the conjugate number, and the
/// inverse of a primitive the conjugate transpose.
pub fn primitives()
    ensures matrix { PrimitivesAreMatrix }
    ensures states { PrimitivesMultiply }
    ensures qubits { PrimitivesHaveTheirQubits }
    ensures opposites { OppositesAreConjugate }
    ensures inverses { InversesAreAdjoint }
{}
