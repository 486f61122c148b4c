//! The laws. The functions do nothing: what they promise is the law.

ghost use Rattle.qt_typing_laws.specs.Laws.{ExpressionsAreTyped, GateBodiesAreWellFormed, ProgramGatesAreWellFormed, StatementsAreWellFormed};

/// Whatever an expression is typed as fits the frame, where the names in scope do, and has the type that is told of it.
pub fn expressions()
    ensures { ExpressionsAreTyped }
{}

/// Where what a statement sees of qubits, gates and subroutines is sound, each action that it is typed as is well formed, and what the next
/// statement sees is sound.
pub fn statements()
    ensures { StatementsAreWellFormed }
{}

/// Where the names that the body of a gate sees stand for no qubits and for gates before it, each call in the body names as many qubits of
/// the body as its gate and its controls have, all different. In a program that has a typing this holds of all gates.
pub fn gates()
    ensures bodies { GateBodiesAreWellFormed }
    ensures programs { ProgramGatesAreWellFormed }
{}
