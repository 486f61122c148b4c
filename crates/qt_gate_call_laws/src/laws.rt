//! The laws. The function does nothing: what it promises are the laws.
ghost use Rattle.qt_gate_call_laws.specs.Laws.{CallsArePrimitives, CallsAreExpansions};

/// A gate call by the meaning is its primitives one after another, where all their angles can be reckoned, with the same faults and the same
/// trail; and where its arguments and qubits stand in cells, it is the primitives of its expansion after a run of the steps.
pub fn calls()
    ensures primitives { CallsArePrimitives }
    ensures expansions { CallsAreExpansions }
{}
