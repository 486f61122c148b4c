//! How many primitives and operators a gate call comes to.

ghost use Rattle.std.specs.Prelude.{◌≡◌, ℕ, List, length};
ghost use Rattle.qt_gate_calls.specs.Counts.{call_count, call_operators, primitive_counts, operator_counts};
ghost use Rattle.qt_gate_calls.specs.Primitives.{ControlsOf, call_primitives, primitives_of};
ghost use Rattle.qt_gate_calls.specs.Stopped.{stopped};
ghost use Rattle.qt_gate_calls.specs.Units.{KnownUnits};

use qt_typed::call::TypedCall;

/// The number of primitives that a call comes to, whatever its angles and qubits. It stops at 4,294,967,295. OpenQASM 3.0, "Gates".
pub fn prim_count(call: &TypedCall) -> u64
    ensures counted { let used = call.now.used in result ≡ stopped (call_count (primitive_counts used.gates) used.modifiers used.gate) }
    ensures primitives { (angles : List KnownUnits) (controls : ControlsOf ℕ) (qubits : List ℕ) →
        let used = call.now.used in
        result ≡ stopped (length (call_primitives (primitives_of used.gates) used.modifiers used.gate angles controls qubits)) }
{
    let used = &call.used;
    let count = used.gates.count(used.modifiers.as_slice(), used.gate);
    count.primitives as u64
}

/// The number of operators in the arguments of the calls in the bodies that a call puts in, which the size of a program counts. It stops at
/// 4,294,967,295.
pub fn operator_count(call: &TypedCall) -> u64
    ensures { let used = call.now.used in result ≡ stopped (call_operators (operator_counts used.gates) used.modifiers used.gate) }
{
    let used = &call.used;
    let count = used.gates.count(used.modifiers.as_slice(), used.gate);
    count.operators as u64
}
