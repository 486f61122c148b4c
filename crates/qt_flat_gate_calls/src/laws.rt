//! The laws. The functions do nothing: what they promise is the law.

ghost use Rattle.qt_flat_gate_calls.specs.Laws.{BroadcastLengthsAreOne, BroadcastsLand, GateCallsLand, LengthsAreOne};

/// Wherever the code of a gate call that fits stands, it multiplies the state by the matrix that the call means and adds its primitives to the
/// trail, or ends in the fault that the call means: of an index, of a qubit that stands twice, of a division or of an angle. That of a
/// broadcast does what its calls mean, one for each place. Both have as many instructions wherever they are put in.
pub fn gate_calls()
    ensures calls { GateCallsLand }
    ensures broadcasts { BroadcastsLand }
    ensures lengths { LengthsAreOne }
    ensures broadcast_lengths { BroadcastLengthsAreOne }
{}
