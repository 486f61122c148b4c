//! What statements without a body count beside their tokens.

ghost use Rattle.std.specs.Prelude.{◌≡◌, ◌*◌};
ghost use Rattle.qt_gate_calls.specs.Stopped.{stopped};
ghost use Rattle.qt_typed.specs.Size as spec;
ghost use Rattle.qt_size.specs.Known.{sizes_in};

use qt_typed::call::GateUse;
use qt_typed::statement::{TypedAction, TypedRight};

/// The size of the subroutine with that number, and 0 where the list has none.
#[tactic(auto, using(crate::proofs::Sizes::size_known))]
fn size_at(known: &[u32], subroutine: u32) -> u32
    ensures { result ≡ stopped (sizes_in known.now subroutine) }
{
    known.get(subroutine as usize).copied().unwrap_or(0)
}

/// The primitives and the operators of one call.
#[tactic(auto, using(crate::proofs::Sizes::sums_stop))]
fn use_size(used: &GateUse) -> u32
    ensures { result ≡ stopped (spec.use_size used.now) }
{
    let count = used.gates.count(used.modifiers.as_slice(), used.gate);
    count.primitives.saturating_add(count.operators)
}

/// The primitives and the operators of so many calls.
#[tactic(auto, using(crate::proofs::Sizes::product_stopped))]
fn broadcast_size(size: u32, used: &GateUse) -> u32
    ensures { result ≡ stopped (size * spec.use_size used.now) }
{
    size.saturating_mul(use_size(used))
}

/// What a right side counts: the subroutine that it calls.
fn right_size(known: &[u32], right: &TypedRight) -> u32
    ensures { result ≡ stopped (spec.right_size (sizes_in known.now) right.now) }
{
    match right {
        TypedRight::Value { .. } | TypedRight::Measure { .. } => 0,
        TypedRight::Call { call, .. } => size_at(known, call.subroutine),
    }
}

/// What a right side counts, where there is one.
fn optional_size(known: &[u32], right: &Option<TypedRight>) -> u32
    ensures { result ≡ stopped (spec.optional_size (sizes_in known.now) right.now) }
{
    match right {
        None => 0,
        Some(value) => right_size(known, value),
    }
}

/// What an action counts beside its tokens: its gate call, at each place of a broadcast, or the subroutine that it calls.
pub fn action_size(known: &[u32], action: &TypedAction) -> u32
    ensures { result ≡ stopped (spec.action_size (sizes_in known.now) action.now) }
{
    match action {
        TypedAction::Declare { value, .. } | TypedAction::Return { value } => {
            optional_size(known, value)
        }
        TypedAction::Assign { value, .. } => right_size(known, value),
        TypedAction::Gate { call } => use_size(&call.used),
        TypedAction::Broadcast { call } => broadcast_size(call.size, &call.used),
        TypedAction::Call { call } => size_at(known, call.subroutine),
        _ => 0,
    }
}
