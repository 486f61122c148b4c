//! Slots, qubits and scopes.

ghost use Rattle.std.specs.Prelude.{◌≡◌, Ok, IfOk, OnOk};
ghost use Rattle.qt_typing.specs.Environment.{enter, leave, span_from, take_qubits, take_slots};

use qt_outside::faults::OutOfMemory;
use qt_typed::call::Span;
use qt_typing::state::State;

/// Takes so many slots, and answers the first. Slots are counted up to 4,294,967,295.
#[tactic(auto, unfolding(qt_typing::specs::Environment::take_slots))]
pub fn take_slots(state: &mut State, count: u32) -> u32
    ensures { take_slots count state.old ≡ Ok (result, state.new) }
{
    let first = state.slots;
    state.slots = first.saturating_add(count);
    first
}

/// Takes so many qubits, and answers the number of the first.
#[tactic(auto, unfolding(qt_typing::specs::Environment::take_qubits))]
pub fn take_qubits(state: &mut State, count: u32) -> Result<u64, OutOfMemory>
    ensures { IfOk result (λ first. take_qubits count state.old ≡ Ok (first, state.new)) }
{
    let first = state.qubits;
    state.qubits = first.checked_add(u64::from(count)).ok_or(OutOfMemory)?;
    Ok(first)
}

/// The slots from the first on, up to the next free one.
#[tactic(auto, unfolding(qt_typing::specs::Environment::span_from))]
pub fn span_from(first: u32, next: u32) -> Span
    ensures { result ≡ span_from first next }
{
    Span {
        first,
        count: next.saturating_sub(first),
    }
}

/// Opens a scope.
#[tactic(auto, unfolding(qt_typing::specs::Environment::enter))]
pub fn enter(state: &mut State) -> Result<(), OutOfMemory>
    ensures { OnOk result (enter state.old ≡ Ok (tt, state.new)) }
{
    state.names.scopes.enter()
}

/// Closes the innermost scope; so many entries stay known.
#[tactic(auto, unfolding(qt_typing::specs::Environment::leave))]
pub fn leave(state: &mut State, known: usize)
    ensures { leave known state.old ≡ Ok (tt, state.new) }
{
    state.names.scopes.leave();
    state.names.consts.cut(known);
}
