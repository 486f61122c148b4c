//! How many primitives and operators gates come to, up to a stop.

ghost use Rattle.std.specs.Prelude.{◌≡◌, ◌+◌, ◌∷◌, [], get_or, IfOk};
ghost use Rattle.qt_gate_calls.specs.Counts as spec;
ghost use Rattle.qt_gate_calls.specs.Stopped.{stopped, no_count, primitives_in, operators_in, AreCounted};

use crate::body::{BodyCall, Called, GateBody, GateModifier};
use sqlite_items::Items;
use std::alloc::{AllocError, Global};

/// How many primitives a gate comes to, and how many operators stand in the arguments of the calls that it puts in. Both stop at
/// 4,294,967,295.
#[derive(Clone, Copy)]
pub struct GateCount {
    pub primitives: u32,
    pub operators: u32,
}

/// What a gate without calls comes to.
const NOTHING: GateCount = GateCount {
    primitives: 0,
    operators: 0,
};

/// The count of the gate with that number, and nothing behind the end.
#[tactic(auto, using(crate::proofs::Counted::counted_at))]
fn count_at(counts: &[GateCount], number: u32) -> GateCount
    ensures { result ≡ get_or counts.now number no_count }
{
    counts.get(number as usize).copied().unwrap_or(NOTHING)
}

/// The count of what a call calls.
fn called_count(counts: &[GateCount], gate: Called) -> GateCount
    ensures primitives { result.primitives ≡ spec.called_count (primitives_in counts.now) gate }
    ensures operators { result.operators ≡ spec.called_operators (operators_in counts.now) gate }
{
    match gate {
        Called::U | Called::GlobalPhase => GateCount {
            primitives: 1,
            operators: 0,
        },
        Called::Gate { number } => count_at(counts, number),
    }
}

/// A number as often as one modifier says, up to the stop.
fn times(modifier: &GateModifier, number: u32) -> u32
    ensures { result ≡ stopped (spec.times_over (modifier.now ∷ []) number) }
{
    match modifier {
        GateModifier::Pow { exponent } => exponent.unsigned_abs().saturating_mul(number),
        _ => number,
    }
}

/// A number as often as the modifiers say, up to the stop.
#[tactic(auto, using(crate::proofs::Counted::times_more))]
fn times_over(modifiers: &[GateModifier], number: u32) -> u32
    ensures { result ≡ stopped (spec.times_over modifiers.now number) }
{
    match modifiers {
        [] => number,
        [first, rest @ ..] => times(first, times_over(rest, number)),
    }
}

/// What a call comes to.
pub fn call_count(counts: &[GateCount], modifiers: &[GateModifier], gate: Called) -> GateCount
    ensures primitives { result.primitives ≡ stopped (spec.call_count (primitives_in counts.now) modifiers.now gate) }
    ensures operators { result.operators ≡ stopped (spec.call_operators (operators_in counts.now) modifiers.now gate) }
{
    let called = called_count(counts, gate);
    GateCount {
        primitives: times_over(modifiers, called.primitives),
        operators: times_over(modifiers, called.operators),
    }
}

/// What a call in a body comes to, with the operators in its own arguments.
fn body_call_count(counts: &[GateCount], call: &BodyCall) -> GateCount
    ensures primitives { result.primitives ≡ stopped (spec.call_count (primitives_in counts.now) call.now.modifiers call.now.gate) }
    ensures operators { result.operators
        ≡ stopped (call.now.operators + stopped (spec.call_operators (operators_in counts.now) call.now.modifiers call.now.gate)) }
{
    let count = call_count(counts, call.modifiers.as_slice(), call.gate);
    GateCount {
        primitives: count.primitives,
        operators: call.operators.saturating_add(count.operators),
    }
}

/// Both counts together.
fn together(one: GateCount, other: GateCount) -> GateCount
    ensures primitives { result.primitives ≡ stopped (one.primitives + other.primitives) }
    ensures operators { result.operators ≡ stopped (one.operators + other.operators) }
{
    GateCount {
        primitives: one.primitives.saturating_add(other.primitives),
        operators: one.operators.saturating_add(other.operators),
    }
}

/// What the calls of a body come to.
fn calls_count(counts: &[GateCount], mut calls: &[BodyCall]) -> GateCount
    ensures primitives { result.primitives ≡ stopped (spec.calls_count (primitives_in counts.now) calls.entry.now) }
    ensures operators { result.operators ≡ stopped (spec.calls_operators (operators_in counts.now) calls.entry.now) }
{
    let mut count = NOTHING;
    while let [first, rest @ ..] = calls {
        count = together(count, body_call_count(counts, first));
        calls = rest;
    }
    count
}

/// What the gates with these bodies come to, each over those before it.
#[tactic(auto, using(crate::proofs::Counted::none_counted))]
pub fn counts_of(alloc: Global, bodies: &[GateBody]) -> Result<Items<GateCount>, AllocError>
    ensures { IfOk result (λ counts. AreCounted bodies.now counts) }
{
    let mut counts = Items::new(alloc);
    for body in bodies {
        let count = calls_count(counts.as_slice(), body.calls.as_slice());
        counts.push(count)?;
    }
    Ok(counts)
}
