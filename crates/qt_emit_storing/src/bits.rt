//! Which bits of a variable a target is.

ghost use Rattle.std.specs.Prelude.{◌≡◌, ◌+◌, ◌*◌, ◌∷◌, [], min, IfOk};
ghost use Rattle.qt_flat_code.specs.Bits.{bits_after, bits_of, first_bits, first_bits_of, sliced};
ghost use Rattle.qt_emit_storing.specs.BitsIn.{bits_in};

use crate::variables::kind_of;
use qt_typed::expression::{TypedStep, TypedTarget};
use std::alloc::AllocError;

/// The variable as a whole; so many bits of it, of which bit i has the place `first + i · step`; or one bit, whose place is found in the run.
#[derive(Clone, Copy)]
pub enum TargetBits {
    All,
    Every { first: u8, step: u8, count: u8 },
    One,
}

/// A step of as many places, or of 64 where there are more.
fn product(by: u8, step: u8) -> u8
    ensures { result ≡ min (by * step) 64 }
{
    (u32::from(by) * u32::from(step)).min(64) as u8
}

/// The place that many steps behind the first.
fn place_at(first: u8, start: u8, step: u8) -> Result<u8, AllocError>
    ensures { IfOk result (λ n. n ≡ first + start * step) }
{
    let offset = start.checked_mul(step).ok_or(AllocError)?;
    first.checked_add(offset).ok_or(AllocError)
}

/// A slice of bits. A place of a variable has no more than 8 bits.
fn sliced(start: u8, by: u8, count: u8, bits: TargetBits) -> Result<TargetBits, AllocError>
    ensures { IfOk result (λ b. bits_in b ≡ sliced start by count (bits_in bits)) }
{
    match bits {
        TargetBits::Every { first, step, .. } => {
            let first = place_at(first, start, step)?;
            Ok(TargetBits::Every {
                first,
                step: product(by, step),
                count,
            })
        }
        TargetBits::All => Ok(TargetBits::All),
        TargetBits::One => Ok(TargetBits::One),
    }
}

/// The bits that a step leads to.
pub fn after_step(step: &TypedStep, bits: TargetBits) -> Result<TargetBits, AllocError>
    ensures { IfOk result (λ b. bits_in b ≡ bits_after (step.now ∷ []) (bits_in bits)) }
{
    match step {
        TypedStep::At { .. } => Ok(TargetBits::One),
        TypedStep::Slice { start, step, count } => sliced(*start, *step, *count, bits),
    }
}

/// The bits that some steps lead to, one after the other.
#[tactic(auto, using(crate::proofs::StepForms::one_step))]
fn bits_after(mut steps: &[TypedStep], first: TargetBits) -> Result<TargetBits, AllocError>
    ensures { IfOk result (λ b. bits_in b ≡ bits_after steps.entry.now (bits_in first)) }
{
    let mut bits = first;
    'steps: while let [step, rest @ ..] = steps {
        bits = after_step(step, bits)?;
        steps = rest;
    }
    Ok(bits)
}

/// What the first step of a target begins with.
pub fn first_bits(target: &TypedTarget) -> TargetBits
    ensures { bits_in result ≡ first_bits target.now }
{
    match target.steps.as_slice() {
        [] => TargetBits::All,
        _ => TargetBits::Every {
            first: 0,
            step: 1,
            count: kind_of(&target.variable).width(),
        },
    }
}

/// Which bits of its variable a target is. OpenQASM 3.0, "Types and Casting", index sets and slicing.
pub fn target_bits(target: &TypedTarget) -> Result<TargetBits, AllocError>
    ensures { IfOk result (λ b. bits_in b ≡ bits_of target.now) }
{
    bits_after(target.steps.as_slice(), first_bits(target))
}
