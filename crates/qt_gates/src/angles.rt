//! Sums and differences of angles in the bodies of the standard gates.

ghost use Rattle.std.specs.Prelude.{◌≡◌, pos, IfOk};
ghost use Rattle.qt_gate_calls.specs.Standard as spec;
ghost use Rattle.qt_gate_calls.specs.declared.angle.Angle.TheVariants as variant;

use qt_gate_bodies::angles::{given, half, half_back};
use qt_gate_calls::angle::Angle;
use sqlite_items::Boxed;
use std::alloc::{AllocError, Global};

/// Both values in boxes.
fn both_boxed<A: Drop, B: Drop>(
    alloc: Global,
    left: A,
    right: B,
) -> Result<(Boxed<A>, Boxed<B>), AllocError>
    ensures { IfOk result (λ both. both ≡ (left, right)) }
{
    Ok((Boxed::new(alloc, left)?, Boxed::new(alloc, right)?))
}

/// a + b.
fn sum(alloc: Global, left: Angle, right: Angle) -> Result<Angle, AllocError>
    ensures { IfOk result (λ made. made ≡ variant.Sum left right) }
{
    let (left, right) = both_boxed(alloc, left, right)?;
    Ok(Angle::Sum { left, right })
}

/// The sum of the first two parameters and that angle, halved and turned back.
pub fn half_sum_back(alloc: Global, last: Angle) -> Result<Angle, AllocError>
    ensures { IfOk result (λ made. made ≡ spec.half_back (variant.Sum (variant.Sum (spec.given 0) (spec.given 1)) last)) }
{
    let front = sum(alloc, given(0), given(1))?;
    let whole = sum(alloc, front, last)?;
    half_back(alloc, whole)
}

/// The parameter with the number 3, less half of the first.
pub fn last_less_half(alloc: Global) -> Result<Angle, AllocError>
    ensures { IfOk result (λ made. made ≡ variant.Difference (spec.given 3) (variant.Quotient (spec.given 0) (pos 2))) }
{
    let half = half(alloc, given(0))?;
    let (left, right) = both_boxed(alloc, given(3), half)?;
    Ok(Angle::Difference { left, right })
}
