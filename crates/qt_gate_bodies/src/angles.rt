//! The angles in the bodies of the standard gates.

ghost use Rattle.std.specs.Prelude.{◌≡◌, pos, IfOk};
ghost use Rattle.qt_phase.specs.Phase.{IsPhase};
ghost use Rattle.qt_gate_calls.specs.Standard as spec;
ghost use Rattle.qt_gate_calls.specs.declared.angle.Angle.TheVariants as variant;

use qt_gate_calls::angle::Angle;
use qt_gate_calls::whole::Whole;
use qt_phase::phase::Phase;
use sqlite_items::Boxed;
use std::alloc::{AllocError, Global};

/// π in units of π/2^32.
pub const HALF_TURN: i64 = 1 << 32;

/// π/2.
pub const QUARTER_TURN: i64 = 1 << 31;

/// π/4.
pub const EIGHTH_TURN: i64 = 1 << 30;

/// The angle of that many units. It asks for a phase, so no other answer is ever taken.
pub fn fixed(units: i64) -> Angle
    requires { IsPhase units }
    ensures { result ≡ variant.Units units }
{
    let units = match Phase::from_units(units) {
        Ok(units) => units,
        Err(_) => Phase::zero(),
    };
    Angle::Units { units }
}

/// The parameter with that number.
pub fn given(number: u32) -> Angle
    ensures { result ≡ spec.given number }
{
    Angle::Parameter { number }
}

/// a / 2.
pub fn half(alloc: Global, angle: Angle) -> Result<Angle, AllocError>
    ensures { IfOk result (λ made. made ≡ variant.Quotient angle (pos 2)) }
{
    let angle = Boxed::new(alloc, angle)?;
    Ok(Angle::Quotient {
        angle,
        divisor: Whole::new(2),
    })
}

/// −a / 2.
pub fn half_back(alloc: Global, angle: Angle) -> Result<Angle, AllocError>
    ensures { IfOk result (λ made. made ≡ spec.half_back angle) }
{
    let angle = Boxed::new(alloc, angle)?;
    half(alloc, Angle::Opposite { angle })
}
