ghost use Rattle.std.specs.Prelude.{◌≡◌, ◌≤◌, ◌<◌, ◌^◌, IsTrue, unsigned_abs};
ghost use Rattle.qt_value.specs.Numbers.{residue};
ghost use Rattle.qt_value.specs.Types.{has_size};
ghost use Rattle.qt_value.specs.declared.types.ValueType.TheVariants as kind;
ghost use Rattle.qt_const_rules.specs.Angles.{angle_of, step_of};

use crate::constant::sized;
use crate::fault::ConstFault;
use qt_phase::phase::Phase;
use qt_tree::refusal::Cause;
use qt_value::types::ValueType;
use qt_value::value::Value;

/// The phase as an angle of that width, round the circle, where it is a whole number of the angle's steps. Const `exact` where it is none.
#[tactic(auto, unfolding(crate::specs::Angles::angle_of))]
pub fn angle_of(width: u8, phase: Phase) -> Result<Value, ConstFault>
    requires { IsTrue (has_size (kind.Angle width)) }
    ensures { result ≡ angle_of width phase }
{
    let step = step_of(width);
    match phase.div_exact(step) {
        Ok(steps) => Ok(sized(ValueType::Angle(width), residue(steps.units(), width))),
        Err(_) => Err(ConstFault::Const(Cause::Exact)),
    }
}

/// The units of a step of an angle of that width.
fn step_of(width: u8) -> i128
    requires { width ≤ 32 }
    ensures value { result ≡ step_of width }
    ensures small { unsigned_abs result ≤ 2 ^ 64 }
{
    1i128 << (33 - width)
}

/// The number modulo 2^width.
fn residue(number: i64, width: u8) -> u64
    requires { width ≤ 32 }
    ensures value { result ≡ residue width number }
    ensures below { result < 2 ^ width }
{
    number.rem_euclid(1i64 << width) as u64
}
