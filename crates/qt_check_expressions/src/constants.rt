//! What has to be constant: values, whole numbers and types.

ghost use Rattle.std.specs.Prelude.{◌≡◌, ◌<◌, ◌^◌, IfOk, IsTrue, Ok, Err, unsigned_abs};
ghost use Rattle.qt_const_rules.specs.Answers.{whole_number};
ghost use Rattle.qt_value.specs.Types.{has_size};
ghost use Rattle.qt_typing.specs.Checked.{Gives, answer_at};
ghost use Rattle.qt_typing.specs.Conversions.{is_zero_answer, is_zero_at, phase_at, known_phase};
ghost use Rattle.qt_typing.specs.Environment.{constant_at, number_at, type_at};

use qt_const::casts::is_whole_zero;
use qt_const::modes::Mode;
use qt_const::value::{type_in, value_in};
use qt_const_rules::constant::whole_number;
use qt_const_rules::fault::ConstFault;
use qt_outside::faults::OutOfMemory;
use qt_phase::phase::Phase;
use qt_tree::expression::{Expr, Scalar};
use qt_tree::place::Place;
use qt_tree::refusal::TextRefusal;
use qt_typing::names::Names;
use qt_value::constant::ConstValue;
use qt_value::types::ValueType;
use std::alloc::Global;

/// The value of a constant expression.
#[tactic(auto, unfolding(qt_typing::specs::Environment::constant_at), using(crate::proofs::Refusals::refusal_gives))]
pub fn constant_at(
    alloc: Global,
    names: &Names,
    mode: Mode,
    place: Place,
    expr: &Expr,
) -> Result<ConstValue, TextRefusal>
    ensures { Gives (constant_at names.now mode place expr.now) result }
{
    value_in(alloc, expr, &names.consts, mode, place)
}

/// A type as it is written, with its size.
#[tactic(auto, unfolding(qt_typing::specs::Environment::type_at), using(crate::proofs::Refusals::refusal_gives))]
pub fn type_at(
    alloc: Global,
    names: &Names,
    mode: Mode,
    place: Place,
    scalar: &Scalar,
) -> Result<ValueType, TextRefusal>
    ensures value { Gives (type_at names.now mode place scalar.now) result }
    ensures sized { IfOk result (λ kind. IsTrue (has_size kind)) }
{
    type_in(alloc, scalar, &names.consts, mode, place)
}

/// What is answered of a constant in a statement at that place.
pub fn answer_at<T>(place: Place, answer: Result<T, ConstFault>) -> Result<T, TextRefusal>
    ensures { result ≡ answer_at place answer }
{
    match answer {
        Ok(found) => Ok(found),
        Err(fault) => Err(fault.at(place)),
    }
}

/// The whole number of a constant.
fn whole_at(place: Place, constant: ConstValue) -> Result<i128, TextRefusal>
    ensures value { Gives (answer_at place (whole_number constant)) result }
    ensures small { IfOk result (λ z. unsigned_abs z < 2 ^ 64) }
{
    answer_at(place, whole_number(constant))
}

/// The whole number of a constant expression.
#[tactic(auto, unfolding(qt_typing::specs::Environment::number_at))]
pub fn number_at(
    alloc: Global,
    names: &Names,
    mode: Mode,
    place: Place,
    expr: &Expr,
) -> Result<i128, TextRefusal>
    ensures value { Gives (number_at names.now mode place expr.now) result }
    ensures small { IfOk result (λ z. unsigned_abs z < 2 ^ 64) }
{
    let constant = constant_at(alloc, names, mode, place, expr)?;
    whole_at(place, constant)
}

/// A phase that has to be constant.
fn known_phase(place: Place, constant: ConstValue) -> Result<Phase, TextRefusal>
    ensures { Gives (known_phase place constant) result }
{
    match constant {
        ConstValue::Phase(phase) => Ok(phase),
        ConstValue::Value(_) => Err(TextRefusal::E10(place)),
    }
}

/// The phase of a constant expression.
#[tactic(auto, unfolding(qt_typing::specs::Conversions::phase_at))]
pub fn phase_at(
    alloc: Global,
    names: &Names,
    mode: Mode,
    place: Place,
    written: &Expr,
) -> Result<Phase, TextRefusal>
    ensures { Gives (phase_at names.now mode place written.now) result }
{
    let constant = constant_at(alloc, names, mode, place, written)?;
    known_phase(place, constant)
}

/// Whether what is answered of a constant is the whole number 0.
fn is_zero_constant(constant: ConstValue) -> bool
    ensures { result ≡ is_zero_answer (Ok constant) }
{
    match constant {
        ConstValue::Value(value) => is_whole_zero(value),
        ConstValue::Phase(_) => false,
    }
}

/// Whether an expression is the constant whole number 0.
#[tactic(auto, unfolding(qt_typing::specs::Conversions::is_zero_at), using(crate::proofs::Refusals::refused_is_no_zero))]
pub fn is_zero_at(
    alloc: Global,
    names: &Names,
    mode: Mode,
    place: Place,
    expr: &Expr,
) -> Result<bool, OutOfMemory>
    ensures { IfOk result (λ zero. zero ≡ is_zero_at names.now mode expr.now) }
{
    match value_in(alloc, expr, &names.consts, mode, place) {
        Ok(constant) => Ok(is_zero_constant(constant)),
        Err(TextRefusal::OutOfMemory) => Err(OutOfMemory),
        Err(_) => Ok(false),
    }
}
