//! Where a value of a type is wanted.

ghost use Rattle.std.specs.Prelude.{◌≡◌, IfOk};
ghost use Rattle.qt_value.specs.declared.types.ValueType.TheVariants as kind;
ghost use Rattle.qt_typed.specs.declared.expression.TypedExpr.TheVariants as typed;
ghost use Rattle.qt_typing.specs.declared.operand.Operand.TheVariants as operand;
ghost use Rattle.qt_typing.specs.Checked.{Gives, and_then};
ghost use Rattle.qt_typing.specs.Conversions.{as_type, truth_at};
ghost use Rattle.qt_typing.specs.Conversions.{phase_as, phase_at, value_form, wanted, zero_as};

use crate::constants::{answer_at, is_zero_at, phase_at};
pub use qt_check_rules::conversions::{converts, is_same, rescales};
use qt_const::casts::cast_to;
use qt_const::modes::Mode;
use qt_outside::faults::OutOfMemory;
use qt_phase::phase::Phase;
use qt_tree::expression::Expr;
use qt_tree::place::Place;
use qt_tree::refusal::TextRefusal;
use qt_typed::expression::TypedExpr;
use qt_typing::names::Names;
use qt_typing::operand::Operand;
use qt_typing::way::Way;
use qt_value::constant::ConstValue;
use qt_value::types::ValueType;
use qt_value::value::Value;
use sqlite_items::Boxed;
use std::alloc::Global;

/// A form as a value of another type.
fn conversion(
    alloc: Global,
    to: ValueType,
    operand: Boxed<TypedExpr>,
) -> Result<Boxed<TypedExpr>, OutOfMemory>
    ensures { IfOk result (λ converted. converted ≡ typed.Convert to operand) }
{
    Ok(Boxed::new(alloc, TypedExpr::Convert { to, operand })?)
}

/// A value of a type as one of another. E10 exactly where no conversion fits.
#[tactic(auto, unfolding(qt_typing::specs::Conversions::as_type))]
pub fn as_type(
    alloc: Global,
    place: Place,
    to: ValueType,
    from: ValueType,
    form: Boxed<TypedExpr>,
) -> Result<Boxed<TypedExpr>, TextRefusal>
    ensures { Gives (as_type place to from form) result }
{
    if is_same(from, to) {
        return Ok(form);
    }
    if !converts(Way::Unwritten, from, to) {
        return Err(TextRefusal::E10(place));
    }
    Ok(conversion(alloc, to, form)?)
}

/// A constant.
pub fn constant(alloc: Global, value: Value) -> Result<Boxed<TypedExpr>, OutOfMemory>
    ensures { IfOk result (λ form. form ≡ typed.Constant value) }
{
    Ok(Boxed::new(alloc, TypedExpr::Constant { value })?)
}

/// The constant whole number 0 as an angle.
#[tactic(auto, unfolding(qt_typing::specs::Conversions::zero_as))]
fn zero_as_angle(
    alloc: Global,
    names: &Names,
    mode: Mode,
    place: Place,
    width: u8,
    written: &Expr,
) -> Result<Boxed<TypedExpr>, TextRefusal>
    ensures { Gives (zero_as names.now mode place (kind.Angle width) written.now) result }
{
    let zero = is_zero_at(alloc, names, mode, place, written)?;
    match Value::new(ValueType::Angle(width), 0) {
        Some(value) if zero => Ok(constant(alloc, value)?),
        _ => Err(TextRefusal::E10(place)),
    }
}

/// The constant whole number 0 where no conversion fits.
#[tactic(auto, unfolding(qt_typing::specs::Conversions::zero_as))]
fn zero_as(
    alloc: Global,
    names: &Names,
    mode: Mode,
    place: Place,
    to: ValueType,
    written: &Expr,
) -> Result<Boxed<TypedExpr>, TextRefusal>
    ensures { Gives (zero_as names.now mode place to written.now) result }
{
    match to {
        ValueType::Angle(width) => zero_as_angle(alloc, names, mode, place, width, written),
        _ => Err(TextRefusal::E10(place)),
    }
}

/// A constant that is a value.
fn value_form(alloc: Global, place: Place, of: ConstValue) -> Result<Boxed<TypedExpr>, TextRefusal>
    ensures { Gives (value_form place of) result }
{
    match of {
        ConstValue::Value(value) => Ok(constant(alloc, value)?),
        ConstValue::Phase(_) => Err(TextRefusal::E10(place)),
    }
}

/// A phase as a value of a type.
#[tactic(auto, unfolding(qt_typing::specs::Conversions::phase_as))]
pub fn phase_as(
    alloc: Global,
    place: Place,
    to: ValueType,
    phase: Phase,
) -> Result<Boxed<TypedExpr>, TextRefusal>
    ensures { Gives (phase_as place to phase) result }
{
    if !to.has_size() {
        return Err(TextRefusal::E10(place));
    }
    let value = answer_at(place, cast_to(to, ConstValue::Phase(phase)))?;
    value_form(alloc, place, value)
}

/// A phase that has to be constant, as a value of a type.
fn written_phase_as(
    alloc: Global,
    names: &Names,
    mode: Mode,
    place: Place,
    to: ValueType,
    written: &Expr,
) -> Result<Boxed<TypedExpr>, TextRefusal>
    ensures { Gives (and_then (phase_at names.now mode place written.now) (phase_as place to)) result }
{
    let phase = phase_at(alloc, names, mode, place, written)?;
    phase_as(alloc, place, to, phase)
}

/// A value where one of a type is wanted.
#[tactic(auto, unfolding(qt_typing::specs::Conversions::wanted))]
fn value_wanted(
    alloc: Global,
    way: Way,
    names: &Names,
    mode: Mode,
    place: Place,
    to: ValueType,
    written: &Expr,
    from: ValueType,
    form: Boxed<TypedExpr>,
) -> Result<Boxed<TypedExpr>, TextRefusal>
    ensures { Gives (wanted way names.now mode place to written.now (operand.Value from form)) result }
{
    if is_same(from, to) {
        return Ok(form);
    }
    if converts(way, from, to) {
        return Ok(conversion(alloc, to, form)?);
    }
    zero_as(alloc, names, mode, place, to, written)
}

/// An operand where a value of a type is wanted, by a cast or without one. E10 exactly where no conversion fits, and the operand isn't
/// the constant whole number 0 where an angle is wanted; a phase has to be constant, and is E12 where it is no whole number of the
/// angle's steps.
#[tactic(auto, unfolding(qt_typing::specs::Conversions::wanted))]
pub fn wanted(
    alloc: Global,
    way: Way,
    names: &Names,
    mode: Mode,
    place: Place,
    to: ValueType,
    written: &Expr,
    of: Operand,
) -> Result<Boxed<TypedExpr>, TextRefusal>
    ensures { Gives (wanted way names.now mode place to written.now of) result }
{
    match of {
        Operand::Value { kind, form } => {
            value_wanted(alloc, way, names, mode, place, to, written, kind, form)
        }
        Operand::Phase { .. } => written_phase_as(alloc, names, mode, place, to, written),
    }
}

/// An operand where a truth value is wanted.
#[tactic(auto, unfolding(qt_typing::specs::Conversions::truth_at))]
pub fn truth_at(alloc: Global, place: Place, of: Operand) -> Result<Boxed<TypedExpr>, TextRefusal>
    ensures { Gives (truth_at place of) result }
{
    match of {
        Operand::Value { kind, form } => as_type(alloc, place, ValueType::Bool, kind, form),
        Operand::Phase { .. } => Err(TextRefusal::E10(place)),
    }
}
