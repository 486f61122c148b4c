//! What operators make of parts of angles.

ghost use Rattle.std.specs.Prelude.{◌≡◌};
ghost use Rattle.qt_tree.specs.declared.expression.InfixOperator.TheVariants as infixes;
ghost use Rattle.qt_value.specs.declared.constant.ConstValue.TheVariants as constant_form;
ghost use Rattle.qt_typing.specs.Checked.{Gives};
ghost use Rattle.qt_typing.specs.GateItems as spec;
ghost use Rattle.qt_check_gate_items.specs.Reckons.{Reckons, as_reckoned};

use crate::reckoned::{Reckoned, angular};
use qt_check_operands::names::unfit;
use qt_gate_calls::angle::Angle;
use qt_gate_calls::whole::Whole;
use qt_names::named::{Named, Places, What};
use qt_phase::phase::Phase;
use qt_tree::expression::{Index, InfixOperator, PrefixOperator};
use qt_tree::label::Label;
use qt_tree::place::Place;
use qt_tree::refusal::{Cause, TextRefusal};
use qt_value::constant::ConstValue;
use qt_value::types::ValueType;
use qt_value::value::Value;
use sqlite_items::{Boxed, Items};
use std::alloc::Global;

/// A whole number beside an angle: E10 of a phase, E12 `variable` of an angle.
fn whole_beside(place: Place, constant: ConstValue) -> Result<Whole, TextRefusal>
    ensures { Gives (spec.whole_beside place constant) result }
{
    match constant {
        ConstValue::Phase(_) => Err(TextRefusal::E10(place)),
        ConstValue::Value(value) => whole_value_beside(place, value),
    }
}

/// A value beside an angle.
fn whole_value_beside(place: Place, value: Value) -> Result<Whole, TextRefusal>
    ensures { Gives (spec.whole_beside place (constant_form.Value value)) result }
{
    if value.kind().is_whole() {
        Ok(Whole::new(value.number()))
    } else {
        Err(TextRefusal::E12(place, Cause::Variable))
    }
}

/// A whole number as an angle, which is 0.
fn zero_as_angle(alloc: Global, place: Place, value: Value) -> Result<Boxed<Angle>, TextRefusal>
    ensures { Gives (spec.as_angle place (constant_form.Value value)) result }
{
    let number = whole_value_beside(place, value)?;
    if number.number() == 0 {
        let units = Phase::zero();
        return Ok(Boxed::new(alloc, Angle::Units { units })?);
    }
    Err(TextRefusal::E10(place))
}

/// A constant as an angle: a phase, or the whole number 0.
fn as_angle(alloc: Global, place: Place, constant: ConstValue) -> Result<Boxed<Angle>, TextRefusal>
    ensures { Gives (spec.as_angle place constant) result }
{
    match constant {
        ConstValue::Phase(units) => Ok(Boxed::new(alloc, Angle::Units { units })?),
        ConstValue::Value(value) => zero_as_angle(alloc, place, value),
    }
}

/// An operator between two angles.
fn two_angles(
    alloc: Global,
    place: Place,
    operator: InfixOperator,
    left: Boxed<Angle>,
    right: Boxed<Angle>,
) -> Result<Reckoned, TextRefusal>
    ensures { Reckons (spec.two_angles place operator left right) result }
{
    match operator {
        InfixOperator::Add => Ok(angular(alloc, Angle::Sum { left, right })?),
        InfixOperator::Sub => Ok(angular(alloc, Angle::Difference { left, right })?),
        _ => Err(TextRefusal::E10(place)),
    }
}

/// An angle times a constant whole number.
fn product(
    alloc: Global,
    place: Place,
    angle: Boxed<Angle>,
    constant: ConstValue,
) -> Result<Reckoned, TextRefusal>
    ensures { Reckons (spec.angle_first place infixes.Mul angle constant) result }
{
    let factor = whole_beside(place, constant)?;
    Ok(angular(alloc, Angle::Product { angle, factor })?)
}

/// An angle over a constant whole number.
fn quotient(
    alloc: Global,
    place: Place,
    angle: Boxed<Angle>,
    constant: ConstValue,
) -> Result<Reckoned, TextRefusal>
    ensures { Reckons (spec.angle_first place infixes.Div angle constant) result }
{
    let divisor = whole_beside(place, constant)?;
    Ok(angular(alloc, Angle::Quotient { angle, divisor })?)
}

/// An operator between an angle and a constant.
fn angle_first(
    alloc: Global,
    place: Place,
    operator: InfixOperator,
    left: Boxed<Angle>,
    right: ConstValue,
) -> Result<Reckoned, TextRefusal>
    ensures { Reckons (spec.angle_first place operator left right) result }
{
    match operator {
        InfixOperator::Mul => product(alloc, place, left, right),
        InfixOperator::Div => quotient(alloc, place, left, right),
        _ => {
            let right = as_angle(alloc, place, right)?;
            two_angles(alloc, place, operator, left, right)
        }
    }
}

/// An operator between a constant and an angle.
fn angle_second(
    alloc: Global,
    place: Place,
    operator: InfixOperator,
    left: ConstValue,
    right: Boxed<Angle>,
) -> Result<Reckoned, TextRefusal>
    ensures { Reckons (spec.angle_second place operator left right) result }
{
    match operator {
        InfixOperator::Mul => product(alloc, place, right, left),
        _ => {
            let left = as_angle(alloc, place, left)?;
            two_angles(alloc, place, operator, left, right)
        }
    }
}

/// An operator between two parts, one of which is an angle of parameters.
pub(crate) fn between_reckoned(
    alloc: Global,
    place: Place,
    operator: InfixOperator,
    left: Reckoned,
    right: Reckoned,
) -> Result<Reckoned, TextRefusal>
    ensures { Reckons (spec.between_reckoned place operator (as_reckoned left) (as_reckoned right)) result }
{
    match (left, right) {
        (Reckoned::Angular { angle: left }, Reckoned::Angular { angle: right }) => {
            two_angles(alloc, place, operator, left, right)
        }
        (Reckoned::Angular { angle }, Reckoned::Constant { constant }) => {
            angle_first(alloc, place, operator, angle, constant)
        }
        (Reckoned::Constant { constant }, Reckoned::Angular { angle }) => {
            angle_second(alloc, place, operator, constant, angle)
        }
        (Reckoned::Constant { .. }, Reckoned::Constant { .. }) => Err(TextRefusal::E10(place)),
    }
}

/// An operator before an angle of parameters.
pub(crate) fn before_reckoned(
    alloc: Global,
    place: Place,
    operator: PrefixOperator,
    of: Reckoned,
) -> Result<Reckoned, TextRefusal>
    ensures { Reckons (spec.before_reckoned place operator (as_reckoned of)) result }
{
    match (operator, of) {
        (PrefixOperator::Neg, Reckoned::Angular { angle }) => {
            Ok(angular(alloc, Angle::Opposite { angle })?)
        }
        _ => Err(TextRefusal::E10(place)),
    }
}

/// The number of a parameter of the gate.
fn parameter_kept(it: &Named) -> Option<u32>
    ensures { result ≡ spec.parameter_kept it.now.of it.now.places }
{
    match (it.of, &it.places) {
        (Some(ValueType::Phase), Places::Number { number }) => Some(*number),
        _ => None,
    }
}

/// The number of the parameter that something with a name is.
pub(crate) fn parameter_number(it: &Named) -> Option<u32>
    ensures { result ≡ spec.parameter_number it.now.what it.now }
{
    match it.what {
        What::Parameter => parameter_kept(it),
        _ => None,
    }
}

/// A parameter of the gate, without an index: E8 of another name, E10 of one with an index.
pub(crate) fn parameter_angle(
    alloc: Global,
    place: Place,
    name: &Label,
    brackets: &[Items<Index>],
    number: Option<u32>,
) -> Result<Reckoned, TextRefusal>
    ensures { Reckons (spec.parameter_angle place name.now (spec.no_brackets brackets.now) number) result }
{
    match (number, brackets) {
        (None, _) => Err(unfit(alloc, place, name)),
        (Some(number), []) => Ok(angular(alloc, Angle::Parameter { number })?),
        (Some(_), _) => Err(TextRefusal::E10(place)),
    }
}

/// The refusal of a parameter as a value of another type.
pub(crate) fn cast_parameter(place: Place, to: ValueType) -> Result<Reckoned, TextRefusal>
    ensures { Reckons (spec.cast_parameter place to) result }
{
    match to {
        ValueType::Angle(_) => Err(TextRefusal::E12(place, Cause::Variable)),
        _ => Err(TextRefusal::E10(place)),
    }
}
