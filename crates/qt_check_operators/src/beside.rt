//! What stands beside a value: another value, a phase as an angle, or 0.

ghost use Rattle.std.specs.Prelude.{IsTrue};
ghost use Rattle.qt_value.specs.OpTypes.{result_type};
ghost use Rattle.qt_value.specs.Types.{has_size};
ghost use Rattle.qt_value.specs.declared.types.ValueType.TheVariants as kind;
ghost use Rattle.qt_typing.specs.Checked.{Gives};
ghost use Rattle.qt_typing.specs.Conversions.{phase_at};
ghost use Rattle.qt_typing.specs.Operators as spec;

use qt_check_expressions::constants::{answer_at, is_zero_at, phase_at};
use qt_check_expressions::convert::constant;
use qt_const::modes::Mode;
use qt_const_rules::angles::angle_of;
use qt_phase::phase::Phase;
use qt_tree::expression::Expr;
use qt_tree::place::Place;
use qt_tree::refusal::TextRefusal;
use qt_typed::expression::TypedExpr;
use qt_typing::names::Names;
use qt_typing::operand::{Beside, Operand};
use qt_value::operators::{Op, op_type};
use qt_value::types::ValueType;
use qt_value::value::Value;
use sqlite_items::Boxed;
use std::alloc::Global;

/// The angle 0, where angles have that operator.
#[tactic(auto, unfolding(qt_typing::specs::Operators::zero_beside))]
fn zero_angle_beside(
    alloc: Global,
    names: &Names,
    mode: Mode,
    place: Place,
    operator: Op,
    width: u8,
    written: &Expr,
) -> Result<Beside, TextRefusal>
    ensures { Gives (spec.zero_beside names.now mode place operator (kind.Angle width) written.now) result }
{
    let kind = ValueType::Angle(width);
    let zero = is_zero_at(alloc, names, mode, place, written)?;
    match (op_type(operator, kind, kind), Value::new(kind, 0)) {
        (Some(result), Some(value)) if zero => Ok(Beside {
            kind,
            form: constant(alloc, value)?,
            result,
        }),
        _ => Err(TextRefusal::E10(place)),
    }
}

/// 0 beside an angle.
#[tactic(auto, unfolding(qt_typing::specs::Operators::zero_beside))]
pub(crate) fn zero_beside(
    alloc: Global,
    names: &Names,
    mode: Mode,
    place: Place,
    operator: Op,
    of: ValueType,
    written: &Expr,
) -> Result<Beside, TextRefusal>
    ensures { Gives (spec.zero_beside names.now mode place operator of written.now) result }
{
    match of {
        ValueType::Angle(width) => {
            zero_angle_beside(alloc, names, mode, place, operator, width, written)
        }
        _ => Err(TextRefusal::E10(place)),
    }
}

/// A phase beside an angle of a width, where angles have a row with this type.
fn angle_beside(
    alloc: Global,
    place: Place,
    width: u8,
    row: ValueType,
    phase: Phase,
) -> Result<Beside, TextRefusal>
    requires { IsTrue (has_size (kind.Angle width)) }
    ensures { Gives (spec.angle_beside place width row phase) result }
{
    let value = answer_at(place, angle_of(width, phase))?;
    Ok(Beside {
        kind: ValueType::Angle(width),
        form: constant(alloc, value)?,
        result: row,
    })
}

/// A phase that has to be constant beside an angle.
#[tactic(auto, unfolding(qt_typing::specs::Operators::phase_beside))]
pub(crate) fn phase_beside(
    alloc: Global,
    names: &Names,
    mode: Mode,
    place: Place,
    operator: Op,
    width: u8,
    written: &Expr,
) -> Result<Beside, TextRefusal>
    ensures { Gives (spec.phase_beside place width (spec.angle_row operator width) (phase_at names.now mode place written.now)) result }
{
    let kind = ValueType::Angle(width);
    match op_type(operator, kind, kind) {
        Some(row) if kind.has_size() => {
            let phase = phase_at(alloc, names, mode, place, written)?;
            angle_beside(alloc, place, width, row, phase)
        }
        _ => Err(TextRefusal::E10(place)),
    }
}

/// A value beside an operand of a type: by their row, or 0 beside an angle.
#[tactic(auto, unfolding(qt_typing::specs::Operators::value_beside))]
fn value_beside(
    alloc: Global,
    names: &Names,
    mode: Mode,
    place: Place,
    operator: Op,
    left: ValueType,
    kind: ValueType,
    form: Boxed<TypedExpr>,
    written: &Expr,
) -> Result<Beside, TextRefusal>
    ensures { Gives (spec.value_beside names.now mode place operator left kind form written.now (result_type operator left kind)) result }
{
    match op_type(operator, left, kind) {
        Some(result) => Ok(Beside { kind, form, result }),
        None => zero_beside(alloc, names, mode, place, operator, left, written),
    }
}

/// A phase that has to be constant, beside an operand of a type.
fn phase_beside_value(
    alloc: Global,
    names: &Names,
    mode: Mode,
    place: Place,
    operator: Op,
    left: ValueType,
    written: &Expr,
) -> Result<Beside, TextRefusal>
    ensures { Gives (spec.phase_beside_value place operator left (phase_at names.now mode place written.now)) result }
{
    match left {
        ValueType::Angle(width) => {
            phase_beside(alloc, names, mode, place, operator, width, written)
        }
        _ => Err(TextRefusal::E10(place)),
    }
}

/// The right operand of an operator whose left one has a type. E10 exactly where no row fits, and the right operand is neither the
/// constant whole number 0 nor a phase beside an angle; such a phase has to be constant, and is E12 where it is no whole number of the
/// angle's steps.
#[tactic(auto, unfolding(qt_typing::specs::Operators::right_beside))]
pub fn right_beside(
    alloc: Global,
    names: &Names,
    mode: Mode,
    place: Place,
    operator: Op,
    left: ValueType,
    written: &Expr,
    of: Operand,
) -> Result<Beside, TextRefusal>
    ensures { Gives (spec.right_beside names.now mode place operator left written.now of) result }
{
    match of {
        Operand::Value { kind, form } => {
            value_beside(
                alloc, names, mode, place, operator, left, kind, form, written,
            )
        }
        Operand::Phase { .. } => {
            phase_beside_value(alloc, names, mode, place, operator, left, written)
        }
    }
}
