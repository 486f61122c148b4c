//! Operators between typed operands.

ghost use Rattle.std.specs.Prelude.{◌≡◌, Ok, None};
ghost use Rattle.qt_value.specs.OpTypes.{result_type, unary_result_type};
ghost use Rattle.qt_value.specs.declared.types.ValueType.TheVariants as kind;
ghost use Rattle.qt_typing.specs.Checked.{Gives, and_then};
ghost use Rattle.qt_typing.specs.Operators as spec;

use crate::beside::zero_beside;
use crate::forms::{by_row, joined, joined_left};
use crate::phases::{opposite, phase_first, phase_second, two_phases};
use qt_check_expressions::convert::truth_at;
use qt_const::modes::Mode;
use qt_tree::expression::{Expr, InfixOperator};
use qt_tree::place::Place;
use qt_tree::refusal::TextRefusal;
use qt_typed::expression::{Logical, TypedExpr};
use qt_typing::names::Names;
use qt_typing::operand::Operand;
use qt_value::operators::{Op, UnaryOp, op_type, unary_type};
use qt_value::types::ValueType;
use sqlite_items::Boxed;
use std::alloc::Global;

/// A unary operator where a row of the table fits.
#[tactic(auto, unfolding(qt_typing::specs::Operators::unary_row))]
pub fn unary_row(
    alloc: Global,
    place: Place,
    operator: UnaryOp,
    of: ValueType,
    operand: Boxed<TypedExpr>,
) -> Result<Operand, TextRefusal>
    ensures { Gives (spec.unary_row place operator operand (unary_result_type operator of)) result }
{
    match unary_type(operator, of) {
        None => Err(TextRefusal::E10(place)),
        Some(kind) => Ok(Operand::Value {
            kind,
            form: Boxed::new(alloc, TypedExpr::Unary { operator, operand })?,
        }),
    }
}

/// A unary operator before its operand.
#[tactic(auto, unfolding(qt_typing::specs::Operators::before_operand))]
pub fn before_operand(
    alloc: Global,
    place: Place,
    operator: UnaryOp,
    of: Operand,
) -> Result<Operand, TextRefusal>
    ensures { Gives (spec.before_operand place operator of) result }
{
    match of {
        Operand::Value { kind, form } => unary_row(alloc, place, operator, kind, form),
        Operand::Phase { form } => match operator {
            UnaryOp::Neg => Ok(opposite(alloc, form)?),
            _ => Err(TextRefusal::E10(place)),
        },
    }
}

/// `&&` or `||`.
#[tactic(auto, unfolding(qt_typing::specs::Operators::logical_of))]
fn logical_of(operator: InfixOperator) -> Logical
    ensures { result ≡ spec.logical_of operator }
{
    match operator {
        InfixOperator::LogicalAnd => Logical::And,
        _ => Logical::Or,
    }
}

/// `&&` or `||` between two operands, which have to be truth values.
#[tactic(auto, unfolding(qt_typing::specs::Operators::both_true))]
pub fn both_true(
    alloc: Global,
    place: Place,
    operator: InfixOperator,
    left: Operand,
    right: Operand,
) -> Result<Operand, TextRefusal>
    ensures { Gives (spec.both_true place operator left right) result }
{
    let left = truth_at(alloc, place, left)?;
    let right = truth_at(alloc, place, right)?;
    let operator = logical_of(operator);
    Ok(Operand::Value {
        kind: ValueType::Bool,
        form: Boxed::new(
            alloc,
            TypedExpr::Logical {
                operator,
                left,
                right,
            },
        )?,
    })
}

/// 0 on the left of an angle of a width.
fn zero_before_angle(
    alloc: Global,
    names: &Names,
    mode: Mode,
    place: Place,
    operator: Op,
    written: &Expr,
    width: u8,
    form: Boxed<TypedExpr>,
) -> Result<Operand, TextRefusal>
    ensures { Gives
        (and_then (spec.zero_beside names.now mode place operator (kind.Angle width) written.now)
        (λ b. Ok (spec.joined_left mode operator (kind.Angle width) form b)))
        result }
{
    let kind = ValueType::Angle(width);
    let zero = zero_beside(alloc, names, mode, place, operator, kind, written)?;
    Ok(joined_left(alloc, mode, operator, kind, form, zero)?)
}

/// 0 on the right of an angle.
fn zero_behind(
    alloc: Global,
    names: &Names,
    mode: Mode,
    place: Place,
    operator: Op,
    kind: ValueType,
    form: Boxed<TypedExpr>,
    written: &Expr,
) -> Result<Operand, TextRefusal>
    ensures { Gives
        (and_then (spec.zero_beside names.now mode place operator kind written.now)
        (λ b. Ok (spec.joined mode operator kind form b)))
        result }
{
    let zero = zero_beside(alloc, names, mode, place, operator, kind, written)?;
    Ok(joined(alloc, mode, operator, kind, form, zero)?)
}

/// An operator between two values that have no row: one of them is 0 beside an angle.
#[tactic(auto, unfolding(qt_typing::specs::Operators::two_values))]
fn values_without_row(
    alloc: Global,
    names: &Names,
    mode: Mode,
    place: Place,
    operator: Op,
    left: ValueType,
    left_form: Boxed<TypedExpr>,
    written_left: &Expr,
    right: ValueType,
    right_form: Boxed<TypedExpr>,
    written_right: &Expr,
) -> Result<Operand, TextRefusal>
    ensures { Gives
        (spec.two_values names.now mode place operator left left_form written_left.now right right_form written_right.now None)
        result }
{
    match right {
        ValueType::Angle(width) => {
            zero_before_angle(
                alloc,
                names,
                mode,
                place,
                operator,
                written_left,
                width,
                right_form,
            )
        }
        _ => zero_behind(
            alloc,
            names,
            mode,
            place,
            operator,
            left,
            left_form,
            written_right,
        ),
    }
}

/// An operator between two values: by their row, or where one is 0 beside an angle.
#[tactic(auto, unfolding(qt_typing::specs::Operators::two_values))]
fn two_values(
    alloc: Global,
    names: &Names,
    mode: Mode,
    place: Place,
    operator: Op,
    left: ValueType,
    left_form: Boxed<TypedExpr>,
    written_left: &Expr,
    right: ValueType,
    right_form: Boxed<TypedExpr>,
    written_right: &Expr,
) -> Result<Operand, TextRefusal>
    ensures { Gives
        (spec.two_values names.now mode place operator left left_form written_left.now right right_form written_right.now
        (result_type operator left right))
        result }
{
    match op_type(operator, left, right) {
        Some(row) => Ok(by_row(
            alloc, mode, operator, row, left, left_form, right, right_form,
        )?),
        None => values_without_row(
            alloc,
            names,
            mode,
            place,
            operator,
            left,
            left_form,
            written_left,
            right,
            right_form,
            written_right,
        ),
    }
}

/// An operator other than `&&` and `||` between two operands that are typed, the left one before the right one. E10 where no operator
/// fits; a phase beside an angle has to be constant.
#[tactic(auto, unfolding(qt_typing::specs::Operators::combined))]
pub fn combined(
    alloc: Global,
    names: &Names,
    mode: Mode,
    place: Place,
    operator: Op,
    written_left: &Expr,
    left: Operand,
    written_right: &Expr,
    right: Operand,
) -> Result<Operand, TextRefusal>
    ensures { Gives (spec.combined names.now mode place operator written_left.now left written_right.now right) result }
{
    match (left, right) {
        (
            Operand::Value {
                kind: of,
                form: left,
            },
            Operand::Value { kind, form },
        ) => two_values(
            alloc,
            names,
            mode,
            place,
            operator,
            of,
            left,
            written_left,
            kind,
            form,
            written_right,
        ),
        (Operand::Value { kind, form }, Operand::Phase { form: phase }) => phase_second(
            alloc,
            names,
            mode,
            place,
            operator,
            kind,
            form,
            written_left,
            phase,
            written_right,
        ),
        (Operand::Phase { form: phase }, Operand::Value { kind, form }) => phase_first(
            alloc,
            names,
            mode,
            place,
            operator,
            phase,
            written_left,
            kind,
            form,
            written_right,
        ),
        (Operand::Phase { form: left }, Operand::Phase { form: right }) => {
            two_phases(alloc, place, operator, left, right)
        }
    }
}
