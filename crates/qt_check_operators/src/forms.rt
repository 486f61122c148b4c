//! Operators between values, as they are kept.

ghost use Rattle.std.specs.Prelude.{◌≡◌, IfOk};
ghost use Rattle.qt_typing.specs.declared.operand.Operand.TheVariants as operand_form;
ghost use Rattle.qt_typing.specs.Operators as spec;

use qt_const::modes::Mode;
use qt_outside::faults::OutOfMemory;
use qt_typed::expression::TypedExpr;
use qt_typing::operand::{Beside, Operand};
use qt_value::operators::Op;
use qt_value::types::ValueType;
use sqlite_items::Boxed;
use std::alloc::Global;

/// An operator between two values, or the exact quotient of whole numbers inside a phase.
#[tactic(auto, unfolding(qt_typing::specs::Operators::operator_form))]
fn operator_form(
    alloc: Global,
    mode: Mode,
    operator: Op,
    of: ValueType,
    other: ValueType,
    left: Boxed<TypedExpr>,
    right: Boxed<TypedExpr>,
) -> Result<Boxed<TypedExpr>, OutOfMemory>
    ensures { IfOk result (λ form. form ≡ spec.operator_form mode operator of other left right) }
{
    let form = match (mode, operator) {
        (Mode::Exact, Op::Div) if of.is_whole() && other.is_whole() => {
            TypedExpr::ExactQuotient { left, right }
        }
        _ => TypedExpr::Binary {
            operator,
            left,
            right,
        },
    };
    Ok(Boxed::new(alloc, form)?)
}

/// Two values whose row gives the type of the result.
pub(crate) fn by_row(
    alloc: Global,
    mode: Mode,
    operator: Op,
    row: ValueType,
    left: ValueType,
    left_form: Boxed<TypedExpr>,
    right: ValueType,
    right_form: Boxed<TypedExpr>,
) -> Result<Operand, OutOfMemory>
    ensures { IfOk result (λ operand. operand ≡ operand_form.Value row (spec.operator_form mode operator left right left_form right_form)) }
{
    Ok(Operand::Value {
        kind: row,
        form: operator_form(alloc, mode, operator, left, right, left_form, right_form)?,
    })
}

/// A value and what stands beside it, behind it.
pub(crate) fn joined(
    alloc: Global,
    mode: Mode,
    operator: Op,
    of: ValueType,
    form: Boxed<TypedExpr>,
    beside: Beside,
) -> Result<Operand, OutOfMemory>
    ensures { IfOk result (λ operand. operand ≡ spec.joined mode operator of form beside) }
{
    Ok(Operand::Value {
        kind: beside.result,
        form: operator_form(alloc, mode, operator, of, beside.kind, form, beside.form)?,
    })
}

/// A value and what stands beside it, before it.
pub(crate) fn joined_left(
    alloc: Global,
    mode: Mode,
    operator: Op,
    of: ValueType,
    form: Boxed<TypedExpr>,
    beside: Beside,
) -> Result<Operand, OutOfMemory>
    ensures { IfOk result (λ operand. operand ≡ spec.joined_left mode operator of form beside) }
{
    Ok(Operand::Value {
        kind: beside.result,
        form: operator_form(alloc, mode, operator, beside.kind, of, beside.form, form)?,
    })
}
