//! Calls of the functions of the language.

ghost use Rattle.qt_typing.specs.Checked.{Gives};
ghost use Rattle.qt_typing.specs.Expressions as spec;
ghost use Rattle.qt_value.specs.OpTypes.{result_type};

use qt_check_operators::operators::unary_row;
use qt_tree::place::Place;
use qt_tree::refusal::TextRefusal;
use qt_typed::expression::TypedExpr;
use qt_typing::operand::Operand;
use qt_value::operators::{Op, UnaryOp, op_type};
use qt_value::types::ValueType;
use sqlite_items::Boxed;
use std::alloc::Global;

/// `popcount(of)`
pub(crate) fn counted(alloc: Global, place: Place, of: Operand) -> Result<Operand, TextRefusal>
    ensures { Gives (spec.counted place of) result }
{
    match of {
        Operand::Value { kind, form } => unary_row(alloc, place, UnaryOp::Popcount, kind, form),
        Operand::Phase { .. } => Err(TextRefusal::E10(place)),
    }
}

/// A value turned by places, where a row of the table fits.
fn turned_row(
    alloc: Global,
    place: Place,
    operator: Op,
    of: ValueType,
    left: Boxed<TypedExpr>,
    by: ValueType,
    right: Boxed<TypedExpr>,
) -> Result<Operand, TextRefusal>
    ensures { Gives (spec.turned_row place operator left right (result_type operator of by)) result }
{
    match op_type(operator, of, by) {
        None => Err(TextRefusal::E10(place)),
        Some(kind) => Ok(Operand::Value {
            kind,
            form: Boxed::new(
                alloc,
                TypedExpr::Binary {
                    operator,
                    left,
                    right,
                },
            )?,
        }),
    }
}

/// `rotl(of, by)` and `rotr(of, by)`
pub(crate) fn turned(
    alloc: Global,
    place: Place,
    operator: Op,
    of: Operand,
    by: Operand,
) -> Result<Operand, TextRefusal>
    ensures { Gives (spec.turned place operator of by) result }
{
    match (of, by) {
        (
            Operand::Value {
                kind: of,
                form: left,
            },
            Operand::Value {
                kind: by,
                form: right,
            },
        ) => turned_row(alloc, place, operator, of, left, by, right),
        _ => Err(TextRefusal::E10(place)),
    }
}
