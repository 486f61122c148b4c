//! Loops and conditions.

ghost use Rattle.std.specs.Prelude.{IfOk, IsTrue};
ghost use Rattle.qt_value.specs.Types.{has_size};
ghost use Rattle.qt_typing.specs.Checked.{Gives};
ghost use Rattle.qt_typing.specs.Statements as spec;

use crate::sequences::values_of;
use qt_check_expressions::constants::type_at;
use qt_check_expressions::convert::truth_at;
use qt_check_operands::expression::typed;
use qt_const::modes::Mode;
use qt_tree::expression::{Expr, Scalar};
use qt_tree::place::Place;
use qt_tree::refusal::TextRefusal;
use qt_tree::statement::Sequence;
use qt_typed::expression::TypedExpr;
use qt_typed::statement::TypedSequence;
use qt_typing::names::Names;
use qt_value::types::ValueType;
use sqlite_items::Boxed;
use std::alloc::Global;

/// The type of a loop's variable: E10 where its values are no whole numbers.
#[tactic(auto, unfolding(qt_typing::specs::Statements::loop_type))]
pub fn loop_type(
    alloc: Global,
    names: &Names,
    place: Place,
    scalar: &Scalar,
) -> Result<ValueType, TextRefusal>
    ensures value { Gives (spec.loop_type place scalar.now names.now) result }
    ensures sized { IfOk result (λ kind. IsTrue (has_size kind)) }
{
    let kind = type_at(alloc, names, Mode::Plain, place, scalar)?;
    if !kind.is_whole() {
        return Err(TextRefusal::E10(place));
    }
    Ok(kind)
}

/// The type of a loop's variable, and then the values that it goes over.
#[tactic(auto, unfolding(qt_typing::specs::Statements::for_values))]
pub fn for_values(
    alloc: Global,
    names: &Names,
    place: Place,
    scalar: &Scalar,
    values: &Sequence,
) -> Result<(ValueType, Boxed<TypedSequence>), TextRefusal>
    ensures { Gives (spec.for_values place scalar.now values.now names.now) result }
{
    let kind = loop_type(alloc, names, place, scalar)?;
    let values = values_of(alloc, names, place, values)?;
    Ok((kind, values))
}

/// The condition of an `if` or a `while`: E10 where it is no truth value and becomes none.
#[tactic(auto, unfolding(qt_typing::specs::Statements::condition_at))]
pub fn condition_at(
    alloc: Global,
    names: &Names,
    place: Place,
    expr: &Expr,
) -> Result<Boxed<TypedExpr>, TextRefusal>
    ensures { Gives (spec.condition_at place expr.now names.now) result }
{
    let of = typed(alloc, names, Mode::Plain, place, expr)?;
    truth_at(alloc, place, of)
}
