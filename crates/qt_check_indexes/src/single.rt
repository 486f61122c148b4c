//! Single indexes.

ghost use Rattle.std.specs.Prelude.{◌≡◌, ◌<◌, IfOk, Ok};
ghost use Rattle.qt_typing.specs.Checked.{Gives, and_then};
ghost use Rattle.qt_typing.specs.Indexes as spec;

use crate::ranges::place_at;
use qt_check_expressions::constants::number_at;
use qt_check_expressions::convert::constant;
use qt_check_expressions::sorts::is_fixed;
use qt_const::modes::Mode;
use qt_const_rules::constant::sized;
use qt_outside::faults::OutOfMemory;
use qt_tree::expression::Expr;
use qt_tree::place::Place;
use qt_tree::refusal::TextRefusal;
use qt_typed::expression::TypedExpr;
use qt_typing::names::Names;
use qt_typing::operand::Operand;
use qt_value::types::ValueType;
use sqlite_items::Boxed;
use std::alloc::Global;

/// An index that is typed: E10 exactly where it is no whole number, or what it stands on has no places.
#[tactic(auto, unfolding(qt_typing::specs::Indexes::whole_index))]
pub fn whole_index(place: Place, fits: bool, of: Operand) -> Result<Boxed<TypedExpr>, TextRefusal>
    ensures { Gives (spec.whole_index place fits of) result }
{
    match of {
        Operand::Value { kind, form } if kind.is_whole() && fits => Ok(form),
        _ => Err(TextRefusal::E10(place)),
    }
}

/// The place of a number of places that a constant index is written for.
#[tactic(auto, unfolding(qt_typing::specs::Indexes::fixed_place))]
pub fn fixed_place(
    alloc: Global,
    names: &Names,
    mode: Mode,
    place: Place,
    places: u64,
    written: &Expr,
) -> Result<u64, TextRefusal>
    ensures value { Gives (spec.fixed_place names.now mode place places written.now) result }
    ensures below { IfOk result (λ n. n < places) }
{
    let index = number_at(alloc, names, mode, place, written)?;
    place_at(place, places, index)
}

/// A place as a constant.
fn place_form(alloc: Global, place: u64) -> Result<Boxed<TypedExpr>, OutOfMemory>
    ensures { IfOk result (λ form. form ≡ spec.place_form place) }
{
    constant(alloc, sized(ValueType::Int(64), place))
}

/// A constant index, by its place.
fn fixed_index(
    alloc: Global,
    names: &Names,
    mode: Mode,
    place: Place,
    places: u64,
    written: &Expr,
) -> Result<Boxed<TypedExpr>, TextRefusal>
    ensures { Gives (and_then (spec.fixed_place names.now mode place places written.now) (λ n. Ok (spec.place_form n))) result }
{
    let found = fixed_place(alloc, names, mode, place, places, written)?;
    Ok(place_form(alloc, found)?)
}

/// An index that is typed, of a number of places. It is its place where it is constant as a whole, and E12 `range` where that is none.
#[tactic(auto, unfolding(qt_typing::specs::Indexes::placed_index))]
pub fn placed_index(
    alloc: Global,
    names: &Names,
    mode: Mode,
    place: Place,
    fits: bool,
    places: u64,
    written: &Expr,
    of: Operand,
) -> Result<Boxed<TypedExpr>, TextRefusal>
    ensures { Gives (spec.placed_index names.now mode place fits places written.now of) result }
{
    let form = whole_index(place, fits, of)?;
    if is_fixed(names, written) {
        fixed_index(alloc, names, mode, place, places, written)
    } else {
        Ok(form)
    }
}
