//! Declarations of arrays.

ghost use Rattle.std.specs.Option.{option_copied};
ghost use Rattle.qt_typing.specs.Checked.{Makes};
ghost use Rattle.qt_typing.specs.Declarations.{array_of, array_with};

use crate::lengths::element_count;
use crate::lists::optional_values;
use qt_check_declarations::names::new_name;
use qt_check_declarations::sizes::{element_type, lengths_of};
use qt_check_declarations::state::take_slots;
use qt_check_declarations::variables::declare_variable;
use qt_tree::expression::{Expr, Scalar};
use qt_tree::lengths::Lengths;
use qt_tree::place::Place;
use qt_tree::program::ListItem;
use qt_tree::refusal::TextRefusal;
use qt_typed::expression::TypedExpr;
use qt_typed::statement::TypedAction;
use qt_typing::state::State;
use qt_value::types::ValueType;
use sqlite_items::Items;
use std::alloc::Global;

/// Declares an array with its elements, which are typed.
#[tactic(auto, unfolding(qt_typing::specs::Declarations::array_with))]
fn array_with(
    alloc: Global,
    state: &mut State,
    place: Place,
    name: &str,
    kind: ValueType,
    lengths: Lengths,
    values: Option<Items<TypedExpr>>,
    slot: u32,
) -> Result<TypedAction, TextRefusal>
    ensures { Makes (array_with place name.now kind lengths values slot state.old) result state.new }
{
    let count = element_count(lengths.items());
    declare_variable(alloc, state, place, name, kind, lengths, slot)?;
    Ok(TypedAction::DeclareArray {
        kind,
        slot,
        count,
        values,
    })
}

/// `array[int[8], 2, 3] a = {{1, 2, 3}, {4, 5, 6}};`: the type of the elements, the lengths, whether the name is new, and then the values.
/// The elements take a slot each.
#[tactic(auto, unfolding(qt_typing::specs::Declarations::array_of))]
pub fn array_of(
    alloc: Global,
    state: &mut State,
    place: Place,
    scalar: &Scalar,
    dimensions: &[Expr],
    name: &str,
    values: Option<&Items<ListItem>>,
) -> Result<TypedAction, TextRefusal>
    ensures { Makes
        (array_of place scalar.now dimensions.now name.now (option_copied values.entry) state.old)
        result state.new }
{
    let kind = element_type(alloc, &state.names, place, scalar)?;
    let lengths = lengths_of(alloc, &state.names, place, dimensions)?;
    new_name(alloc, &state.names, place, name)?;
    let forms = optional_values(alloc, &state.names, place, kind, lengths.items(), values)?;
    let slot = take_slots(state, element_count(lengths.items()));
    array_with(alloc, state, place, name, kind, lengths, forms, slot)
}
