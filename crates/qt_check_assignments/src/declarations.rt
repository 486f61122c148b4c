//! Declarations of variables.

ghost use Rattle.std.specs.Prelude.{◌≡◌};
ghost use Rattle.std.specs.Option.{option_copied};
ghost use Rattle.qt_typing.specs.Checked.{Makes};
ghost use Rattle.qt_typing.specs.Declarations as spec;

use qt_check_calls::right::optional_right;
use qt_check_declarations::registers::declared_with;
use qt_check_declarations::sizes::typed_name;
use qt_check_declarations::state::take_slots;
use qt_tree::expression::Scalar;
use qt_tree::place::Place;
use qt_tree::refusal::TextRefusal;
use qt_tree::statement::Right;
use qt_typed::statement::{TypedAction, TypedRight};
use qt_typing::state::State;
use qt_value::types::ValueType;
use sqlite_items::Boxed;
use std::alloc::Global;

/// A right side that may be left out, out of its box.
fn unboxed(form: Option<Boxed<TypedRight>>) -> Option<TypedRight>
    ensures { result ≡ form }
{
    Some(form?.into_inner())
}

/// Declares a variable whose slot is taken, with its right side.
#[tactic(auto, unfolding(qt_typing::specs::Declarations::valued))]
fn valued(
    alloc: Global,
    state: &mut State,
    place: Place,
    name: &str,
    kind: ValueType,
    value: Option<&Right>,
    slot: u32,
) -> Result<TypedAction, TextRefusal>
    ensures { Makes (spec.valued place name.now kind (option_copied value.entry) slot state.old) result state.new }
{
    let form = optional_right(alloc, state, place, kind, value)?;
    declared_with(alloc, state, place, name, kind, slot, unboxed(form))
}

/// `bit[2] c = measure q;`: the type, then whether the name is new, then the right side. The variable's slot comes before the frame of a
/// call in the right side, and its name is in scope behind it alone. OpenQASM 3.0, "Types and Casting".
#[tactic(auto, unfolding(qt_typing::specs::Declarations::declaration_of))]
pub fn declaration_of(
    alloc: Global,
    state: &mut State,
    place: Place,
    scalar: &Scalar,
    name: &str,
    value: Option<&Right>,
) -> Result<TypedAction, TextRefusal>
    ensures { Makes (spec.declaration_of place scalar.now name.now (option_copied value.entry) state.old) result state.new }
{
    let kind = typed_name(alloc, &state.names, place, scalar, name)?;
    let slot = take_slots(state, 1);
    valued(alloc, state, place, name, kind, value, slot)
}
