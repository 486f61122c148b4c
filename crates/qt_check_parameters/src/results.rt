//! Results of subroutines.

ghost use Rattle.std.specs.Prelude.{◌≡◌};
ghost use Rattle.std.specs.Option.{option_copied};
ghost use Rattle.qt_typing.specs.Checked.{Gives};
ghost use Rattle.qt_typing.specs.Subroutines.{around_body, result_slots, result_type_at, returns_of};

use qt_check_expressions::constants::type_at;
use qt_const::modes::Mode;
use qt_tree::expression::Scalar;
use qt_tree::place::Place;
use qt_tree::refusal::TextRefusal;
use qt_typing::names::Names;
use qt_typing::state::{Around, Returns};
use qt_value::types::ValueType;
use std::alloc::Global;

/// How many slots the result takes, which has the first one.
pub fn result_slots(scalar: Option<&Scalar>) -> u32
    ensures { result ≡ result_slots (option_copied scalar.entry) }
{
    match scalar {
        None => 0,
        Some(_) => 1,
    }
}

/// The type of the result, if one is written.
#[tactic(auto, unfolding(qt_typing::specs::Subroutines::result_type_at))]
pub fn result_type_at(
    alloc: Global,
    names: &Names,
    place: Place,
    scalar: Option<&Scalar>,
) -> Result<Option<ValueType>, TextRefusal>
    ensures { Gives (result_type_at place (option_copied scalar.entry) names.now) result }
{
    match scalar {
        None => Ok(None),
        Some(scalar) => Ok(Some(type_at(alloc, names, Mode::Plain, place, scalar)?)),
    }
}

/// What a `return` in the body may give.
pub fn returns_of(kind: Option<ValueType>) -> Returns
    ensures { result ≡ returns_of kind }
{
    match kind {
        None => Returns::Nothing,
        Some(kind) => Returns::Value { kind },
    }
}

/// What stands around the statements of the body.
#[tactic(auto, unfolding(qt_typing::specs::Subroutines::around_body))]
pub fn around_body(kind: Option<ValueType>) -> Around
    ensures { result ≡ around_body kind }
{
    Around {
        in_loop: false,
        returns: returns_of(kind),
    }
}
