//! Calls of subroutines.

ghost use Rattle.std.specs.Prelude.{◌≡◌, Ok};
ghost use Rattle.std.specs.Option.{option_copied};
ghost use Rattle.qt_typing.specs.Checked.{Gives, Makes};
ghost use Rattle.qt_typing.specs.Calls as spec;
ghost use Rattle.qt_check_calls.specs.Forms.{given_of, GivesGiven};

use crate::arguments::{Given, arguments};
use qt_check_declarations::state::{span_from, take_slots};
use qt_check_operands::names::unfit;
use qt_names::named::{Named, Places, What};
use qt_tree::expression::Expr;
use qt_tree::label::Label;
use qt_tree::place::Place;
use qt_tree::refusal::TextRefusal;
use qt_typed::call::SubroutineCall;
use qt_typed::program::TypedSubroutine;
use qt_typing::names::Names;
use qt_typing::state::{Called, State};
use qt_value::types::ValueType;
use sqlite_items::at;
use std::alloc::Global;

/// The number of a subroutine, where it is one.
#[tactic(auto, unfolding(qt_typing::specs::Calls::subroutine_number))]
pub fn subroutine_number(it: &Named) -> Option<u32>
    ensures { result ≡ spec.subroutine_number it.now }
{
    match (it.what, &it.places) {
        (What::Subroutine, Places::Number { number }) => Some(*number),
        _ => None,
    }
}

/// The number of the subroutine that is called: E8 where the name isn't in scope or is none of a subroutine.
#[tactic(auto, unfolding(qt_typing::specs::Calls::number_called))]
pub fn number_called(
    alloc: Global,
    names: &Names,
    place: Place,
    name: &Label,
) -> Result<u32, TextRefusal>
    ensures { Gives (spec.number_called names.now place name.now) result }
{
    let it = names.scopes.find(name.text(), place)?;
    match subroutine_number(it) {
        Some(number) => Ok(number),
        None => Err(unfit(alloc, place, name)),
    }
}

/// What the subroutine of a number is given.
#[tactic(auto, unfolding(qt_typing::specs::Calls::call_given))]
fn call_given(
    alloc: Global,
    subroutines: &[TypedSubroutine],
    place: Place,
    name: &Label,
    number: u32,
    given: &[Expr],
    names: &Names,
) -> Result<Given, TextRefusal>
    ensures { GivesGiven (spec.call_given subroutines.now place name.now number given.now names.now) result }
{
    match at(subroutines, number as usize) {
        Some(subroutine) => arguments(alloc, names, place, subroutine.parameters.as_slice(), given),
        None => Err(unfit(alloc, place, name)),
    }
}

/// How many slots a frame has.
fn slots_of(subroutine: Option<&TypedSubroutine>) -> u32
    ensures { result ≡ spec.slots_of (option_copied subroutine.entry) }
{
    match subroutine {
        Some(subroutine) => subroutine.slots,
        None => 0,
    }
}

/// The type of a result, where there is one.
fn result_of(subroutine: Option<&TypedSubroutine>) -> Option<ValueType>
    ensures { result ≡ spec.result_of (option_copied subroutine.entry) }
{
    subroutine?.result
}

/// The call of the subroutine of a number, with a frame that it takes.
#[tactic(auto, unfolding(qt_typing::specs::Calls::framed))]
fn framed(state: &mut State, number: u32, given: Given) -> Called
    ensures { spec.framed number (given_of given) state.old ≡ Ok (result, state.new) }
{
    let subroutine = at(state.subroutines.as_slice(), number as usize);
    let (slots, result) = (slots_of(subroutine), result_of(subroutine));
    let first = take_slots(state, slots);
    let frame = span_from(first, state.slots);
    let Given { values, qubits } = given;
    Called {
        call: SubroutineCall {
            subroutine: number,
            frame,
            values,
            qubits,
        },
        result,
    }
}

/// The call of a subroutine: E8 of the name, E14 of another number of arguments, what the first argument is refused for that doesn't fit,
/// and then the frame, which is taken where the call stands. OpenQASM 3.0, "Subroutines".
#[tactic(auto, unfolding(qt_typing::specs::Calls::calling))]
pub fn calling(
    alloc: Global,
    state: &mut State,
    place: Place,
    name: &Label,
    given: &[Expr],
) -> Result<Called, TextRefusal>
    ensures { Makes (spec.calling place name.now given.now state.old) result state.new }
{
    let number = number_called(alloc, &state.names, place, name)?;
    let subroutines = state.subroutines.as_slice();
    let given = call_given(alloc, subroutines, place, name, number, given, &state.names)?;
    Ok(framed(state, number, given))
}
