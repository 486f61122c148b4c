//! Definitions of subroutines: OpenQASM 3.0, "Subroutines".

ghost use Rattle.std.specs.Prelude.{◌≡◌, Ok, map};
ghost use Rattle.std.specs.Option.{option_copied};
ghost use Rattle.qt_typing.specs.Checked.{Makes};
ghost use Rattle.qt_typing.specs.Statements.{statement_typing};
ghost use Rattle.qt_typing.specs.Subroutines as spec;
ghost use Rattle.qt_check.specs.Steps as steps;

use qt_check_bodies::statement::inside;
use qt_check_declarations::names::new_name;
use qt_check_declarations::state::enter;
use qt_check_parameters::parameters::parameters_of;
use qt_check_parameters::results::{around_body, result_slots, result_type_at};
use qt_check_parameters::subroutines::{declare_subroutine, turn_inside};
use qt_tree::expression::Scalar;
use qt_tree::place::Place;
use qt_tree::program::Definition;
use qt_tree::refusal::TextRefusal;
use qt_tree::statement::Statement;
use qt_typed::program::{TypedParameter, TypedSubroutine};
use qt_typing::state::{Body, State};
use qt_value::types::ValueType;
use sqlite_items::Items;
use std::alloc::Global;

/// A subroutine whose frame has the slots that are taken.
fn finished(
    state: &State,
    parameters: Items<TypedParameter>,
    kind: Option<ValueType>,
    body: Body,
) -> TypedSubroutine
    ensures { spec.finished parameters kind body state.now ≡ Ok (result, state.now) }
{
    TypedSubroutine {
        parameters,
        result: kind,
        body: body.statements,
        slots: state.slots,
    }
}

/// The body of a subroutine, in the scope of its parameters.
#[tactic(auto, unfolding(qt_typing::specs::Subroutines::body_of))]
fn body_of(
    alloc: Global,
    state: &mut State,
    body: &[Statement],
    known: usize,
    parameters: Items<TypedParameter>,
    kind: Option<ValueType>,
) -> Result<TypedSubroutine, TextRefusal>
    ensures { Makes (spec.body_of body.now known parameters kind state.old) result state.new }
{
    let first = state.slots;
    let body = inside(alloc, state, around_body(kind), body, first, known)?;
    Ok(finished(state, parameters, kind, body))
}

/// The type of the result, and then the body.
#[tactic(auto, unfolding(qt_typing::specs::Subroutines::result_and_body))]
fn result_and_body(
    alloc: Global,
    state: &mut State,
    place: Place,
    scalar: Option<&Scalar>,
    body: &[Statement],
    known: usize,
    parameters: Items<TypedParameter>,
) -> Result<TypedSubroutine, TextRefusal>
    ensures { Makes (spec.result_and_body place (option_copied scalar.entry) body.now known parameters state.old) result state.new }
{
    let kind = result_type_at(alloc, &state.names, place, scalar)?;
    body_of(alloc, state, body, known, parameters, kind)
}

/// The parameters of a subroutine, and what stands behind them, in its scope.
#[tactic(auto, unfolding(crate::specs::Steps::parameters_and_body))]
fn parameters_and_body(
    alloc: Global,
    state: &mut State,
    it: &Definition,
    known: usize,
) -> Result<TypedSubroutine, TextRefusal>
    ensures { Makes (steps.parameters_and_body it.now known state.old) result state.new }
{
    let parameters = parameters_of(alloc, state, it.place, it.parameters.as_slice())?;
    result_and_body(
        alloc,
        state,
        it.place,
        it.result.as_ref(),
        it.body.as_slice(),
        known,
        parameters,
    )
}

/// A subroutine among the names that it sees, whose frame has a slot for its result alone.
#[tactic(auto, unfolding(qt_typing::specs::Subroutines::typed_inside, crate::specs::Steps::parameters_and_body))]
fn typed_inside(
    alloc: Global,
    state: &mut State,
    it: &Definition,
) -> Result<TypedSubroutine, TextRefusal>
    ensures { Makes (spec.typed_inside it.now state.old) result state.new }
{
    let known = state.names.consts.len();
    enter(state)?;
    parameters_and_body(alloc, state, it, known)
}

/// A subroutine in a frame of its own. Behind it the names and slots are those before it.
#[tactic(auto, unfolding(qt_typing::specs::Subroutines::subroutine_of))]
pub fn subroutine_of(
    alloc: Global,
    state: &mut State,
    definition: &Definition,
) -> Result<TypedSubroutine, TextRefusal>
    ensures { Makes (spec.subroutine_of definition.now state.old) result state.new }
{
    let slots = state.slots;
    turn_inside(state, result_slots(definition.result.as_ref()));
    let subroutine = typed_inside(alloc, state, definition)?;
    turn_inside(state, slots);
    Ok(subroutine)
}

/// A subroutine whose name is new.
#[tactic(auto, unfolding(crate::specs::Steps::new_subroutine))]
fn new_subroutine(alloc: Global, state: &mut State, it: &Definition) -> Result<(), TextRefusal>
    ensures { Makes (steps.new_subroutine it.now state.old) result state.new }
{
    let subroutine = subroutine_of(alloc, state, it)?;
    declare_subroutine(alloc, state, it.place, it.name.text(), subroutine)
}

/// `def f(qubit q, int n) -> bit { .. }`: whether the name is new, then the subroutine, which later statements and subroutines may call.
#[tactic(auto, unfolding(qt_typing::specs::Subroutines::definition, crate::specs::Steps::new_subroutine))]
pub fn definition(alloc: Global, state: &mut State, it: &Definition) -> Result<(), TextRefusal>
    ensures { Makes (spec.definition it.now state.old) result state.new }
{
    new_name(alloc, &state.names, it.place, it.name.text())?;
    new_subroutine(alloc, state, it)
}
