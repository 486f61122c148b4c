//! Calls of subroutines, and `return`.

ghost use Rattle.std.specs.Option.{option_copied};
ghost use Rattle.qt_typing.specs.Checked.{Makes};
ghost use Rattle.qt_typing.specs.Statements as spec;

use qt_check_calls::calls::calling;
use qt_check_calls::right::right_at;
use qt_tree::expression::Expr;
use qt_tree::label::Label;
use qt_tree::place::Place;
use qt_tree::refusal::{Cause, TextRefusal};
use qt_tree::statement::Right;
use qt_typed::statement::TypedAction;
use qt_typing::state::{Returns, State};
use std::alloc::Global;

/// `name(given);`: a call whose result is dropped. OpenQASM 3.0, "Subroutines".
#[tactic(auto, unfolding(qt_typing::specs::Statements::call_statement))]
pub fn call_statement(
    alloc: Global,
    state: &mut State,
    place: Place,
    name: &Label,
    given: &[Expr],
) -> Result<TypedAction, TextRefusal>
    ensures { Makes (spec.call_statement place name.now given.now state.old) result state.new }
{
    let called = calling(alloc, state, place, name, given)?;
    Ok(TypedAction::Call { call: called.call })
}

/// `return value;`: it has a value exactly where the subroutine that it stands in has a result; else E11 `return`. OpenQASM 3.0,
/// "Subroutines".
#[tactic(auto, using(crate::proofs::Returns::returns_are))]
pub fn returned(
    alloc: Global,
    state: &mut State,
    place: Place,
    returns: Returns,
    value: Option<&Right>,
) -> Result<TypedAction, TextRefusal>
    ensures { Makes (spec.return place returns (option_copied value.entry) state.old) result state.new }
{
    match (returns, value) {
        (Returns::Nothing, None) => Ok(TypedAction::Return { value: None }),
        (Returns::Value { kind }, Some(value)) => {
            let form = right_at(alloc, state, place, kind, value)?;
            Ok(TypedAction::Return {
                value: Some(form.into_inner()),
            })
        }
        _ => Err(TextRefusal::E11(place, Cause::Return)),
    }
}
