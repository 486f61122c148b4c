//! Assignments.

ghost use Rattle.qt_typing.specs.Calls as calls;
ghost use Rattle.qt_typing.specs.Checked.{Gives, Makes};
ghost use Rattle.qt_typing.specs.Statements as spec;
ghost use Rattle.qt_check_calls.specs.Forms.{form_of};

use qt_check_calls::calls::calling;
use qt_check_calls::right::{RightForm, call_as, result_at, right_form};
use qt_check_expressions::convert::wanted;
use qt_check_operands::expression::typed;
use qt_check_qubits::operands::operand_qubits;
use qt_check_targets::targets::{measured_target, target_at};
use qt_const::modes::Mode;
use qt_tree::expression::Expr;
use qt_tree::label::Label;
use qt_tree::place::Place;
use qt_tree::refusal::TextRefusal;
use qt_tree::statement::{Operand, Right, Target};
use qt_typed::statement::{TypedAction, TypedRight};
use qt_typing::names::Names;
use qt_typing::state::{Called, State};
use qt_typing::way::Way;
use std::alloc::Global;

/// The value of an expression becomes that of a target.
#[tactic(auto, unfolding(qt_typing::specs::Statements::assign_value))]
fn assign_value(
    alloc: Global,
    names: &Names,
    place: Place,
    target: &Target,
    expr: &Expr,
) -> Result<TypedAction, TextRefusal>
    ensures { Gives (spec.assign_value place target.now expr.now names.now) result }
{
    let of = typed(alloc, names, Mode::Plain, place, expr)?;
    let target = target_at(alloc, names, place, target)?;
    let kind = target.get().kind;
    let form = wanted(
        alloc,
        Way::Unwritten,
        names,
        Mode::Plain,
        place,
        kind,
        expr,
        of,
    )?;
    Ok(TypedAction::Assign {
        target: target.into_inner(),
        value: TypedRight::Value {
            value: form.into_inner(),
        },
    })
}

/// The outcomes of qubits become the value of a target.
#[tactic(auto, unfolding(qt_typing::specs::Statements::assign_outcomes))]
fn assign_outcomes(
    alloc: Global,
    names: &Names,
    place: Place,
    target: &Target,
    qubits: &Operand,
) -> Result<TypedAction, TextRefusal>
    ensures { Gives (spec.assign_outcomes place target.now qubits.now names.now) result }
{
    let of = operand_qubits(alloc, names, place, qubits)?;
    let target = measured_target(alloc, names, place, of.get(), target)?;
    Ok(TypedAction::Assign {
        target: target.into_inner(),
        value: TypedRight::Measure {
            qubits: of.into_inner(),
        },
    })
}

/// The result of a call becomes the value of a target: E10 where it has none or its type doesn't fit.
#[tactic(auto, unfolding(qt_typing::specs::Statements::assign_result))]
fn assign_result(
    alloc: Global,
    names: &Names,
    place: Place,
    target: &Target,
    called: Called,
) -> Result<TypedAction, TextRefusal>
    ensures { Gives (spec.assign_result place target.now called names.now) result }
{
    let from = result_at(place, &called)?;
    let target = target_at(alloc, names, place, target)?;
    let value = call_as(alloc, place, target.get().kind, called, from)?;
    Ok(TypedAction::Assign {
        target: target.into_inner(),
        value: value.into_inner(),
    })
}

/// The result of a subroutine's call becomes the value of a target.
fn assign_call(
    alloc: Global,
    state: &mut State,
    place: Place,
    target: &Target,
    name: &Label,
    given: &[Expr],
) -> Result<TypedAction, TextRefusal>
    ensures { Makes (spec.assign place target.now (calls.Calls name.now given.now) state.old) result state.new }
{
    let called = calling(alloc, state, place, name, given)?;
    assign_result(alloc, &state.names, place, target, called)
}

/// What a right side is becomes the value of a target.
fn assign(
    alloc: Global,
    state: &mut State,
    place: Place,
    target: &Target,
    form: RightForm<'_>,
) -> Result<TypedAction, TextRefusal>
    ensures { Makes (spec.assign place target.now (form_of form.entry) state.old) result state.new }
{
    match form {
        RightForm::Measured { qubits } => {
            assign_outcomes(alloc, &state.names, place, target, qubits)
        }
        RightForm::Calls { name, given } => assign_call(alloc, state, place, target, name, given),
        RightForm::Plain { expr } => assign_value(alloc, &state.names, place, target, expr),
    }
}

/// `target = value;`: what the right side is refused for, then the target, and then whether the one fits the other. OpenQASM 3.0,
/// "Classical instructions".
#[tactic(auto, unfolding(qt_typing::specs::Statements::assignment))]
pub fn assignment(
    alloc: Global,
    state: &mut State,
    place: Place,
    target: &Target,
    value: &Right,
) -> Result<TypedAction, TextRefusal>
    ensures { Makes (spec.assignment place target.now value.now state.old) result state.new }
{
    let form = right_form(&state.names, value);
    assign(alloc, state, place, target, form)
}
