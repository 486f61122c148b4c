//! Variables and arrays.

ghost use Rattle.std.specs.Prelude.{◌≡◌, Ok, IfOk, OnOk};
ghost use Rattle.qt_typing.specs.Checked.{Makes};
ghost use Rattle.qt_typing.specs.Declarations.{declare_variable, keep_variable, known_lengths, told_at_end, variable_named};

use crate::names::declare;
use qt_const_rules::consts::Known;
use qt_names::named::{Named, Places, What};
use qt_outside::faults::OutOfMemory;
use qt_tree::label::Label;
use qt_tree::lengths::Lengths;
use qt_tree::place::Place;
use qt_tree::refusal::TextRefusal;
use qt_typed::program::TypedOutput;
use qt_typing::state::State;
use qt_value::types::ValueType;
use std::alloc::Global;

/// What the name of a variable or of an array stands for.
#[tactic(auto, unfolding(qt_typing::specs::Declarations::variable_named))]
pub fn variable_named(
    alloc: Global,
    kind: ValueType,
    lengths: &Lengths,
    slot: u32,
) -> Result<Named, OutOfMemory>
    ensures { IfOk result (λ named. named ≡ variable_named kind lengths.now slot) }
{
    Ok(Named {
        what: What::Variable,
        of: Some(kind),
        lengths: lengths.copied(alloc)?,
        places: Places::Number { number: slot },
    })
}

/// What is known of a variable: nothing; of an array, its lengths.
fn known_lengths(alloc: Global, lengths: &Lengths) -> Result<Known, OutOfMemory>
    ensures { IfOk result (λ known. known ≡ known_lengths lengths.now) }
{
    if lengths.items().is_empty() {
        return Ok(Known::Other);
    }
    Ok(Known::Lengths(lengths.copied(alloc)?))
}

/// A global variable may be told at the end.
#[tactic(auto, unfolding(qt_typing::specs::Declarations::keep_variable, qt_typing::specs::Environment::is_global))]
fn keep_variable(state: &mut State, output: TypedOutput) -> Result<(), OutOfMemory>
    ensures { OnOk result (keep_variable output state.old ≡ Ok (tt, state.new)) }
{
    if state.names.scopes.is_outermost() {
        state.variables.push(output)?;
    }
    Ok(())
}

/// A variable that is told at the end.
fn told_at_end(
    alloc: Global,
    name: &str,
    kind: ValueType,
    lengths: Lengths,
    slot: u32,
) -> Result<TypedOutput, OutOfMemory>
    ensures { IfOk result (λ output. output ≡ told_at_end name.now kind lengths slot) }
{
    Ok(TypedOutput {
        name: Label::new(alloc, name)?,
        kind,
        slot,
        lengths,
    })
}

/// Declares a variable, or an array of these lengths.
#[tactic(auto, unfolding(qt_typing::specs::Declarations::declare_variable))]
pub fn declare_variable(
    alloc: Global,
    state: &mut State,
    place: Place,
    name: &str,
    kind: ValueType,
    lengths: Lengths,
    slot: u32,
) -> Result<(), TextRefusal>
    ensures { Makes (declare_variable place name.now kind lengths slot state.old) result state.new }
{
    let named = variable_named(alloc, kind, &lengths, slot)?;
    let known = known_lengths(alloc, &lengths)?;
    declare(state, place, name, named, known)?;
    Ok(keep_variable(state, told_at_end(alloc, name, kind, lengths, slot)?)?)
}
