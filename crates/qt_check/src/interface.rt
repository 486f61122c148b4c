//! Inputs and outputs: OpenQASM 3.0, "Input/output".

ghost use Rattle.std.specs.Prelude.{◌≡◌, [], Ok, IfOk, OnOk};
ghost use Rattle.qt_typing.specs.Checked.{Makes};
ghost use Rattle.qt_typing.specs.Declarations.{told_at_end};
ghost use Rattle.qt_typing.specs.Inputs as inputs;
ghost use Rattle.qt_typing.specs.Programs as programs;

use qt_check_declarations::names::declare;
use qt_check_declarations::sizes::typed_name;
use qt_check_declarations::state::take_slots;
use qt_check_declarations::variables::declare_variable;
use qt_const_rules::consts::Known;
use qt_names::named::{Named, Places, What};
use qt_outside::faults::OutOfMemory;
use qt_tree::expression::Scalar;
use qt_tree::label::Label;
use qt_tree::lengths::Lengths;
use qt_tree::place::Place;
use qt_tree::refusal::TextRefusal;
use qt_typed::program::TypedOutput;
use qt_typing::state::State;
use qt_value::types::ValueType;
use std::alloc::Global;

/// A variable with one value.
fn single(alloc: Global, name: &str, kind: ValueType, slot: u32) -> Result<TypedOutput, OutOfMemory>
    ensures { IfOk result (λ it. it ≡ told_at_end name.now kind [] slot) }
{
    Ok(TypedOutput {
        name: Label::new(alloc, name)?,
        kind,
        slot,
        lengths: Lengths::from_vec(Vec::new(alloc)),
    })
}

/// What the name of an input stands for: nothing is assigned to it, and it has a slot.
fn input_named(alloc: Global, kind: ValueType, slot: u32) -> Named
    ensures { result ≡ inputs.input_named kind slot }
{
    Named {
        what: What::Constant,
        of: Some(kind),
        lengths: Lengths::from_vec(Vec::new(alloc)),
        places: Places::Number { number: slot },
    }
}

/// Keeps an input behind those before it.
#[tactic(auto, unfolding(qt_typing::specs::Inputs::keep_input))]
fn keep_input(state: &mut State, input: TypedOutput) -> Result<(), OutOfMemory>
    ensures { OnOk result (inputs.keep_input input state.old ≡ Ok (tt, state.new)) }
{
    Ok(state.inputs.push(input)?)
}

/// Declares an input with its slot.
#[tactic(auto, unfolding(qt_typing::specs::Inputs::input_at))]
fn input_at(
    alloc: Global,
    state: &mut State,
    place: Place,
    name: &str,
    kind: ValueType,
    slot: u32,
) -> Result<(), TextRefusal>
    ensures { Makes (inputs.input_at place name.now kind slot state.old) result state.new }
{
    declare(
        state,
        place,
        name,
        input_named(alloc, kind, slot),
        Known::Other,
    )?;
    Ok(keep_input(state, single(alloc, name, kind, slot)?)?)
}

/// `input int[8] n;`: the type, and then whether the name is new.
#[tactic(auto, unfolding(qt_typing::specs::Inputs::input_of))]
pub fn input_of(
    alloc: Global,
    state: &mut State,
    place: Place,
    scalar: &Scalar,
    name: &str,
) -> Result<(), TextRefusal>
    ensures { Makes (inputs.input_of place scalar.now name.now state.old) result state.new }
{
    let kind = typed_name(alloc, &state.names, place, scalar, name)?;
    let slot = take_slots(state, 1);
    input_at(alloc, state, place, name, kind, slot)
}

/// Keeps an output behind those before it.
#[tactic(auto, unfolding(qt_typing::specs::Programs::keep_output))]
fn keep_output(state: &mut State, output: TypedOutput) -> Result<(), OutOfMemory>
    ensures { OnOk result (programs.keep_output output state.old ≡ Ok (tt, state.new)) }
{
    Ok(state.outputs.push(output)?)
}

/// Declares an output with its slot.
#[tactic(auto, unfolding(qt_typing::specs::Programs::output_at))]
fn output_at(
    alloc: Global,
    state: &mut State,
    place: Place,
    name: &str,
    kind: ValueType,
    slot: u32,
) -> Result<(), TextRefusal>
    ensures { Makes (programs.output_at place name.now kind slot state.old) result state.new }
{
    let lengths = Lengths::from_vec(Vec::new(alloc));
    declare_variable(alloc, state, place, name, kind, lengths, slot)?;
    Ok(keep_output(state, single(alloc, name, kind, slot)?)?)
}

/// `output bit[2] c;`: the type, and then whether the name is new.
#[tactic(auto, unfolding(qt_typing::specs::Programs::output_of))]
pub fn output_of(
    alloc: Global,
    state: &mut State,
    place: Place,
    scalar: &Scalar,
    name: &str,
) -> Result<(), TextRefusal>
    ensures { Makes (programs.output_of place scalar.now name.now state.old) result state.new }
{
    let kind = typed_name(alloc, &state.names, place, scalar, name)?;
    let slot = take_slots(state, 1);
    output_at(alloc, state, place, name, kind, slot)
}
