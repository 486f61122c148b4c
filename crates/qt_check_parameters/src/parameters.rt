//! Parameters of subroutines.

ghost use Rattle.std.specs.Prelude.{◌≡◌, [], None, Some, IfOk};
ghost use Rattle.qt_typing.specs.Checked.{Makes};
ghost use Rattle.qt_typing.specs.Subroutines.{parameter_of, parameters_from, qubit_parameter, value_parameter};
ghost use Rattle.qt_typing.specs.Subroutines.{qubit_named, register_named, value_named};

use crate::numbers::next_number;
use qt_check_declarations::names::declare;
use qt_check_declarations::sizes::{optional_size, typed_name};
use qt_check_declarations::state::take_slots;
use qt_const_rules::consts::Known;
use qt_names::named::{Named, Places, What};
use qt_outside::faults::OutOfMemory;
use qt_registers::register::Register;
use qt_tree::lengths::Lengths;
use qt_tree::place::Place;
use qt_tree::program::Parameter;
use qt_tree::refusal::TextRefusal;
use qt_typed::program::TypedParameter;
use qt_typing::state::State;
use qt_value::types::ValueType;
use sqlite_items::Items;
use std::alloc::Global;

/// What the name of a parameter with a type stands for.
fn value_named(alloc: Global, kind: ValueType, slot: u32) -> Named
    ensures { result ≡ value_named kind slot }
{
    Named {
        what: What::Parameter,
        of: Some(kind),
        lengths: Lengths::from_vec(Vec::new(alloc)),
        places: Places::Number { number: slot },
    }
}

/// What the name of a single qubit stands for.
fn qubit_named(alloc: Global, slot: u32) -> Named
    ensures { result ≡ qubit_named slot }
{
    Named {
        what: What::Parameter,
        of: None,
        lengths: Lengths::from_vec(Vec::new(alloc)),
        places: Places::Number { number: slot },
    }
}

/// What the name of a register stands for, which is the parameter of that number.
fn register_named(alloc: Global, number: u32, size: u32) -> Result<Named, OutOfMemory>
    ensures { IfOk result (λ named. named ≡ register_named number size) }
{
    let qubits = Register::of_parameter(alloc, number, size)?;
    let mut lengths = Vec::new(alloc);
    lengths.push(size)?;
    Ok(Named {
        what: What::Parameter,
        of: None,
        lengths: Lengths::from_vec(lengths),
        places: Places::Qubits { qubits },
    })
}

/// Declares a parameter with a type.
#[tactic(auto, unfolding(qt_typing::specs::Subroutines::value_parameter))]
fn value_parameter(
    alloc: Global,
    state: &mut State,
    place: Place,
    name: &str,
    kind: ValueType,
) -> Result<TypedParameter, TextRefusal>
    ensures { Makes (value_parameter place name.now kind state.old) result state.new }
{
    let slot = take_slots(state, 1);
    let named = value_named(alloc, kind, slot);
    declare(state, place, name, named, Known::Other)?;
    Ok(TypedParameter::Value { kind, slot })
}

/// Declares a single qubit.
#[tactic(auto, unfolding(qt_typing::specs::Subroutines::qubit_parameter))]
fn single_parameter(
    alloc: Global,
    state: &mut State,
    place: Place,
    name: &str,
    number: u32,
) -> Result<TypedParameter, TextRefusal>
    ensures { Makes (qubit_parameter place name.now number None state.old) result state.new }
{
    let slot = take_slots(state, 1);
    let named = qubit_named(alloc, slot);
    declare(state, place, name, named, Known::Hidden)?;
    Ok(TypedParameter::Qubit { slot })
}

/// Declares a register of a size.
#[tactic(auto, unfolding(qt_typing::specs::Subroutines::qubit_parameter))]
fn register_parameter(
    alloc: Global,
    state: &mut State,
    place: Place,
    name: &str,
    number: u32,
    size: u32,
) -> Result<TypedParameter, TextRefusal>
    ensures { Makes (qubit_parameter place name.now number (Some size) state.old) result state.new }
{
    let named = register_named(alloc, number, size)?;
    let slot = take_slots(state, 1);
    declare(state, place, name, named, Known::Hidden)?;
    Ok(TypedParameter::Register { slot, size })
}

/// Declares a single qubit, or a register of a size.
fn qubit_parameter(
    alloc: Global,
    state: &mut State,
    place: Place,
    name: &str,
    number: u32,
    size: Option<u32>,
) -> Result<TypedParameter, TextRefusal>
    ensures { Makes (qubit_parameter place name.now number size state.old) result state.new }
{
    match size {
        None => single_parameter(alloc, state, place, name, number),
        Some(size) => register_parameter(alloc, state, place, name, number, size),
    }
}

/// Declares the parameter of a number: its type or size, and then its name.
#[tactic(auto, unfolding(qt_typing::specs::Subroutines::parameter_of))]
pub fn parameter_of(
    alloc: Global,
    state: &mut State,
    place: Place,
    number: u32,
    parameter: &Parameter,
) -> Result<TypedParameter, TextRefusal>
    ensures { Makes (parameter_of place number parameter.now state.old) result state.new }
{
    match parameter {
        Parameter::Classical { scalar, name } => {
            let kind = typed_name(alloc, &state.names, place, scalar, name.text())?;
            value_parameter(alloc, state, place, name.text(), kind)
        }
        Parameter::Qubits { size, name } => {
            let size = optional_size(alloc, &state.names, place, size.as_ref())?;
            qubit_parameter(alloc, state, place, name.text(), number, size)
        }
    }
}

/// Declares the parameters of a subroutine from left to right, each with a slot of its own. OpenQASM 3.0, "Subroutines".
#[tactic(auto, unfolding(qt_typing::specs::Subroutines::parameters_from))]
pub fn parameters_of(
    alloc: Global,
    state: &mut State,
    place: Place,
    mut parameters: &[Parameter],
) -> Result<Items<TypedParameter>, TextRefusal>
    ensures { Makes (parameters_from place [] parameters.entry.now state.old) result state.new }
{
    let mut done = Items::new(alloc);
    while let [parameter, rest @ ..] = parameters {
        let number = next_number(done.len())?;
        let typed = parameter_of(alloc, state, place, number, parameter)?;
        done.push(typed)?;
        parameters = rest;
    }
    Ok(done)
}
