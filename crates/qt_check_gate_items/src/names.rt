//! The parameters and the qubits of a declared gate, as names.

ghost use Rattle.std.specs.Prelude.{◌≡◌, ◌+◌, IfOk};
ghost use Rattle.qt_typing.specs.Checked.{Makes};
ghost use Rattle.qt_typing.specs.GateItems as spec;

use qt_check_declarations::names::declare;
use qt_const_rules::consts::Known;
use qt_names::named::{Named, Places, What};
use qt_outside::faults::OutOfMemory;
use qt_tree::label::Label;
use qt_tree::lengths::Lengths;
use qt_tree::place::Place;
use qt_tree::refusal::TextRefusal;
use qt_typing::state::State;
use qt_value::types::ValueType;
use std::alloc::Global;

/// What the name of a parameter stands for: a phase, by its number.
fn angle_named(alloc: Global, number: u32) -> Named
    ensures { result ≡ spec.angle_named number }
{
    Named {
        what: What::Parameter,
        of: Some(ValueType::Phase),
        lengths: Lengths::from_vec(Vec::new(alloc)),
        places: Places::Number { number },
    }
}

/// What the name of a qubit stands for: a single qubit, by its number.
fn wire_named(alloc: Global, number: u32) -> Named
    ensures { result ≡ spec.wire_named number }
{
    Named {
        what: What::Parameter,
        of: None,
        lengths: Lengths::from_vec(Vec::new(alloc)),
        places: Places::Number { number },
    }
}

/// The next number. One that leaves 32 bits, as in no text, is refused as if memory wanted.
fn next(number: u32) -> Result<u32, OutOfMemory>
    ensures { IfOk result (λ next. next ≡ number + 1) }
{
    number.checked_add(1).ok_or(OutOfMemory)
}

/// Declares the parameters, numbered from 0 on. E9 of a name that stands there twice.
#[tactic(auto, unfolding(qt_typing::specs::GateItems::declare_angles))]
pub(crate) fn declare_angles(
    alloc: Global,
    state: &mut State,
    place: Place,
    mut names: &[Label],
) -> Result<(), TextRefusal>
    ensures { Makes (spec.declare_angles place 0 names.entry.now state.old) result state.new }
{
    let mut number = 0;
    while let [name, rest @ ..] = names {
        let named = angle_named(alloc, number);
        number = next(number)?;
        declare(state, place, name.text(), named, Known::Other)?;
        names = rest;
    }
    Ok(())
}

/// Declares the qubits, numbered from 0 on. E9 of a name that stands there twice, also as a parameter's.
#[tactic(auto, unfolding(qt_typing::specs::GateItems::declare_wires))]
pub(crate) fn declare_wires(
    alloc: Global,
    state: &mut State,
    place: Place,
    mut names: &[Label],
) -> Result<(), TextRefusal>
    ensures { Makes (spec.declare_wires place 0 names.entry.now state.old) result state.new }
{
    let mut number = 0;
    while let [name, rest @ ..] = names {
        let named = wire_named(alloc, number);
        number = next(number)?;
        declare(state, place, name.text(), named, Known::Hidden)?;
        names = rest;
    }
    Ok(())
}
