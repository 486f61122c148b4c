//! Registers of qubits and of bits.

ghost use Rattle.std.specs.Prelude.{◌≡◌, IfOk, ◌≤◌};
ghost use Rattle.std.specs.Option.{option_copied};
ghost use Rattle.qt_typing.specs.Checked.{Makes};
ghost use Rattle.qt_typing.specs.Declarations.{bit_register, declare_qubits, declared_with, qubit_declaration, qubit_register, qubits_named};

use crate::names::{declare, new_name};
use crate::sizes::{bits_size, optional_size};
use crate::state::{take_qubits, take_slots};
use crate::variables::declare_variable;
use qt_const_rules::consts::Known;
use qt_names::named::{Named, Places, What};
use qt_outside::faults::OutOfMemory;
use qt_registers::register::Register;
use qt_tree::expression::Expr;
use qt_tree::lengths::Lengths;
use qt_tree::place::Place;
use qt_tree::refusal::TextRefusal;
use qt_typed::statement::{TypedAction, TypedRight};
use qt_typing::state::State;
use qt_value::types::ValueType;
use std::alloc::Global;

/// What the name of qubits stands for: so many from the first on, under the sizes that are written.
fn qubits_named(
    alloc: Global,
    lengths: Lengths,
    first: u64,
    count: u32,
) -> Result<Named, OutOfMemory>
    ensures { IfOk result (λ named. named ≡ qubits_named lengths first count) }
{
    if first >= 1 << 62 {
        return Err(OutOfMemory);
    }
    let qubits = Register::of_program(alloc, first, count)?;
    Ok(Named {
        what: What::Qubits,
        of: None,
        lengths,
        places: Places::Qubits { qubits },
    })
}

/// Declares a single qubit, or a register of a size.
#[tactic(auto, unfolding(qt_typing::specs::Declarations::declare_qubits))]
pub fn declare_qubits(
    alloc: Global,
    state: &mut State,
    place: Place,
    name: &str,
    size: Option<u32>,
) -> Result<(), TextRefusal>
    ensures { Makes (declare_qubits place name.now size state.old) result state.new }
{
    let mut lengths = Vec::new(alloc);
    if let Some(count) = size {
        lengths.push(count)?;
    }
    let count = size.unwrap_or(1);
    let first = take_qubits(state, count)?;
    let named = qubits_named(alloc, Lengths::from_vec(lengths), first, count)?;
    declare(state, place, name, named, Known::Hidden)
}

/// `qubit[2] q;`: the size, and then whether the name is new.
#[tactic(auto, unfolding(qt_typing::specs::Declarations::qubit_declaration))]
pub fn qubit_declaration(
    alloc: Global,
    state: &mut State,
    place: Place,
    size: Option<&Expr>,
    name: &str,
) -> Result<(), TextRefusal>
    ensures { Makes (qubit_declaration place (option_copied size.entry) name.now state.old) result state.new }
{
    let size = optional_size(alloc, &state.names, place, size)?;
    new_name(alloc, &state.names, place, name)?;
    declare_qubits(alloc, state, place, name, size)
}

/// `qreg q[2];`: whether the name is new, and then the size.
#[tactic(auto, unfolding(qt_typing::specs::Declarations::qubit_register))]
pub fn qubit_register(
    alloc: Global,
    state: &mut State,
    place: Place,
    name: &str,
    size: Option<&Expr>,
) -> Result<(), TextRefusal>
    ensures { Makes (qubit_register place name.now (option_copied size.entry) state.old) result state.new }
{
    new_name(alloc, &state.names, place, name)?;
    let size = optional_size(alloc, &state.names, place, size)?;
    declare_qubits(alloc, state, place, name, size)
}

/// Declares a variable with its right side, which is typed.
#[tactic(auto, unfolding(qt_typing::specs::Declarations::declared_with))]
pub fn declared_with(
    alloc: Global,
    state: &mut State,
    place: Place,
    name: &str,
    kind: ValueType,
    slot: u32,
    value: Option<TypedRight>,
) -> Result<TypedAction, TextRefusal>
    ensures { Makes (declared_with place name.now kind slot value state.old) result state.new }
{
    let lengths = Lengths::from_vec(Vec::new(alloc));
    declare_variable(alloc, state, place, name, kind, lengths, slot)?;
    Ok(TypedAction::Declare { kind, slot, value })
}

/// `creg c[2];`: whether the name is new, and then the size.
#[tactic(auto, unfolding(qt_typing::specs::Declarations::bit_register))]
pub fn bit_register(
    alloc: Global,
    state: &mut State,
    place: Place,
    name: &str,
    size: Option<&Expr>,
) -> Result<TypedAction, TextRefusal>
    ensures { Makes (bit_register place name.now (option_copied size.entry) state.old) result state.new }
{
    new_name(alloc, &state.names, place, name)?;
    let width = bits_size(alloc, &state.names, place, size)?;
    let slot = take_slots(state, 1);
    declared_with(
        alloc,
        state,
        place,
        name,
        ValueType::Bit(width as u8),
        slot,
        None,
    )
}
