//! Aliases of qubits: OpenQASM 3.0, "Register concatenation and slicing".

ghost use Rattle.std.specs.Prelude.{◌≡◌, ◌^◌, ◌<◌, [], length, IfOk};
ghost use Rattle.qt_typing.specs.Checked.{Gives, Makes};
ghost use Rattle.qt_typing.specs.Declarations.{alias_named, alias_of, alias_qubits, parts_from};

use qt_check_declarations::names::{declare, new_name};
use qt_check_qubits::operands::{known_places, operand_qubits};
use qt_check_qubits::repeats::overlaps;
use qt_const_rules::consts::Known;
use qt_names::named::{Named, Places, What};
use qt_outside::faults::OutOfMemory;
use qt_registers::register::Register;
use qt_tree::lengths::Lengths;
use qt_tree::place::Place;
use qt_tree::refusal::{Cause, TextRefusal};
use qt_tree::statement::Operand;
use qt_typing::names::Names;
use qt_typing::state::State;
use std::alloc::Global;

/// The qubits of the parts, those of one behind those of the other: E11 `qubit` where one stands there twice, E11 `register` where its place
/// isn't known before the run.
#[tactic(auto, unfolding(qt_typing::specs::Declarations::parts_from))]
fn parts_from(
    alloc: Global,
    names: &Names,
    place: Place,
    mut parts: &[Operand],
) -> Result<Register, TextRefusal>
    ensures { Gives (parts_from place [] parts.entry.now names.now) result }
{
    let mut done = Register::none(alloc);
    while let [part, rest @ ..] = parts {
        let of = operand_qubits(alloc, names, place, part)?;
        let register = known_places(alloc, place, of)?;
        if overlaps(&done, &register) {
            return Err(TextRefusal::E11(place, Cause::Qubit));
        }
        done.append(&register)?;
        parts = rest;
    }
    Ok(done)
}

/// The qubits of an alias: E12 `range` of more than 4,294,967,295.
#[tactic(auto, unfolding(qt_typing::specs::Declarations::alias_qubits))]
pub fn alias_qubits(
    alloc: Global,
    names: &Names,
    place: Place,
    parts: &[Operand],
) -> Result<Register, TextRefusal>
    ensures value { Gives (alias_qubits place parts.now names.now) result }
    ensures few { IfOk result (λ register. length register < 2 ^ 32) }
{
    let register = parts_from(alloc, names, place, parts)?;
    if register.size() > u64::from(u32::MAX) {
        return Err(TextRefusal::E12(place, Cause::Range));
    }
    Ok(register)
}

/// What the name of an alias stands for.
fn alias_named(alloc: Global, qubits: Register) -> Result<Named, OutOfMemory>
    requires { length qubits < 2 ^ 32 }
    ensures { IfOk result (λ named. named ≡ alias_named qubits) }
{
    let mut lengths = Vec::new(alloc);
    lengths.push(qubits.size() as u32)?;
    Ok(Named {
        what: What::Alias,
        of: None,
        lengths: Lengths::from_vec(lengths),
        places: Places::Qubits { qubits },
    })
}

/// `let a = q[0:1] ++ r;`: whether the name is new, and then the qubits of the parts.
#[tactic(auto, unfolding(qt_typing::specs::Declarations::alias_of))]
pub fn alias_of(
    alloc: Global,
    state: &mut State,
    place: Place,
    name: &str,
    parts: &[Operand],
) -> Result<(), TextRefusal>
    ensures { Makes (alias_of place name.now parts.now state.old) result state.new }
{
    new_name(alloc, &state.names, place, name)?;
    let register = alias_qubits(alloc, &state.names, place, parts)?;
    let named = alias_named(alloc, register)?;
    declare(state, place, name, named, Known::Hidden)
}
