//! The qubits that operands name.

ghost use Rattle.std.specs.Prelude.{◌≡◌, []};
ghost use Rattle.std.specs.Option.{option_copied};
ghost use Rattle.qt_typing.specs.Checked.{Gives};
ghost use Rattle.qt_typing.specs.Qubits as spec;
ghost use Rattle.qt_tree.specs.declared.expression.Index.{out-Index};

use crate::qubits::{all_of, fixed_in, qubit_in, qubits_in_range, qubits_named, register_of};
use crate::repeats::contains;
use qt_registers::register::Register;
use qt_tree::expression::{Expr, Index};
use qt_tree::label::Label;
use qt_tree::place::Place;
use qt_tree::refusal::{Cause, TextRefusal};
use qt_tree::statement::Operand;
use qt_typed::call::{TypedQubit, TypedQubits};
use qt_typing::names::Names;
use sqlite_items::Boxed;
use std::alloc::Global;

/// The qubits of a register at the places of a set, in its order: E11 `qubit` where one stands there twice.
#[tactic(auto, unfolding(qt_typing::specs::Qubits::set_from))]
fn set_from(
    alloc: Global,
    names: &Names,
    place: Place,
    register: &Register,
    mut exprs: &[Expr],
) -> Result<Register, TextRefusal>
    ensures { Gives (spec.set_from names.now place register.now [] exprs.entry.now) result }
{
    let mut chosen = Register::none(alloc);
    while let [expr, rest @ ..] = exprs {
        let qubit = fixed_in(alloc, names, place, register, expr)?;
        if contains(&chosen, qubit) {
            return Err(TextRefusal::E11(place, Cause::Qubit));
        }
        chosen.push(qubit)?;
        exprs = rest;
    }
    Ok(chosen)
}

/// The qubits of a register at the places of a set, each of them once: E10 of a single qubit.
#[tactic(auto, unfolding(qt_typing::specs::Qubits::qubits_in_set))]
fn qubits_in_set(
    alloc: Global,
    names: &Names,
    place: Place,
    of: Boxed<TypedQubits>,
    exprs: &[Expr],
) -> Result<Boxed<TypedQubits>, TextRefusal>
    ensures { Gives (spec.qubits_in_set names.now place of exprs.now) result }
{
    let register = register_of(place, of)?;
    let chosen = set_from(alloc, names, place, &register, exprs)?;
    Ok(all_of(alloc, chosen)?)
}

/// The qubits at an index: a place, a range or a set.
fn qubits_by(
    alloc: Global,
    names: &Names,
    place: Place,
    of: Boxed<TypedQubits>,
    index: &Index,
) -> Result<Boxed<TypedQubits>, TextRefusal>
    ensures { Gives (spec.qubits_by names.now place of (out-Index index.now)) result }
{
    match index {
        Index::At { place: at } => qubit_in(alloc, names, place, of, at),
        Index::Range { range } => qubits_in_range(alloc, names, place, of, range),
        Index::Set { places } => qubits_in_set(alloc, names, place, of, places.as_slice()),
    }
}

/// The qubits at an index, or all where none is written.
#[tactic(auto, unfolding(qt_typing::specs::Qubits::qubits_indexed))]
fn qubits_indexed(
    alloc: Global,
    names: &Names,
    place: Place,
    of: Boxed<TypedQubits>,
    index: Option<&Index>,
) -> Result<Boxed<TypedQubits>, TextRefusal>
    ensures { Gives (spec.qubits_indexed names.now place of (option_copied index.entry)) result }
{
    match index {
        None => Ok(of),
        Some(index) => qubits_by(alloc, names, place, of, index),
    }
}

/// The qubits of a name, or of it at an index: E8 where it isn't in scope or stands for none, and then what the index is refused for.
#[tactic(auto, unfolding(qt_typing::specs::Qubits::qubits_at))]
pub fn qubits_at(
    alloc: Global,
    names: &Names,
    place: Place,
    name: &Label,
    index: Option<&Index>,
) -> Result<Boxed<TypedQubits>, TextRefusal>
    ensures { Gives (spec.qubits_at names.now place name.now (option_copied index.entry)) result }
{
    let of = qubits_named(alloc, names, place, name)?;
    qubits_indexed(alloc, names, place, of, index)
}

/// The qubits that an operand names. OpenQASM 3.0, "Quantum types" and "Index sets and slicing".
#[tactic(auto, unfolding(qt_typing::specs::Qubits::operand_qubits))]
pub fn operand_qubits(
    alloc: Global,
    names: &Names,
    place: Place,
    operand: &Operand,
) -> Result<Boxed<TypedQubits>, TextRefusal>
    ensures { Gives (spec.operand_qubits names.now place operand.now) result }
{
    qubits_at(alloc, names, place, &operand.name, operand.index.as_ref())
}

/// The register of qubits whose places are known before the run, also of a single one: else E11 `register`.
#[tactic(auto, unfolding(qt_typing::specs::Qubits::known_places))]
pub fn known_places(
    alloc: Global,
    place: Place,
    of: Boxed<TypedQubits>,
) -> Result<Register, TextRefusal>
    ensures { Gives (spec.known_places place of) result }
{
    match of.into_inner() {
        TypedQubits::Register { qubits } => Ok(qubits),
        TypedQubits::Single { qubit } => match qubit {
            TypedQubit::Fixed { qubit } => Ok(Register::of_qubit(alloc, qubit)?),
            _ => Err(TextRefusal::E11(place, Cause::Register)),
        },
    }
}
