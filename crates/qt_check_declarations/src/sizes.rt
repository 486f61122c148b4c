//! Sizes and types of declarations.

ghost use Rattle.std.specs.Prelude.{◌≡◌, ◌≤◌, [], IfOk, IsTrue};
ghost use Rattle.std.specs.Option.{option_copied};
ghost use Rattle.qt_value.specs.Types.{has_size};
ghost use Rattle.qt_typing.specs.Checked.{Gives};
ghost use Rattle.qt_typing.specs.Declarations.{bits_size, element_type, lengths_from, optional_size, size_at, size_within, typed_name};

use crate::names::new_name;
use qt_check_expressions::constants::{number_at, type_at};
use qt_const::modes::Mode;
use qt_tree::expression::{Expr, Scalar};
use qt_tree::lengths::Lengths;
use qt_tree::place::Place;
use qt_tree::refusal::{Cause, TextRefusal};
use qt_typing::names::Names;
use qt_value::types::ValueType;
use std::alloc::Global;

/// A size from 1 to the largest; E12 `range` exactly where it isn't.
#[tactic(auto, unfolding(qt_typing::specs::Declarations::size_within))]
fn size_within(place: Place, largest: u32, size: i128) -> Result<u32, TextRefusal>
    ensures value { Gives (size_within place largest size) result }
    ensures least { IfOk result (λ n. 1 ≤ n) }
    ensures most { IfOk result (λ n. n ≤ largest) }
{
    if 1 <= size && size <= i128::from(largest) {
        Ok(size as u32)
    } else {
        Err(TextRefusal::E12(place, Cause::Range))
    }
}

/// A constant size, from 1 to the largest.
#[tactic(auto, unfolding(qt_typing::specs::Declarations::size_at))]
pub fn size_at(
    alloc: Global,
    names: &Names,
    place: Place,
    largest: u32,
    expr: &Expr,
) -> Result<u32, TextRefusal>
    ensures value { Gives (size_at place largest expr.now names.now) result }
    ensures least { IfOk result (λ n. 1 ≤ n) }
    ensures most { IfOk result (λ n. n ≤ largest) }
{
    let number = number_at(alloc, names, Mode::Plain, place, expr)?;
    size_within(place, largest, number)
}

/// The size of a bit register, which is 1 where none is written.
#[tactic(auto, unfolding(qt_typing::specs::Declarations::bits_size))]
pub fn bits_size(
    alloc: Global,
    names: &Names,
    place: Place,
    size: Option<&Expr>,
) -> Result<u32, TextRefusal>
    ensures value { Gives (bits_size place (option_copied size.entry) names.now) result }
    ensures least { IfOk result (λ n. 1 ≤ n) }
    ensures most { IfOk result (λ n. n ≤ 64) }
{
    match size {
        None => Ok(1),
        Some(expr) => size_at(alloc, names, place, 64, expr),
    }
}

/// The size of a register of qubits; a single qubit has none.
#[tactic(auto, unfolding(qt_typing::specs::Declarations::optional_size))]
pub fn optional_size(
    alloc: Global,
    names: &Names,
    place: Place,
    size: Option<&Expr>,
) -> Result<Option<u32>, TextRefusal>
    ensures { Gives (optional_size place (option_copied size.entry) names.now) result }
{
    match size {
        None => Ok(None),
        Some(expr) => Ok(Some(size_at(alloc, names, place, u32::MAX, expr)?)),
    }
}

/// A type, and then that its name is new.
#[tactic(auto, unfolding(qt_typing::specs::Declarations::typed_name))]
pub fn typed_name(
    alloc: Global,
    names: &Names,
    place: Place,
    scalar: &Scalar,
    name: &str,
) -> Result<ValueType, TextRefusal>
    ensures value { Gives (typed_name place scalar.now name.now names.now) result }
    ensures sized { IfOk result (λ kind. IsTrue (has_size kind)) }
{
    let kind = type_at(alloc, names, Mode::Plain, place, scalar)?;
    new_name(alloc, names, place, name)?;
    Ok(kind)
}

/// The type of an array's elements: E10 for bit registers.
#[tactic(auto, unfolding(qt_typing::specs::Declarations::element_type))]
pub fn element_type(
    alloc: Global,
    names: &Names,
    place: Place,
    scalar: &Scalar,
) -> Result<ValueType, TextRefusal>
    ensures value { Gives (element_type place scalar.now names.now) result }
    ensures sized { IfOk result (λ kind. IsTrue (has_size kind)) }
{
    let kind = type_at(alloc, names, Mode::Plain, place, scalar)?;
    match kind {
        ValueType::Bit(_) | ValueType::Phase => Err(TextRefusal::E10(place)),
        _ => Ok(kind),
    }
}

/// The lengths of an array, seven at most.
#[tactic(auto, unfolding(qt_typing::specs::Declarations::lengths_from))]
pub fn lengths_of(
    alloc: Global,
    names: &Names,
    place: Place,
    mut dimensions: &[Expr],
) -> Result<Lengths, TextRefusal>
    ensures { Gives (lengths_from place [] dimensions.entry.now names.now) result }
{
    let mut lengths = Vec::new(alloc);
    while let [dimension, rest @ ..] = dimensions {
        if lengths.len() >= 7 {
            return Err(TextRefusal::E11(place, Cause::Dimensions));
        }
        let length = size_at(alloc, names, place, u32::MAX, dimension)?;
        lengths.push(length)?;
        dimensions = rest;
    }
    Ok(Lengths::from_vec(lengths))
}
