//! Operators, conversions, indexes and ranges on work cells.

ghost use Rattle.std.specs.Prelude.{◌≡◌, ◌<◌, ◌≤◌, pos, neg_ℤ, IsTrue, IfOk};
ghost use Rattle.std.specs.Int.{bit_at};
ghost use Rattle.qt_code.specs.Cells.{place_by, result_by, turns_by};
ghost use Rattle.qt_meaning.specs.Values.{converted_to, evaluated, with_bit};
ghost use Rattle.qt_value.specs.Places.{place_of};
ghost use Rattle.qt_value.specs.Types.{has_size};
ghost use Rattle.qt_machine.specs.Faults.{meant};
ghost use Rattle.qt_machine.specs.Writes.{has_types, held};

use crate::cells::{held, number_in, value_in};
use crate::fault::{InstrFault, instr_fault};
use qt_instructions::instruction::{Operand, Operation};
use qt_value::apply::{apply, apply_unary};
use qt_value::casts::cast;
use qt_value::places::range_turns;
use qt_value::types::ValueType;

/// The result of an operator.
#[tactic(auto, unfolding(qt_meaning::specs::Values::operated, qt_meaning::specs::Values::operated_alone))]
pub fn result(operation: Operation, cells: &[u64]) -> Result<u64, InstrFault>
    requires { IsTrue (has_types operation) }
    ensures { meant result ≡ result_by operation (held cells.now) }
{
    match operation {
        Operation::Unary { operator, of } => {
            Ok(apply_unary(operator, value_in(of, cells)).bits())
        }
        Operation::Binary {
            operator,
            left,
            right,
        } => match apply(operator, value_in(left, cells), value_in(right, cells)) {
            Ok(value) => Ok(value.bits()),
            Err(fault) => Err(instr_fault(fault)),
        },
    }
}

/// A value converted to a type, and 0 where there is no such conversion.
#[tactic(auto, unfolding(qt_meaning::specs::Values::converted_to))]
pub fn converted(from: Operand, to: ValueType, cells: &[u64]) -> u64
    requires { IsTrue (has_size from.kind) }
    ensures { result ≡ converted_to to from.kind (held cells.now from.cell) }
{
    match cast(value_in(from, cells), to) {
        Some(value) => value.bits(),
        None => 0,
    }
}

/// The number of turns of a range.
pub fn turns(first: Operand, step: Operand, last: Operand, cells: &[u64]) -> Result<u64, InstrFault>
    requires first { IsTrue (has_size first.kind) }
    requires step { IsTrue (has_size step.kind) }
    requires last { IsTrue (has_size last.kind) }
    ensures { meant result ≡ turns_by first step last (held cells.now) }
{
    let first = number_in(first, cells);
    let step = number_in(step, cells);
    let last = number_in(last, cells);
    match range_turns(first, step, last) {
        Ok(turns) => Ok(turns),
        Err(fault) => Err(instr_fault(fault)),
    }
}

/// The place that an index is written for, of a number of places.
fn place_of(index: i128, length: usize) -> Result<usize, InstrFault>
    ensures value { meant result ≡ evaluated (place_of index length) }
    ensures below { IfOk result (λ place. place < length) }
{
    let length = length as i128;
    if index < -length || index >= length {
        return Err(InstrFault::Index);
    }
    let place = if index < 0 { index + length } else { index };
    Ok(place as usize)
}

/// The place that an index in a cell is written for, of a number of places.
#[tactic(auto, unfolding(qt_meaning::specs::Values::place_in, qt_meaning::specs::Values::number_of))]
pub fn place(length: usize, index: Operand, cells: &[u64]) -> Result<usize, InstrFault>
    requires { IsTrue (has_size index.kind) }
    ensures value { meant result ≡ place_by length index (held cells.now) }
    ensures below { IfOk result (λ place. place < length) }
{
    place_of(number_in(index, cells), length)
}

/// The bit at a place of what a cell holds.
pub fn bit(cell: u32, place: usize, cells: &[u64]) -> u64
    requires { place < 64 }
    ensures value { result ≡ bit_at (held cells.now cell) place }
    ensures below { result < 2 }
{
    held(cells, cell) >> place & 1
}

/// Bits with the one at a place replaced.
#[tactic(auto, unfolding(qt_meaning::specs::Values::with_bit))]
pub fn with_bit(bits: u64, place: usize, bit: u64) -> u64
    requires place { place < 64 }
    requires bit { bit < 2 }
    ensures { result ≡ with_bit place bit bits }
{
    let power = 1u64 << place;
    if bits >> place & 1 == bit {
        bits
    } else if bit == 0 {
        bits - power
    } else {
        bits + power
    }
}
