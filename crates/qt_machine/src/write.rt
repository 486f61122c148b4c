//! What an instruction writes.

ghost use Rattle.std.specs.Prelude.{◌≡◌, ◌+◌, ◌<◌, ◌≤◌, ◌^◌, length, IsTrue, Ok, IfOk};
ghost use Rattle.std.specs.Int.{bit_at};
ghost use Rattle.qt_code.specs.Cells.{place_by};
ghost use Rattle.qt_code.specs.Ranges.{has_instruction};
ghost use Rattle.qt_meaning.specs.Values.{and_then, with_bit};
ghost use Rattle.qt_ring.specs.declared.TheConstants.{QUBITS};
ghost use Rattle.qt_value.specs.Types.{has_size, width_of};
ghost use Rattle.qt_machine.specs.Faults.{meant};
ghost use Rattle.qt_machine.specs.Writes.{IsInside, held, move_by, write_by, written_cells, written_slots};
ghost use Rattle.qt_machine.specs.declared.write.Write.TheVariants.{Cell, Slot};

use crate::cells::held;
use crate::fault::InstrFault;
use crate::operators::{bit, converted, place, result, turns, with_bit};
use crate::phases::phase;
use crate::qubits::{differ, indexed};
use qt_code_rules::sizes::Sizes;
use qt_instructions::instruction::{Instr, Operand};

/// What an instruction writes: nothing, a work cell or a slot.
#[derive(Clone, Copy, Debug, PartialEq, Eq)]
pub enum Write {
    Nothing,
    Cell { cell: u32, bits: u64 },
    Slot { slot: u32, bits: u64 },
}

impl Write {
    /// Writes it. All other cells and slots stay.
    pub fn put(self, cells: &mut [u64], slots: &mut [u64])
        requires { IsInside (length cells.old) (length slots.old) self }
        ensures cells { held cells.new ≡ written_cells self (held cells.old) }
        ensures slots { slots.new ≡ written_slots self slots.old }
        ensures cell_count { length cells.new ≡ length cells.old }
        ensures slot_count { length slots.new ≡ length slots.old }
    {
        match self {
            Write::Nothing => {}
            Write::Cell { cell, bits } => cells[cell as usize] = bits,
            Write::Slot { slot, bits } => slots[slot as usize] = bits,
        }
    }
}

fn to_cell(cell: u32, bits: u64) -> Write
    ensures { result ≡ Cell cell bits }
{
    Write::Cell { cell, bits }
}

fn to_slot(slot: u32, bits: u64) -> Write
    ensures { result ≡ Slot slot bits }
{
    Write::Slot { slot, bits }
}

/// One of the slots of an array, by an index.
fn element(first: u32, count: u32, index: Operand, cells: &[u64]) -> Result<u32, InstrFault>
    requires kind { IsTrue (has_size index.kind) }
    requires few { first + count < 2 ^ 32 }
    ensures value { meant result ≡ and_then (place_by count index (held cells.now)) (λ n. Ok (first + n)) }
    ensures inside { IfOk result (λ slot. slot < first + count) }
{
    let place = place(count as usize, index, cells)?;
    Ok(first + place as u32)
}

/// The place of a bit of a value, by an index.
#[tactic(auto, using(crate::proofs::Widths::few_bits))]
fn bit_place(of: Operand, index: Operand, cells: &[u64]) -> Result<usize, InstrFault>
    requires of { IsTrue (has_size of.kind) }
    requires index { IsTrue (has_size index.kind) }
    ensures value { meant result ≡ place_by (width_of of.kind) index (held cells.now) }
    ensures inside { IfOk result (λ place. place < 64) }
{
    place(usize::from(of.kind.width()), index, cells)
}

/// What an instruction that moves values or bits of them writes.
fn moved(
    sizes: Sizes,
    instruction: &Instr,
    cells: &[u64],
    slots: &[u64],
) -> Result<Write, InstrFault>
    requires { IsTrue (has_instruction sizes instruction.now) }
    ensures value { meant result ≡ move_by instruction.now (held cells.now) slots.now }
    ensures within { IfOk result (IsInside sizes.cells sizes.slots) }
{
    match instruction {
        Instr::Load { cell, bits } => Ok(to_cell(*cell, *bits)),
        Instr::Get { cell, slot } => Ok(to_cell(*cell, held(slots, *slot))),
        Instr::Put { slot, cell } => Ok(to_slot(*slot, held(cells, *cell))),
        Instr::GetAt {
            cell,
            first,
            count,
            index,
        } => {
            let slot = element(*first, *count, *index, cells)?;
            Ok(to_cell(*cell, held(slots, slot)))
        }
        Instr::PutAt {
            first,
            count,
            index,
            cell,
        } => {
            let slot = element(*first, *count, *index, cells)?;
            Ok(to_slot(slot, held(cells, *cell)))
        }
        Instr::BitGet { cell, of, index } => {
            let place = bit_place(*of, *index, cells)?;
            Ok(to_cell(*cell, bit(of.cell, place, cells)))
        }
        Instr::BitPut {
            of,
            index,
            bit: from,
        } => {
            let place = bit_place(*of, *index, cells)?;
            let bits = with_bit(held(cells, of.cell), place, bit(*from, 0, cells));
            Ok(to_cell(of.cell, bits))
        }
        _ => Ok(Write::Nothing),
    }
}

/// What an instruction writes, or on what it stumbles.
#[tactic(auto, using(crate::proofs::Widths::kinds_of))]
pub fn write_of(
    sizes: Sizes,
    instruction: &Instr,
    cells: &[u64],
    slots: &[u64],
) -> Result<Write, InstrFault>
    requires few { sizes.qubits ≤ QUBITS }
    requires there { IsTrue (has_instruction sizes instruction.now) }
    ensures value { meant result ≡ write_by sizes.qubits instruction.now (held cells.now) slots.now }
    ensures within { IfOk result (IsInside sizes.cells sizes.slots) }
{
    match instruction {
        Instr::Apply { cell, operation } => Ok(to_cell(*cell, result(*operation, cells)?)),
        Instr::Cast { cell, from, to } => Ok(to_cell(*cell, converted(*from, *to, cells))),
        Instr::Turns {
            cell,
            first,
            step,
            last,
        } => Ok(to_cell(*cell, turns(*first, *step, *last, cells)?)),
        Instr::AngleOp { cell, operation } => Ok(to_cell(*cell, phase(*operation, cells)?)),
        Instr::Qubit {
            cell,
            qubits,
            index,
        } => {
            let qubit = indexed(qubits.items(), *index, cells)?;
            Ok(to_cell(*cell, u64::from(qubit)))
        }
        Instr::Distinct { qubits } => {
            differ(sizes, qubits.items(), cells)?;
            Ok(Write::Nothing)
        }
        _ => moved(sizes, instruction, cells, slots),
    }
}
