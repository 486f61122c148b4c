//! Bits that go from one value to another.

ghost use Rattle.std.specs.Prelude.{◌≡◌, ◌+◌, ◌∷◌, [], OnOk};
ghost use Rattle.qt_value.specs.declared.types.ValueType.TheVariants as kind;
ghost use Rattle.qt_instructions.specs.declared.instruction.Instr.TheVariants as instr;
ghost use Rattle.qt_flat_code.specs.Expressions.{copied_code, every, operand, slice_code};
ghost use Rattle.qt_emit_expressions.specs.Adds.{Adds};

use crate::coded::Spread;
use crate::numbers::{after, put};
use qt_instructions::instruction::{Instr, Operand};
use qt_value::types::ValueType;
use sqlite_items::Items;
use std::alloc::AllocError;

/// The place of the i-th bit.
fn every(spread: Spread, i: u8) -> u64
    ensures { result ≡ every spread.start spread.step i }
{
    u64::from(spread.start) + u64::from(i) * u64::from(spread.step)
}

/// One bit goes from a place of a value to a place of another, by the cell that holds both places in turn and the next one.
fn bit_copied(
    out: &mut Items<Instr>,
    from: Operand,
    read: u64,
    to: Operand,
    write: u64,
    used: u32,
) -> Result<(), AllocError>
    ensures { OnOk result (Adds out.old out.new
        (instr.Load used read ∷ instr.BitGet (used + 1) from (operand used (kind.Uint 8))
        ∷ instr.Load used write ∷ instr.BitPut to (operand used (kind.Uint 8)) (used + 1) ∷ [])) }
{
    let bit = after(used)?;
    let index = Operand {
        cell: used,
        kind: ValueType::Uint(8),
    };
    put(
        out,
        Instr::Load {
            cell: used,
            bits: read,
        },
    )?;
    put(
        out,
        Instr::BitGet {
            cell: bit,
            of: from,
            index,
        },
    )?;
    put(
        out,
        Instr::Load {
            cell: used,
            bits: write,
        },
    )?;
    put(out, Instr::BitPut { of: to, index, bit })?;
    Ok(())
}

/// So many bits of a value go to bits of another, one by one. Two more cells are used.
pub fn copied(
    out: &mut Items<Instr>,
    from: Operand,
    read: Spread,
    to: Operand,
    write: Spread,
    used: u32,
    count: u8,
) -> Result<(), AllocError>
    ensures { OnOk result (Adds out.old out.new (copied_code from.cell from.kind (every read.start read.step) to.cell to.kind
        (every write.start write.step) used 0 count)) }
{
    let mut i = 0;
    'bits: while i < count {
        bit_copied(out, from, every(read, i), to, every(write, i), used)?;
        i += 1;
    }
    Ok(())
}

/// So many bits of the value in a cell come together in the next one, and go to the cell.
pub fn sliced(
    out: &mut Items<Instr>,
    of: Operand,
    spread: Spread,
    count: u8,
) -> Result<(), AllocError>
    ensures { OnOk result (Adds out.old out.new (slice_code of.cell of.kind spread.start spread.step count)) }
{
    let next = after(of.cell)?;
    let used = after(next)?;
    let bits = Operand {
        cell: next,
        kind: ValueType::Bit(count),
    };
    put(
        out,
        Instr::Load {
            cell: next,
            bits: 0,
        },
    )?;
    copied(
        out,
        of,
        spread,
        bits,
        Spread { start: 0, step: 1 },
        used,
        count,
    )?;
    put(
        out,
        Instr::Cast {
            cell: of.cell,
            from: bits,
            to: bits.kind,
        },
    )?;
    Ok(())
}
