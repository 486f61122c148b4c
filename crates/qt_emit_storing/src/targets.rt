//! Targets: where they are, their values, and how values go there.

ghost use Rattle.std.specs.Prelude.{◌≡◌, ◌+◌, ◌∷◌, [], IfOk, OnOk};
ghost use Rattle.qt_value.specs.OpTypes.{result_type};
ghost use Rattle.qt_instructions.specs.declared.instruction.Instr.TheVariants as instr;
ghost use Rattle.qt_typed.specs.Types.{or_bool};
ghost use Rattle.qt_flat_code.specs.Bits.{EveryBit, OneBit};
ghost use Rattle.qt_flat_code.specs.Expressions.{binary, operand};
ghost use Rattle.qt_flat_code.specs.Lengths.{loading_length, location_length, storing_length, target_length, update_length};
ghost use Rattle.qt_flat_code.specs.Storing.{loading_code, location_code, storing_code, target_code, update_code};
ghost use Rattle.qt_emit_expressions.specs.Adds.{Adds};
ghost use Rattle.qt_emit_storing.specs.BitsIn.{bits_in};
ghost use Rattle.qt_emit_storing.specs.Writes.{Writes};

use crate::bits::{TargetBits, first_bits, target_bits};
use crate::steps::steps;
use crate::variables::{got, kind_of, placed, stored as put_back};
use qt_emit_expressions::bits::copied;
use qt_emit_expressions::coded::Spread;
use qt_emit_expressions::expressions::{expression, or_bool};
use qt_emit_expressions::numbers::{after, put, sum};
use qt_emit_expressions::places::place_in;
use qt_instructions::instruction::{Instr, Operand, Operation};
use qt_typed::expression::{TypedExpr, TypedTarget};
use qt_value::operators::{Op, op_type};
use qt_value::types::ValueType;
use sqlite_items::Items;
use std::alloc::AllocError;

/// Where a target is: the place of an element comes to the cell, that of a bit to the next one. What is answered is where the next
/// instruction stands.
pub fn location(
    out: &mut Items<Instr>,
    target: &TypedTarget,
    base: u32,
    cell: u32,
    at: u32,
) -> Result<u32, AllocError>
    ensures { IfOk result (Writes (location_code target.now base cell at) (location_length target.now) at out.old out.new) }
{
    let next = after(cell)?;
    let middle = placed(out, &target.variable, base, cell, at)?;
    let end = steps(
        out,
        target.steps.as_slice(),
        first_bits(target),
        base,
        next,
        middle,
    )?;
    Ok(end)
}

// ---- loading

fn every_loaded(
    out: &mut Items<Instr>,
    spread: Spread,
    count: u8,
    target: &TypedTarget,
    base: u32,
    cell: u32,
) -> Result<(), AllocError>
    ensures { OnOk result (Adds out.old out.new (loading_code (EveryBit spread.start spread.step count) target.now base cell)) }
{
    let value = sum(cell, 2)?;
    let old = sum(cell, 3)?;
    let used = sum(cell, 4)?;
    let from = Operand {
        cell: old,
        kind: kind_of(&target.variable),
    };
    let to = Operand {
        cell: value,
        kind: target.kind,
    };
    got(out, &target.variable, base, cell, old)?;
    put(
        out,
        Instr::Load {
            cell: value,
            bits: 0,
        },
    )?;
    copied(
        out,
        from,
        spread,
        to,
        Spread { start: 0, step: 1 },
        used,
        count,
    )?;
    Ok(())
}

fn one_loaded(
    out: &mut Items<Instr>,
    target: &TypedTarget,
    base: u32,
    cell: u32,
) -> Result<(), AllocError>
    ensures { OnOk result (Adds out.old out.new (loading_code OneBit target.now base cell)) }
{
    let place = sum(cell, 1)?;
    let value = sum(cell, 2)?;
    let of = Operand {
        cell: value,
        kind: kind_of(&target.variable),
    };
    let index = place_in(place);
    got(out, &target.variable, base, cell, value)?;
    put(
        out,
        Instr::BitGet {
            cell: value,
            of,
            index,
        },
    )?;
    Ok(())
}

/// With the place of an element in the cell and that of a bit in the next one, the target's value comes to the cell behind them.
pub fn loaded(
    out: &mut Items<Instr>,
    bits: TargetBits,
    target: &TypedTarget,
    base: u32,
    cell: u32,
) -> Result<(), AllocError>
    ensures { OnOk result (Adds out.old out.new (loading_code (bits_in bits) target.now base cell)) }
{
    match bits {
        TargetBits::All => {
            let value = sum(cell, 2)?;
            got(out, &target.variable, base, cell, value)
        }
        TargetBits::Every { first, step, count } => {
            let spread = Spread { start: first, step };
            every_loaded(out, spread, count, target, base, cell)
        }
        TargetBits::One => one_loaded(out, target, base, cell),
    }
}

// ---- storing

fn every_stored(
    out: &mut Items<Instr>,
    spread: Spread,
    count: u8,
    target: &TypedTarget,
    base: u32,
    cell: u32,
    from: u32,
) -> Result<(), AllocError>
    ensures { OnOk result (Adds out.old out.new (storing_code (EveryBit spread.start spread.step count) target.now base cell from)) }
{
    let old = sum(cell, 2)?;
    let used = sum(cell, 3)?;
    let value = Operand {
        cell: from,
        kind: target.kind,
    };
    let to = Operand {
        cell: old,
        kind: kind_of(&target.variable),
    };
    got(out, &target.variable, base, cell, old)?;
    copied(
        out,
        value,
        Spread { start: 0, step: 1 },
        to,
        spread,
        used,
        count,
    )?;
    put_back(out, &target.variable, base, cell, old)?;
    Ok(())
}

fn one_stored(
    out: &mut Items<Instr>,
    target: &TypedTarget,
    base: u32,
    cell: u32,
    from: u32,
) -> Result<(), AllocError>
    ensures { OnOk result (Adds out.old out.new (storing_code OneBit target.now base cell from)) }
{
    let place = sum(cell, 1)?;
    let old = sum(cell, 2)?;
    let of = Operand {
        cell: old,
        kind: kind_of(&target.variable),
    };
    let index = place_in(place);
    got(out, &target.variable, base, cell, old)?;
    put(
        out,
        Instr::BitPut {
            of,
            index,
            bit: from,
        },
    )?;
    put_back(out, &target.variable, base, cell, old)?;
    Ok(())
}

/// With these places in the cell and the next one, the value in another cell goes to the target.
pub fn stored(
    out: &mut Items<Instr>,
    bits: TargetBits,
    target: &TypedTarget,
    base: u32,
    cell: u32,
    from: u32,
) -> Result<(), AllocError>
    ensures { OnOk result (Adds out.old out.new (storing_code (bits_in bits) target.now base cell from)) }
{
    match bits {
        TargetBits::All => put_back(out, &target.variable, base, cell, from),
        TargetBits::Every { first, step, count } => {
            let spread = Spread { start: first, step };
            every_stored(out, spread, count, target, base, cell, from)
        }
        TargetBits::One => one_stored(out, target, base, cell, from),
    }
}

fn storing_length(bits: TargetBits) -> u32
    ensures { result ≡ storing_length (bits_in bits) }
{
    match bits {
        TargetBits::All => 1,
        TargetBits::Every { count, .. } => 2 + 4 * u32::from(count),
        TargetBits::One => 3,
    }
}

/// The value in a cell goes to a target, whose indexes are reckoned first. What is answered is where the next instruction stands. OpenQASM
/// 3.0, "Classical instructions".
pub fn target(
    out: &mut Items<Instr>,
    target: &TypedTarget,
    base: u32,
    cell: u32,
    at: u32,
) -> Result<u32, AllocError>
    ensures { IfOk result (Writes (target_code target.now base cell at) (target_length target.now) at out.old out.new) }
{
    let next = after(cell)?;
    let bits = target_bits(target)?;
    let middle = location(out, target, base, next, at)?;
    stored(out, bits, target, base, next, cell)?;
    let end = sum(middle, storing_length(bits))?;
    Ok(end)
}

// ---- compound assignments

/// The operator on the old value in cell 3 and the value in cell 0, converted to the type that is stored.
fn changed(
    out: &mut Items<Instr>,
    operator: Op,
    kind: ValueType,
    of: ValueType,
) -> Result<(), AllocError>
    ensures { OnOk result (Adds out.old out.new (binary 0 operator (operand 3 kind) (operand 0 of)
        ∷ instr.Cast 0 (operand 0 (or_bool (result_type operator kind of))) kind ∷ [])) }
{
    let left = Operand { cell: 3, kind };
    let right = Operand { cell: 0, kind: of };
    let operation = Operation::Binary {
        operator,
        left,
        right,
    };
    let from = Operand {
        cell: 0,
        kind: or_bool(op_type(operator, kind, of)),
    };
    put(out, Instr::Apply { cell: 0, operation })?;
    put(
        out,
        Instr::Cast {
            cell: 0,
            from,
            to: kind,
        },
    )?;
    Ok(())
}

/// The instructions behind the indexes of a target.
fn changing_length(bits: TargetBits) -> u32
    ensures { result ≡ loading_length (bits_in bits) + (2 + storing_length (bits_in bits)) }
{
    match bits {
        TargetBits::All => 4,
        TargetBits::Every { count, .. } => 6 + 8 * u32::from(count),
        TargetBits::One => 7,
    }
}

/// A compound assignment: the right side, then the target's indexes, then the old value, the operator and the store. What is answered is
/// where the next instruction stands. OpenQASM 3.0, "Classical instructions".
pub fn update(
    out: &mut Items<Instr>,
    target: &TypedTarget,
    operator: Op,
    value: &TypedExpr,
    base: u32,
    at: u32,
) -> Result<u32, AllocError>
    ensures { IfOk result (Writes (update_code target.now operator value.now base at) (update_length target.now value.now) at out.old out.new) }
{
    let bits = target_bits(target)?;
    let coded = expression(out, value, base, 0, at)?;
    let middle = location(out, target, base, 1, coded.behind)?;
    loaded(out, bits, target, base, 1)?;
    changed(out, operator, target.kind, coded.kind)?;
    stored(out, bits, target, base, 1, 0)?;
    let end = sum(middle, changing_length(bits))?;
    Ok(end)
}
