//! The place of a bit that is found in the run, by steps to it.

ghost use Rattle.std.specs.Prelude.{◌≡◌, ◌+◌, ◌∷◌, [], suc, IfOk, OnOk};
ghost use Rattle.qt_value.specs.declared.operators.Op.TheVariants as op;
ghost use Rattle.qt_value.specs.declared.types.ValueType.TheVariants as kind;
ghost use Rattle.qt_instructions.specs.declared.instruction.Instr.TheVariants as instr;
ghost use Rattle.qt_typed.specs.declared.expression.TypedStep.TheVariants as form;
ghost use Rattle.qt_flat_code.specs.Bits.{OneBit, EveryBit};
ghost use Rattle.qt_flat_code.specs.Expressions.{on_places, operand, place_kind};
ghost use Rattle.qt_flat_code.specs.Lengths.{bit_length, steps_length};
ghost use Rattle.qt_flat_code.specs.Storing.{bit_code, steps_code};
ghost use Rattle.qt_emit_expressions.specs.Adds.{Adds};
ghost use Rattle.qt_emit_storing.specs.BitsIn.{bits_in};
ghost use Rattle.qt_emit_storing.specs.Writes.{Writes};

use crate::bits::{TargetBits, after_step};
use qt_emit_expressions::coded::Spread;
use qt_emit_expressions::expressions::expression;
use qt_emit_expressions::numbers::{after, put, sum};
use qt_emit_expressions::places::place_in;
use qt_instructions::instruction::{Instr, Operand, Operation};
use qt_typed::expression::{TypedExpr, TypedStep};
use qt_value::operators::Op;
use qt_value::types::ValueType;
use sqlite_items::Items;
use std::alloc::AllocError;

/// The operator on places in two cells; the result comes to the first.
fn on_places(cell: u32, operator: Op, other: u32) -> Instr
    ensures { result ≡ on_places cell operator other }
{
    Instr::Apply {
        cell,
        operation: Operation::Binary {
            operator,
            left: place_in(cell),
            right: place_in(other),
        },
    }
}

/// The operator on the place in a cell and a number, which comes to another cell.
fn with_number(
    out: &mut Items<Instr>,
    cell: u32,
    operator: Op,
    number: u8,
    other: u32,
) -> Result<(), AllocError>
    ensures { OnOk result (Adds out.old out.new (instr.Load other number ∷ on_places cell operator other ∷ [])) }
{
    put(
        out,
        Instr::Load {
            cell: other,
            bits: u64::from(number),
        },
    )?;
    put(out, on_places(cell, operator, other))?;
    Ok(())
}

/// Tests an index for so many bits.
fn bits_tested(
    out: &mut Items<Instr>,
    index: Operand,
    other: u32,
    count: u8,
) -> Result<(), AllocError>
    ensures { OnOk result (Adds out.old out.new (instr.BitGet other (operand other (kind.Bit count)) index ∷ [])) }
{
    let of = Operand {
        cell: other,
        kind: ValueType::Bit(count),
    };
    put(
        out,
        Instr::BitGet {
            cell: other,
            of,
            index,
        },
    )
}

/// Makes an index for so many bits a place in a cell, counted from the end where it is negative.
fn counted(
    out: &mut Items<Instr>,
    cell: u32,
    index: Operand,
    other: u32,
    count: u8,
) -> Result<(), AllocError>
    ensures { OnOk result (Adds out.old out.new
        (instr.Load other count ∷ instr.Cast cell index place_kind ∷ on_places cell op.Add other ∷ on_places cell op.Rem other ∷ [])) }
{
    put(
        out,
        Instr::Load {
            cell: other,
            bits: u64::from(count),
        },
    )?;
    put(
        out,
        Instr::Cast {
            cell,
            from: index,
            to: ValueType::Int(64),
        },
    )?;
    put(out, on_places(cell, Op::Add, other))?;
    put(out, on_places(cell, Op::Rem, other))?;
    Ok(())
}

/// An index in the next cell becomes the place of one of so many bits.
fn every_placed(
    out: &mut Items<Instr>,
    cell: u32,
    of: ValueType,
    spread: Spread,
    count: u8,
) -> Result<(), AllocError>
    ensures { OnOk result (Adds out.old out.new (bit_code cell of (EveryBit spread.start spread.step count))) }
{
    let next = after(cell)?;
    let other = after(next)?;
    let index = Operand {
        cell: next,
        kind: of,
    };
    bits_tested(out, index, other, count)?;
    counted(out, cell, index, other, count)?;
    with_number(out, cell, Op::Mul, spread.step, other)?;
    with_number(out, cell, Op::Add, spread.start, other)?;
    Ok(())
}

/// An index in the next cell is tested for one bit.
fn one_tested(out: &mut Items<Instr>, cell: u32, of: ValueType) -> Result<(), AllocError>
    ensures { OnOk result (Adds out.old out.new (bit_code cell of OneBit)) }
{
    let next = after(cell)?;
    let other = after(next)?;
    let index = Operand {
        cell: next,
        kind: of,
    };
    bits_tested(out, index, other, 1)?;
    Ok(())
}

/// An index in the next cell is tested, and becomes the place of the bit in the cell.
fn bit_placed(
    out: &mut Items<Instr>,
    cell: u32,
    of: ValueType,
    bits: TargetBits,
) -> Result<(), AllocError>
    ensures { OnOk result (Adds out.old out.new (bit_code cell of (bits_in bits))) }
{
    match bits {
        TargetBits::All => Ok(()),
        TargetBits::Every { first, step, count } => {
            let spread = Spread { start: first, step };
            every_placed(out, cell, of, spread, count)
        }
        TargetBits::One => one_tested(out, cell, of),
    }
}

/// The instructions behind an index.
fn bit_length(bits: TargetBits) -> u32
    ensures { result ≡ bit_length (bits_in bits) }
{
    match bits {
        TargetBits::All => 0,
        TargetBits::Every { .. } => 9,
        TargetBits::One => 1,
    }
}

/// A step by an index.
fn index_step(
    out: &mut Items<Instr>,
    index: &TypedExpr,
    bits: TargetBits,
    base: u32,
    cell: u32,
    at: u32,
) -> Result<u32, AllocError>
    ensures { IfOk result (Writes (steps_code (form.At index.now ∷ []) (bits_in bits) base cell at)
        (steps_length (form.At index.now ∷ []) (bits_in bits)) at out.old out.new) }
{
    let next = after(cell)?;
    let value = expression(out, index, base, next, at)?;
    bit_placed(out, cell, value.kind, bits)?;
    let end = sum(value.behind, bit_length(bits))?;
    Ok(end)
}

/// One step; a slice has no code.
fn one_step(
    out: &mut Items<Instr>,
    step: &TypedStep,
    bits: TargetBits,
    base: u32,
    cell: u32,
    at: u32,
) -> Result<u32, AllocError>
    ensures { IfOk result (Writes (steps_code (step.now ∷ []) (bits_in bits) base cell at) (steps_length (step.now ∷ []) (bits_in bits)) at
        out.old out.new) }
{
    match step {
        TypedStep::At { index } => index_step(out, index, bits, base, cell, at),
        TypedStep::Slice { .. } => Ok(at),
    }
}

/// The place of the bit that steps lead to comes to the cell, where it is found in the run. What is answered is where the next instruction
/// stands.
#[tactic(auto, using(crate::proofs::StepForms::step_more, crate::proofs::StepForms::no_step))]
pub fn steps(
    out: &mut Items<Instr>,
    mut steps: &[TypedStep],
    first: TargetBits,
    base: u32,
    cell: u32,
    at: u32,
) -> Result<u32, AllocError>
    ensures { IfOk result (Writes (steps_code steps.entry.now (bits_in first) base cell at) (steps_length steps.entry.now (bits_in first)) at
        out.old out.new) }
{
    let mut end = at;
    let mut bits = first;
    'steps: while let [step, rest @ ..] = steps {
        end = one_step(out, step, bits, base, cell, end)?;
        bits = after_step(step, bits)?;
        steps = rest;
    }
    Ok(end)
}
