//! Whether a turn follows.

ghost use Rattle.std.specs.Prelude.{◌≡◌, ◌+◌, ◌∷◌, [], IfOk, OnOk};
ghost use Rattle.qt_value.specs.declared.operators.Op.TheVariants as op;
ghost use Rattle.qt_instructions.specs.declared.instruction.Instr.TheVariants as instr;
ghost use Rattle.qt_flat_code.specs.Loops.{has_turn_code, more_code, on_counts};
ghost use Rattle.qt_emit_expressions.specs.Adds.{Adds};
ghost use Rattle.qt_emit_storing.specs.Writes.{Writes};

use crate::counts::{more, on_counts};
use crate::keeping::count_of;
use qt_emit_expressions::numbers::{put, sum};
use qt_instructions::instruction::Instr;
use qt_typed::statement::TypedSequence;
use qt_value::operators::Op;
use sqlite_items::Items;
use std::alloc::AllocError;

/// Whether turns are left of a range.
fn turns_left(out: &mut Items<Instr>, x: u32) -> Result<(), AllocError>
    ensures { OnOk result (Adds out.old out.new (instr.Get 0 (x + 3) ∷ instr.Load 1 0 ∷ on_counts 0 op.Ne 1 ∷ [])) }
{
    let slot = sum(x, 3)?;
    put(out, Instr::Get { cell: 0, slot })?;
    put(out, Instr::Load { cell: 1, bits: 0 })?;
    put(out, on_counts(0, Op::Ne, 1))?;
    Ok(())
}

/// Whether elements are left that are kept behind the variable.
fn elements_left(out: &mut Items<Instr>, x: u32, count: u32) -> Result<(), AllocError>
    ensures { OnOk result (Adds out.old out.new (more_code (x + 1 + count) count)) }
{
    let first = sum(x, 1)?;
    let position = sum(first, count)?;
    more(out, position, count)?;
    Ok(())
}

/// Whether bits are left of a register that is kept behind the variable.
fn bits_left(out: &mut Items<Instr>, x: u32, width: u8) -> Result<(), AllocError>
    ensures { OnOk result (Adds out.old out.new (more_code (x + 2) width)) }
{
    let position = sum(x, 2)?;
    more(out, position, u32::from(width))?;
    Ok(())
}

/// Whether a turn follows comes to cell 0.
pub fn has_turn(out: &mut Items<Instr>, over: &TypedSequence, x: u32) -> Result<(), AllocError>
    ensures { OnOk result (Adds out.old out.new (has_turn_code over.now x)) }
{
    match over {
        TypedSequence::Range { .. } => turns_left(out, x),
        TypedSequence::Set { members } => {
            let count = count_of(members.as_slice())?;
            elements_left(out, x, count)
        }
        TypedSequence::Array { length, .. } => elements_left(out, x, *length),
        TypedSequence::Bits { width, .. } => bits_left(out, x, *width),
    }
}

/// The same; where the next instruction stands.
pub fn turn_tested(
    out: &mut Items<Instr>,
    over: &TypedSequence,
    x: u32,
    at: u32,
) -> Result<u32, AllocError>
    ensures { IfOk result (Writes (has_turn_code over.now x) 3 at out.old out.new) }
{
    let end = sum(at, 3)?;
    has_turn(out, over, x)?;
    Ok(end)
}
