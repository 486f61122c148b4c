//! What a `for` keeps in slots behind its variable's.

ghost use Rattle.std.specs.Prelude.{◌≡◌, ◌+◌, ◌∷◌, [], length, IfOk, OnOk};
ghost use Rattle.qt_instructions.specs.declared.instruction.Instr.TheVariants as instr;
ghost use Rattle.qt_typed.specs.declared.statement.TypedSequence.TheVariants as over;
ghost use Rattle.qt_flat_code.specs.Expressions.{operand};
ghost use Rattle.qt_flat_code.specs.Loops.{count_kind, gets, kept_code, kept_from, kept_length};
ghost use Rattle.qt_emit_expressions.specs.Adds.{Adds};
ghost use Rattle.qt_emit_loops.specs.EmitsStep.{EmitsStep};
ghost use Rattle.qt_emit_storing.specs.Writes.{Writes};

use qt_emit_expressions::coded::Coded;
use qt_emit_expressions::expressions::expression;
use qt_emit_expressions::numbers::{after, put, put_at, sum};
use qt_emit_storing::slots::{puts, values};
use qt_instructions::instruction::{Instr, Operand};
use qt_typed::expression::TypedExpr;
use qt_typed::statement::TypedSequence;
use qt_value::types::ValueType;
use sqlite_items::Items;
use std::alloc::AllocError;

/// So many slots to cells from one on.
#[tactic(auto, using(crate::proofs::LoopForms::no_get))]
fn gets(out: &mut Items<Instr>, cell: u32, slot: u32, count: u32) -> Result<(), AllocError>
    ensures { OnOk result (Adds out.old out.new (gets cell slot count)) }
{
    let (mut to, mut from, mut left) = (cell, slot, count);
    'slots: while left > 0 {
        put(
            out,
            Instr::Get {
                cell: to,
                slot: from,
            },
        )?;
        to = after(to)?;
        from = after(from)?;
        left -= 1;
    }
    Ok(())
}

/// Behind so many values in cells stands the position; all go to the slots behind the variable's.
fn kept_from(out: &mut Items<Instr>, count: u32, x: u32) -> Result<(), AllocError>
    ensures { OnOk result (Adds out.old out.new (kept_from count x)) }
{
    let first = sum(x, 1)?;
    let all = after(count)?;
    put(
        out,
        Instr::Load {
            cell: count,
            bits: 0,
        },
    )?;
    puts(out, first, 0, all)?;
    Ok(())
}

/// The step of a range, which is 1 where none is written.
#[tactic(auto, using(crate::proofs::LoopForms::no_step_written, crate::proofs::LoopForms::step_written))]
fn step(
    out: &mut Items<Instr>,
    by: &Option<TypedExpr>,
    base: u32,
    cell: u32,
    at: u32,
) -> Result<Coded, AllocError>
    ensures { IfOk result (EmitsStep by.now base cell at out.old out.new) }
{
    match by {
        None => {
            let behind = put_at(out, at, Instr::Load { cell, bits: 1 })?;
            Ok(Coded {
                behind,
                kind: ValueType::Uint(64),
            })
        }
        Some(e) => expression(out, e, base, cell, at),
    }
}

/// A value in a cell becomes a count.
fn counted(out: &mut Items<Instr>, cell: u32, kind: ValueType) -> Result<(), AllocError>
    ensures { OnOk result (Adds out.old out.new (instr.Cast cell (operand cell kind) count_kind ∷ [])) }
{
    let from = Operand { cell, kind };
    put(
        out,
        Instr::Cast {
            cell,
            from,
            to: ValueType::Uint(64),
        },
    )?;
    Ok(())
}

/// The turns of a range come to cell 3, and the first value and the step become counts.
fn reckoned(
    out: &mut Items<Instr>,
    first: ValueType,
    step: ValueType,
    last: ValueType,
) -> Result<(), AllocError>
    ensures { OnOk result (Adds out.old out.new (instr.Turns 3 (operand 0 first) (operand 1 step) (operand 2 last)
        ∷ instr.Cast 0 (operand 0 first) count_kind ∷ instr.Cast 1 (operand 1 step) count_kind ∷ [])) }
{
    put(
        out,
        Instr::Turns {
            cell: 3,
            first: Operand {
                cell: 0,
                kind: first,
            },
            step: Operand {
                cell: 1,
                kind: step,
            },
            last: Operand {
                cell: 2,
                kind: last,
            },
        },
    )?;
    counted(out, 0, first)?;
    counted(out, 1, step)?;
    Ok(())
}

/// The next value, the step and the turns left go to their slots.
fn range_kept(out: &mut Items<Instr>, x: u32) -> Result<(), AllocError>
    ensures { OnOk result (Adds out.old out.new (instr.Put (x + 1) 0 ∷ instr.Put (x + 2) 1 ∷ instr.Put (x + 3) 3 ∷ [])) }
{
    let next = sum(x, 1)?;
    let step = sum(x, 2)?;
    let left = sum(x, 3)?;
    put(
        out,
        Instr::Put {
            slot: next,
            cell: 0,
        },
    )?;
    put(
        out,
        Instr::Put {
            slot: step,
            cell: 1,
        },
    )?;
    put(
        out,
        Instr::Put {
            slot: left,
            cell: 3,
        },
    )?;
    Ok(())
}

/// A range.
fn range(
    out: &mut Items<Instr>,
    first: &TypedExpr,
    by: &Option<TypedExpr>,
    last: &TypedExpr,
    x: u32,
    base: u32,
    at: u32,
) -> Result<u32, AllocError>
    ensures { IfOk result (Writes (kept_code (over.Range first.now by.now last.now) x base at)
        (kept_length (over.Range first.now by.now last.now)) at out.old out.new) }
{
    let start = expression(out, first, base, 0, at)?;
    let step = step(out, by, base, 1, start.behind)?;
    let stop = expression(out, last, base, 2, step.behind)?;
    reckoned(out, start.kind, step.kind, stop.kind)?;
    range_kept(out, x)?;
    let end = sum(stop.behind, 6)?;
    Ok(end)
}

/// The number of values, where it has 32 bits.
pub fn count_of(values: &[TypedExpr]) -> Result<u32, AllocError>
    ensures { IfOk result (λ n. n ≡ length values.now) }
{
    match u32::try_from(values.len()) {
        Ok(count) => Ok(count),
        Err(_) => Err(AllocError),
    }
}

/// The members of a set.
fn set(
    out: &mut Items<Instr>,
    members: &[TypedExpr],
    x: u32,
    base: u32,
    at: u32,
) -> Result<u32, AllocError>
    ensures { IfOk result (Writes (kept_code (over.Set members.now) x base at) (kept_length (over.Set members.now)) at out.old out.new) }
{
    let count = count_of(members)?;
    let middle = values(out, members, base, 0, at)?;
    kept_from(out, count, x)?;
    let kept = sum(count, 2)?;
    let end = sum(middle, kept)?;
    Ok(end)
}

/// The elements of an array.
fn array(
    out: &mut Items<Instr>,
    kind: ValueType,
    slot: u32,
    count: u32,
    x: u32,
    base: u32,
    at: u32,
) -> Result<u32, AllocError>
    ensures { IfOk result (Writes (kept_code (over.Array kind slot count) x base at) (kept_length (over.Array kind slot count)) at
        out.old out.new) }
{
    let first = sum(base, slot)?;
    let middle = sum(at, count)?;
    gets(out, 0, first, count)?;
    kept_from(out, count, x)?;
    let kept = sum(count, 2)?;
    let end = sum(middle, kept)?;
    Ok(end)
}

/// A bit register.
fn register(
    out: &mut Items<Instr>,
    width: u8,
    value: &TypedExpr,
    x: u32,
    base: u32,
    at: u32,
) -> Result<u32, AllocError>
    ensures { IfOk result (Writes (kept_code (over.Bits width value.now) x base at) (kept_length (over.Bits width value.now)) at
        out.old out.new) }
{
    let coded = expression(out, value, base, 0, at)?;
    kept_from(out, 1, x)?;
    let end = sum(coded.behind, 3)?;
    Ok(end)
}

/// What a `for` keeps goes to its slots, behind that of its variable, which is x. What is answered is where the next instruction stands.
pub fn kept(
    out: &mut Items<Instr>,
    over: &TypedSequence,
    x: u32,
    base: u32,
    at: u32,
) -> Result<u32, AllocError>
    ensures { IfOk result (Writes (kept_code over.now x base at) (kept_length over.now) at out.old out.new) }
{
    match over {
        TypedSequence::Range { first, step, last } => { range(out, first, step, last, x, base, at) }
        TypedSequence::Set { members } => set(out, members.as_slice(), x, base, at),
        TypedSequence::Array { kind, slot, length } => {
            array(out, *kind, *slot, *length, x, base, at)
        }
        TypedSequence::Bits { width, value } => register(out, *width, value, x, base, at),
    }
}
