//! Several slots.

ghost use Rattle.std.specs.Prelude.{◌≡◌, ◌+◌, ◌∷◌, [], IfOk, OnOk};
ghost use Rattle.qt_flat_code.specs.Lengths.{values_length};
ghost use Rattle.qt_flat_code.specs.Storing.{copies, puts, values_code, zeros_code};
ghost use Rattle.qt_emit_expressions.specs.Adds.{Adds};
ghost use Rattle.qt_emit_storing.specs.Writes.{Writes};

use qt_emit_expressions::expressions::expression;
use qt_emit_expressions::numbers::{after, put};
use qt_instructions::instruction::Instr;
use qt_typed::expression::TypedExpr;
use sqlite_items::Items;
use std::alloc::AllocError;

/// One value comes to a cell.
fn value(
    out: &mut Items<Instr>,
    e: &TypedExpr,
    base: u32,
    cell: u32,
    at: u32,
) -> Result<u32, AllocError>
    ensures { IfOk result (Writes (values_code (e.now ∷ []) base cell at) (values_length (e.now ∷ [])) at out.old out.new) }
{
    let coded = expression(out, e, base, cell, at)?;
    Ok(coded.behind)
}

/// Values come to cells from one on.
#[tactic(auto, using(crate::proofs::SlotForms::value_more, crate::proofs::SlotForms::no_value))]
pub fn values(
    out: &mut Items<Instr>,
    mut values: &[TypedExpr],
    base: u32,
    first: u32,
    at: u32,
) -> Result<u32, AllocError>
    ensures { IfOk result (Writes (values_code values.entry.now base first at) (values_length values.entry.now) at out.old out.new) }
{
    let mut end = at;
    let mut cell = first;
    'values: while let [e, rest @ ..] = values {
        end = value(out, e, base, cell, end)?;
        cell = after(cell)?;
        values = rest;
    }
    Ok(end)
}

/// So many cells from one on go to slots.
#[tactic(auto, using(crate::proofs::SlotForms::no_put))]
pub fn puts(out: &mut Items<Instr>, slot: u32, cell: u32, count: u32) -> Result<(), AllocError>
    ensures { OnOk result (Adds out.old out.new (puts slot cell count)) }
{
    let (mut to, mut from, mut left) = (slot, cell, count);
    'slots: while left > 0 {
        put(
            out,
            Instr::Put {
                slot: to,
                cell: from,
            },
        )?;
        to = after(to)?;
        from = after(from)?;
        left -= 1;
    }
    Ok(())
}

/// One cell goes to so many slots.
#[tactic(auto, using(crate::proofs::SlotForms::no_copy))]
fn copies(out: &mut Items<Instr>, slot: u32, cell: u32, count: u32) -> Result<(), AllocError>
    ensures { OnOk result (Adds out.old out.new (copies slot cell count)) }
{
    let (mut to, mut left) = (slot, count);
    'slots: while left > 0 {
        put(out, Instr::Put { slot: to, cell })?;
        to = after(to)?;
        left -= 1;
    }
    Ok(())
}

/// So many slots become 0, by a cell.
#[tactic(auto, using(crate::proofs::SlotForms::zeros_written, crate::proofs::SlotForms::no_zeros))]
pub fn zeros(out: &mut Items<Instr>, slot: u32, cell: u32, count: u32) -> Result<(), AllocError>
    ensures { OnOk result (Adds out.old out.new (zeros_code slot cell count)) }
{
    if count == 0 {
        return Ok(());
    }
    put(out, Instr::Load { cell, bits: 0 })?;
    copies(out, slot, cell, count)
}
