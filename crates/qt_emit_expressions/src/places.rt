//! The place of an array's element in a cell, by its indexes.

ghost use Rattle.std.specs.Prelude.{◌≡◌, ◌+◌, ◌∷◌, [], suc, OnOk};
ghost use Rattle.qt_value.specs.declared.operators.Op.TheVariants as op;
ghost use Rattle.qt_instructions.specs.declared.instruction.Instr.TheVariants as instr;
ghost use Rattle.qt_flat_code.specs.Expressions.{index_code, on_places, operand, place_kind};
ghost use Rattle.qt_emit_expressions.specs.Adds.{Adds};

use crate::numbers::{after, put};
use qt_instructions::instruction::{Instr, Operand, Operation};
use qt_value::operators::Op;
use qt_value::types::ValueType;
use sqlite_items::Items;
use std::alloc::AllocError;

/// A place or a length in a cell.
pub fn place_in(cell: u32) -> Operand
    ensures { result ≡ operand cell place_kind }
{
    Operand {
        cell,
        kind: ValueType::Int(64),
    }
}

/// The operator on places in two cells; the result comes to the first.
fn on_places(cell: u32, operator: Op, other: u32) -> Instr
    ensures { result ≡ on_places cell operator other }
{
    Instr::Apply {
        cell,
        operation: Operation::Binary {
            operator,
            left: place_in(cell),
            right: place_in(other),
        },
    }
}

/// Tests an index for so many slots from the first on, and makes it and the length places in its cell and the next.
fn index_tested(
    out: &mut Items<Instr>,
    first: u32,
    index: Operand,
    other: u32,
    length: u32,
) -> Result<(), AllocError>
    ensures { OnOk result (Adds out.old out.new
        (instr.GetAt other first length index ∷ instr.Load other length ∷ instr.Cast index.cell index place_kind ∷ [])) }
{
    put(
        out,
        Instr::GetAt {
            cell: other,
            first,
            count: length,
            index,
        },
    )?;
    put(
        out,
        Instr::Load {
            cell: other,
            bits: u64::from(length),
        },
    )?;
    put(
        out,
        Instr::Cast {
            cell: index.cell,
            from: index,
            to: ValueType::Int(64),
        },
    )?;
    Ok(())
}

/// Counts the place in a cell from the end where it is negative.
fn counted_from_end(out: &mut Items<Instr>, cell: u32, length: u32) -> Result<(), AllocError>
    ensures { OnOk result (Adds out.old out.new (on_places cell op.Add length ∷ on_places cell op.Rem length ∷ [])) }
{
    put(out, on_places(cell, Op::Add, length))?;
    put(out, on_places(cell, Op::Rem, length))?;
    Ok(())
}

/// Joins the place in one dimension, of that length, to the place that the dimensions before give.
fn joined(out: &mut Items<Instr>, cell: u32, place: u32, length: u32) -> Result<(), AllocError>
    ensures { OnOk result (Adds out.old out.new (on_places cell op.Mul length ∷ on_places cell op.Add place ∷ [])) }
{
    put(out, on_places(cell, Op::Mul, length))?;
    put(out, on_places(cell, Op::Add, place))?;
    Ok(())
}

/// An index in the next cell is tested for a dimension of that length of an array whose first slot is given, and joins the place in the cell.
pub fn index_joined(
    out: &mut Items<Instr>,
    cell: u32,
    first: u32,
    of: ValueType,
    length: u32,
) -> Result<(), AllocError>
    ensures { OnOk result (Adds out.old out.new (index_code cell first of length)) }
{
    let place = after(cell)?;
    let other = after(place)?;
    index_tested(
        out,
        first,
        Operand {
            cell: place,
            kind: of,
        },
        other,
        length,
    )?;
    counted_from_end(out, place, other)?;
    joined(out, cell, place, other)?;
    Ok(())
}
