//! Positions and numbers of turns in work cells.

ghost use Rattle.std.specs.Prelude.{◌≡◌, OnOk};
ghost use Rattle.qt_flat_code.specs.Expressions.{operand};
ghost use Rattle.qt_flat_code.specs.Loops.{count_kind, counted_code, more_code, on_counts};
ghost use Rattle.qt_emit_expressions.specs.Adds.{Adds};

use qt_emit_expressions::numbers::put;
use qt_instructions::instruction::{Instr, Operand, Operation};
use qt_value::operators::Op;
use qt_value::types::ValueType;
use sqlite_items::Items;
use std::alloc::AllocError;

/// A count in a cell.
pub fn count_in(cell: u32) -> Operand
    ensures { result ≡ operand cell count_kind }
{
    Operand {
        cell,
        kind: ValueType::Uint(64),
    }
}

/// The operator on counts in two cells; the result comes to the first.
pub fn on_counts(cell: u32, operator: Op, other: u32) -> Instr
    ensures { result ≡ on_counts cell operator other }
{
    Instr::Apply {
        cell,
        operation: Operation::Binary {
            operator,
            left: count_in(cell),
            right: count_in(other),
        },
    }
}

/// One more turn has begun.
pub fn counted(out: &mut Items<Instr>, position: u32) -> Result<(), AllocError>
    ensures { OnOk result (Adds out.old out.new (counted_code position)) }
{
    put(
        out,
        Instr::Get {
            cell: 0,
            slot: position,
        },
    )?;
    put(out, Instr::Load { cell: 1, bits: 1 })?;
    put(out, on_counts(0, Op::Add, 1))?;
    put(
        out,
        Instr::Put {
            slot: position,
            cell: 0,
        },
    )?;
    Ok(())
}

/// Whether fewer turns than so many have begun.
pub fn more(out: &mut Items<Instr>, position: u32, count: u32) -> Result<(), AllocError>
    ensures { OnOk result (Adds out.old out.new (more_code position count)) }
{
    put(
        out,
        Instr::Get {
            cell: 0,
            slot: position,
        },
    )?;
    put(
        out,
        Instr::Load {
            cell: 1,
            bits: u64::from(count),
        },
    )?;
    put(out, on_counts(0, Op::Lt, 1))?;
    Ok(())
}
