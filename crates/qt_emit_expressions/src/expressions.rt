//! The code of expressions.

ghost use Rattle.std.specs.Prelude.{◌≡◌, ◌+◌, IfOk, OnOk};
ghost use Rattle.qt_typed.specs.Types.{or_bool};
ghost use Rattle.qt_typed.specs.declared.expression.TypedExpr.TheVariants as form;
ghost use Rattle.qt_flat_code.specs.Expressions.{logical_jumps};
ghost use Rattle.qt_emit_expressions.specs.Adds.{Adds};
ghost use Rattle.qt_emit_expressions.specs.Emits.{Emits, EmitsBoth, EmitsIndex, EmitsIndexes, EmitsPlace};
ghost use Rattle.qt_emit_expressions.specs.Quotients.{divided_code, rest_code};

use crate::bits::sliced;
use crate::coded::{BothCoded, Coded, Spread};
use crate::lengths::{jumps_of, length};
use crate::numbers::{after, element_count, put, put_at, sum};
use crate::places::{index_joined, place_in};
use qt_instructions::angle::AngleOperation;
use qt_instructions::instruction::{Instr, Operand, Operation};
use qt_typed::expression::{Logical, TypedExpr};
use qt_value::operators::{Op, UnaryOp, op_type, unary_type};
use qt_value::types::ValueType;
use qt_value::value::Value;
use sqlite_items::Items;
use std::alloc::AllocError;

/// The type that the table of operators gives, and any where it gives none.
pub fn or_bool(kind: Option<ValueType>) -> ValueType
    ensures { result ≡ or_bool kind }
{
    match kind {
        Some(kind) => kind,
        None => ValueType::Bool,
    }
}

// ---- leaves

fn constant(
    out: &mut Items<Instr>,
    value: Value,
    base: u32,
    cell: u32,
    at: u32,
) -> Result<Coded, AllocError>
    ensures { IfOk result (Emits (form.Constant value) base cell at out.old out.new) }
{
    let bits = value.bits();
    let behind = put_at(out, at, Instr::Load { cell, bits })?;
    Ok(Coded {
        behind,
        kind: value.kind(),
    })
}

fn variable(
    out: &mut Items<Instr>,
    kind: ValueType,
    slot: u32,
    base: u32,
    cell: u32,
    at: u32,
) -> Result<Coded, AllocError>
    ensures { IfOk result (Emits (form.Slot kind slot) base cell at out.old out.new) }
{
    let slot = sum(base, slot)?;
    let behind = put_at(out, at, Instr::Get { cell, slot })?;
    Ok(Coded { behind, kind })
}

// ---- elements

/// An index, which joins the place in the cell.
#[cycle(expression)]
fn index_placed(
    out: &mut Items<Instr>,
    length: u32,
    first: u32,
    index: &TypedExpr,
    base: u32,
    cell: u32,
    at: u32,
) -> Result<u32, AllocError>
    ensures { IfOk result (EmitsIndex length first index.now base cell at out.old out.new) }
{
    let next = after(cell)?;
    let value = expression(out, index, base, next, at)?;
    index_joined(out, cell, first, value.kind, length)?;
    let end = sum(value.behind, 7)?;
    Ok(end)
}

/// The indexes of an element, one by one.
#[cycle(expression)]
fn indexes_placed(
    out: &mut Items<Instr>,
    mut lengths: &[u32],
    first: u32,
    mut indexes: &[TypedExpr],
    base: u32,
    cell: u32,
    at: u32,
) -> Result<u32, AllocError>
    ensures { IfOk result (EmitsIndexes lengths.entry.now first indexes.entry.now base cell at out.old out.new) }
{
    let mut end = at;
    'indexes: while let [index, rest @ ..] = indexes {
        match lengths {
            [] => return Ok(end),
            [length, more @ ..] => {
                end = index_placed(out, *length, first, index, base, cell, end)?;
                lengths = more;
                indexes = rest;
            }
        }
    }
    Ok(end)
}

/// The place of an element among those of its array, whose first slot is given.
#[cycle(expression)]
pub fn element_place(
    out: &mut Items<Instr>,
    lengths: &[u32],
    first: u32,
    indexes: &[TypedExpr],
    base: u32,
    cell: u32,
    at: u32,
) -> Result<u32, AllocError>
    ensures { IfOk result (EmitsPlace lengths.now first indexes.now base cell at out.old out.new) }
{
    let next = put_at(out, at, Instr::Load { cell, bits: 0 })?;
    let end = indexes_placed(out, lengths, first, indexes, base, cell, next)?;
    Ok(end)
}

#[cycle(expression)]
fn element(
    out: &mut Items<Instr>,
    kind: ValueType,
    slot: u32,
    lengths: &[u32],
    indexes: &[TypedExpr],
    base: u32,
    cell: u32,
    at: u32,
) -> Result<Coded, AllocError>
    ensures { IfOk result (Emits (form.Element kind slot lengths.now indexes.now) base cell at out.old out.new) }
{
    let first = sum(base, slot)?;
    let count = element_count(lengths)?;
    let end = element_place(out, lengths, first, indexes, base, cell, at)?;
    let index = place_in(cell);
    let behind = put_at(
        out,
        end,
        Instr::GetAt {
            cell,
            first,
            count,
            index,
        },
    )?;
    Ok(Coded { behind, kind })
}

// ---- one value

#[cycle(expression)]
fn slice(
    out: &mut Items<Instr>,
    of: &TypedExpr,
    spread: Spread,
    count: u8,
    base: u32,
    cell: u32,
    at: u32,
) -> Result<Coded, AllocError>
    ensures { IfOk result (Emits (form.Slice of.now spread.start spread.step count) base cell at out.old out.new) }
{
    let value = expression(out, of, base, cell, at)?;
    let bits = Operand {
        cell,
        kind: value.kind,
    };
    sliced(out, bits, spread, count)?;
    let behind = sum(value.behind, 2 + 4 * u32::from(count))?;
    Ok(Coded {
        behind,
        kind: ValueType::Bit(count),
    })
}

#[cycle(expression)]
fn conversion(
    out: &mut Items<Instr>,
    to: ValueType,
    operand: &TypedExpr,
    base: u32,
    cell: u32,
    at: u32,
) -> Result<Coded, AllocError>
    ensures { IfOk result (Emits (form.Convert to operand.now) base cell at out.old out.new) }
{
    let value = expression(out, operand, base, cell, at)?;
    let from = Operand {
        cell,
        kind: value.kind,
    };
    let behind = put_at(out, value.behind, Instr::Cast { cell, from, to })?;
    Ok(Coded { behind, kind: to })
}

#[cycle(expression)]
fn unary(
    out: &mut Items<Instr>,
    operator: UnaryOp,
    operand: &TypedExpr,
    base: u32,
    cell: u32,
    at: u32,
) -> Result<Coded, AllocError>
    ensures { IfOk result (Emits (form.Unary operator operand.now) base cell at out.old out.new) }
{
    let value = expression(out, operand, base, cell, at)?;
    let of = Operand {
        cell,
        kind: value.kind,
    };
    let operation = Operation::Unary { operator, of };
    let behind = put_at(out, value.behind, Instr::Apply { cell, operation })?;
    Ok(Coded {
        behind,
        kind: or_bool(unary_type(operator, value.kind)),
    })
}

// ---- two values

/// Two values, one after the other, the second one in the next cell.
#[cycle(expression)]
fn both(
    out: &mut Items<Instr>,
    left: &TypedExpr,
    right: &TypedExpr,
    base: u32,
    cell: u32,
    at: u32,
) -> Result<BothCoded, AllocError>
    ensures { IfOk result (EmitsBoth left.now right.now base cell at out.old out.new) }
{
    let next = after(cell)?;
    let first = expression(out, left, base, cell, at)?;
    let second = expression(out, right, base, next, first.behind)?;
    Ok(BothCoded {
        behind: second.behind,
        left: first.kind,
        right: second.kind,
    })
}

#[cycle(expression)]
fn bit(
    out: &mut Items<Instr>,
    of: &TypedExpr,
    index: &TypedExpr,
    base: u32,
    cell: u32,
    at: u32,
) -> Result<Coded, AllocError>
    ensures { IfOk result (Emits (form.Bit of.now index.now) base cell at out.old out.new) }
{
    let next = after(cell)?;
    let values = both(out, of, index, base, cell, at)?;
    let of = Operand {
        cell,
        kind: values.left,
    };
    let index = Operand {
        cell: next,
        kind: values.right,
    };
    let behind = put_at(out, values.behind, Instr::BitGet { cell, of, index })?;
    Ok(Coded {
        behind,
        kind: ValueType::Bit(1),
    })
}

#[cycle(expression)]
fn binary(
    out: &mut Items<Instr>,
    operator: Op,
    left: &TypedExpr,
    right: &TypedExpr,
    base: u32,
    cell: u32,
    at: u32,
) -> Result<Coded, AllocError>
    ensures { IfOk result (Emits (form.Binary operator left.now right.now) base cell at out.old out.new) }
{
    let next = after(cell)?;
    let values = both(out, left, right, base, cell, at)?;
    let left = Operand {
        cell,
        kind: values.left,
    };
    let right = Operand {
        cell: next,
        kind: values.right,
    };
    let operation = Operation::Binary {
        operator,
        left,
        right,
    };
    let behind = put_at(out, values.behind, Instr::Apply { cell, operation })?;
    Ok(Coded {
        behind,
        kind: or_bool(op_type(operator, values.left, values.right)),
    })
}

/// The test that a division leaves no rest.
fn rest_tested(
    out: &mut Items<Instr>,
    left: Operand,
    right: Operand,
    cell: u32,
) -> Result<(), AllocError>
    ensures { OnOk result (Adds out.old out.new (rest_code cell left right)) }
{
    let operation = Operation::Binary {
        operator: Op::Rem,
        left,
        right,
    };
    let value = Operand {
        cell,
        kind: or_bool(op_type(Op::Rem, left.kind, right.kind)),
    };
    let test = AngleOperation::NoRest { value };
    put(out, Instr::Apply { cell, operation })?;
    put(
        out,
        Instr::AngleOp {
            cell,
            operation: test,
        },
    )?;
    Ok(())
}

/// The test that a division leaves no rest, and the quotient.
fn divided(out: &mut Items<Instr>, left: Operand, right: Operand) -> Result<(), AllocError>
    ensures { OnOk result (Adds out.old out.new (divided_code left right)) }
{
    let rest = after(right.cell)?;
    let cell = left.cell;
    let operation = Operation::Binary {
        operator: Op::Div,
        left,
        right,
    };
    rest_tested(out, left, right, rest)?;
    put(out, Instr::Apply { cell, operation })?;
    Ok(())
}

#[cycle(expression)]
fn quotient(
    out: &mut Items<Instr>,
    left: &TypedExpr,
    right: &TypedExpr,
    base: u32,
    cell: u32,
    at: u32,
) -> Result<Coded, AllocError>
    ensures { IfOk result (Emits (form.ExactQuotient left.now right.now) base cell at out.old out.new) }
{
    let next = after(cell)?;
    let values = both(out, left, right, base, cell, at)?;
    let left = Operand {
        cell,
        kind: values.left,
    };
    let right = Operand {
        cell: next,
        kind: values.right,
    };
    divided(out, left, right)?;
    let behind = sum(values.behind, 3)?;
    Ok(Coded {
        behind,
        kind: or_bool(op_type(Op::Div, values.left, values.right)),
    })
}

/// The jumps between both sides, where the right one has so many instructions.
fn jumps(
    out: &mut Items<Instr>,
    operator: Logical,
    cell: u32,
    at: u32,
    length: u32,
) -> Result<(), AllocError>
    ensures { OnOk result (Adds out.old out.new (logical_jumps operator cell at length)) }
{
    let start = sum(at, jumps_of(operator))?;
    let end = sum(start, length)?;
    match operator {
        Logical::And => {
            put(
                out,
                Instr::JumpIf {
                    condition: cell,
                    to: start,
                },
            )?;
            put(out, Instr::Jump { to: end })?;
            Ok(())
        }
        Logical::Or => {
            put(
                out,
                Instr::JumpIf {
                    condition: cell,
                    to: end,
                },
            )?;
            Ok(())
        }
    }
}

#[cycle(expression)]
fn logical(
    out: &mut Items<Instr>,
    operator: Logical,
    left: &TypedExpr,
    right: &TypedExpr,
    base: u32,
    cell: u32,
    at: u32,
) -> Result<Coded, AllocError>
    ensures { IfOk result (Emits (form.Logical operator left.now right.now) base cell at out.old out.new) }
{
    let more = length(right)?;
    let first = expression(out, left, base, cell, at)?;
    let start = sum(first.behind, jumps_of(operator))?;
    jumps(out, operator, cell, first.behind, more)?;
    let last = expression(out, right, base, cell, start)?;
    Ok(Coded {
        behind: last.behind,
        kind: ValueType::Bool,
    })
}

// ---- expressions

/// The code of an expression at a place, behind the instructions so far. `base` is the first slot of the frame, and `cell` the work cell that
/// the value comes to. OpenQASM 3.0, "Classical instructions" and "Types and Casting".
#[cycle(expression)]
pub fn expression(
    out: &mut Items<Instr>,
    e: &TypedExpr,
    base: u32,
    cell: u32,
    at: u32,
) -> Result<Coded, AllocError>
    ensures { IfOk result (Emits e.now base cell at out.old out.new) }
{
    match e {
        TypedExpr::Constant { value } => constant(out, *value, base, cell, at),
        TypedExpr::Slot { kind, slot } => variable(out, *kind, *slot, base, cell, at),
        TypedExpr::Element {
            kind,
            slot,
            lengths,
            indexes,
        } => {
            let (lengths, indexes) = (lengths.items(), indexes.as_slice());
            element(out, *kind, *slot, lengths, indexes, base, cell, at)
        }
        TypedExpr::Bit { of, index } => bit(out, of.get(), index.get(), base, cell, at),
        TypedExpr::Slice {
            of,
            start,
            step,
            count,
        } => {
            let spread = Spread {
                start: *start,
                step: *step,
            };
            slice(out, of.get(), spread, *count, base, cell, at)
        }
        TypedExpr::Convert { to, operand } => {
            conversion(out, *to, operand.get(), base, cell, at)
        }
        TypedExpr::Unary { operator, operand } => {
            unary(out, *operator, operand.get(), base, cell, at)
        }
        TypedExpr::Binary {
            operator,
            left,
            right,
        } => binary(out, *operator, left.get(), right.get(), base, cell, at),
        TypedExpr::ExactQuotient { left, right } => {
            quotient(out, left.get(), right.get(), base, cell, at)
        }
        TypedExpr::Logical {
            operator,
            left,
            right,
        } => logical(out, *operator, left.get(), right.get(), base, cell, at),
    }
}
