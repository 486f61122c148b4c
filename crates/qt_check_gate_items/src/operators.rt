//! How many operators stand in expressions.

ghost use Rattle.std.specs.Prelude.{◌≡◌, ◌+◌, map, IfOk};
ghost use Rattle.qt_typing.specs.GateItems as spec;
ghost use Rattle.qt_check_gate_items.specs.Operators.{operators_of, index_operators_of, optional_operators_of};
ghost use Rattle.qt_check_gate_items.specs.Operators.{range_operators_of, scalar_operators_of};

use qt_outside::faults::OutOfMemory;
use qt_tree::expression::{Expr, Index, Range, Scalar};
use sqlite_items::Items;

/// The sum. One that leaves 32 bits, as in no text, is refused as if memory wanted.
fn sum(left: u32, right: u32) -> Result<u32, OutOfMemory>
    ensures { IfOk result (λ all. all ≡ left + right) }
{
    left.checked_add(right).ok_or(OutOfMemory)
}

/// How many operators stand in an expression.
#[cycle(operators)]
fn operators_of(expr: &Expr) -> Result<u32, OutOfMemory>
    ensures { IfOk result (λ count. count ≡ operators_of expr.now) }
{
    match expr {
        Expr::Parenthesized { inner } => operators_of(inner.get()),
        Expr::Name { brackets, .. } => brackets_operators(brackets.as_slice()),
        Expr::Call { arguments, .. } => list_operators(arguments.as_slice()),
        Expr::Cast { to, operand } => sum(scalar_operators(to)?, operators_of(operand.get())?),
        Expr::SizeOf {
            dimension: Some(dimension),
            ..
        } => operators_of(dimension.get()),
        Expr::Unary { operand, .. } => sum(operators_of(operand.get())?, 1),
        Expr::Binary { left, right, .. } => {
            let both = sum(operators_of(left.get())?, operators_of(right.get())?)?;
            sum(both, 1)
        }
        _ => Ok(0),
    }
}

/// How many operators stand in the size of a type.
#[cycle(operators)]
fn scalar_operators(scalar: &Scalar) -> Result<u32, OutOfMemory>
    ensures { IfOk result (λ count. count ≡ scalar_operators_of scalar.now) }
{
    match scalar {
        Scalar::Bit { size: Some(size) }
        | Scalar::Int { size: Some(size) }
        | Scalar::Uint { size: Some(size) }
        | Scalar::Angle { size: Some(size) } => operators_of(size.get()),
        _ => Ok(0),
    }
}

/// How many operators stand in an index.
#[cycle(operators)]
fn index_operators(index: &Index) -> Result<u32, OutOfMemory>
    ensures { IfOk result (λ count. count ≡ index_operators_of index.now) }
{
    match index {
        Index::At { place } => operators_of(place),
        Index::Range { range } => range_operators(range),
        Index::Set { places } => list_operators(places.as_slice()),
    }
}

/// How many operators stand in a bound that may be left out.
#[cycle(operators)]
fn optional_operators(part: &Option<Expr>) -> Result<u32, OutOfMemory>
    ensures { IfOk result (λ count. count ≡ optional_operators_of part.now) }
{
    match part {
        None => Ok(0),
        Some(part) => operators_of(part),
    }
}

/// How many operators stand in the bounds and the step of a range.
#[cycle(operators)]
#[tactic(auto, using(crate::proofs::OperatorViews::range_is))]
fn range_operators(range: &Range) -> Result<u32, OutOfMemory>
    ensures { IfOk result (λ count. count ≡ range_operators_of range.now) }
{
    let front = sum(
        optional_operators(&range.start)?,
        optional_operators(&range.step)?,
    )?;
    sum(front, optional_operators(&range.end)?)
}

/// How many operators stand in indexes.
#[cycle(operators)]
fn indexes_operators(indexes: &[Index]) -> Result<u32, OutOfMemory>
    ensures { IfOk result (λ count. count ≡ spec.sum_of (map index_operators_of indexes.now)) }
{
    let mut count = 0;
    for index in indexes {
        count = sum(count, index_operators(index)?)?;
    }
    Ok(count)
}

/// How many operators stand in all brackets behind a name.
#[cycle(operators)]
fn brackets_operators(brackets: &[Items<Index>]) -> Result<u32, OutOfMemory>
    ensures { IfOk result (λ count. count ≡ spec.sum_of_all (map (map index_operators_of) brackets.now)) }
{
    let mut count = 0;
    for indexes in brackets {
        count = sum(count, indexes_operators(indexes.as_slice())?)?;
    }
    Ok(count)
}

/// How many operators stand in each of several expressions, in all.
#[cycle(operators)]
fn list_operators(exprs: &[Expr]) -> Result<u32, OutOfMemory>
    ensures { IfOk result (λ count. count ≡ spec.sum_of (map operators_of exprs.now)) }
{
    let mut count = 0;
    for expr in exprs {
        count = sum(count, operators_of(expr)?)?;
    }
    Ok(count)
}

/// How many operators stand in expressions, those in their indexes, sizes and bounds too.
#[tactic(auto, using(crate::proofs::OperatorViews::sum_is))]
pub fn operators_in(exprs: &[Expr]) -> Result<u32, OutOfMemory>
    ensures { IfOk result (λ count. count ≡ spec.operators_in exprs.now) }
{
    list_operators(exprs)
}
