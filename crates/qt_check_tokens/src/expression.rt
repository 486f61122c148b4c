//! Expressions, types and indexes.

ghost use Rattle.std.specs.Prelude.{◌≡◌, ◌+◌, map, OnOk};
ghost use Rattle.qt_typing.specs.Tokens as spec;

use qt_outside::faults::OutOfMemory;
use qt_tree::expression::{Expr, Index, Range, Scalar};
use sqlite_items::{Boxed, Items};

/// Counts so many tokens more.
pub(crate) fn add(total: &mut u32, more: u32) -> Result<(), OutOfMemory>
    ensures { OnOk result (total.new ≡ total.old + more) }
{
    *total = total.checked_add(more).ok_or(OutOfMemory)?;
    Ok(())
}

/// Counts the tokens of an expression.
#[cycle(expression)]
#[tactic(auto, using(crate::proofs::ExpressionViews::expressions))]
pub fn count_expr(total: &mut u32, expr: &Expr) -> Result<(), OutOfMemory>
    ensures { OnOk result (total.new ≡ total.old + spec.expr_tokens expr.now) }
{
    match expr {
        Expr::Whole { .. } | Expr::BitText { .. } | Expr::Pi | Expr::Tau | Expr::Bool { .. } => {
            add(total, 1)
        }
        Expr::Parenthesized { inner } => {
            add(total, 2)?;
            count_expr(total, inner.get())
        }
        Expr::Name { brackets, .. } => {
            add(total, 1)?;
            count_brackets(total, brackets.as_slice())
        }
        Expr::Call { arguments, .. } => {
            add(total, 3)?;
            count_exprs(total, arguments.as_slice())
        }
        Expr::Cast { to, operand } => {
            count_scalar(total, to)?;
            add(total, 2)?;
            count_expr(total, operand.get())
        }
        Expr::SizeOf { dimension, .. } => {
            add(total, 4)?;
            count_sized(total, 1, dimension)
        }
        Expr::Unary { operand, .. } => {
            add(total, 1)?;
            count_expr(total, operand.get())
        }
        Expr::Binary { left, right, .. } => {
            count_expr(total, left.get())?;
            add(total, 1)?;
            count_expr(total, right.get())
        }
    }
}

/// Counts expressions with commas between.
#[cycle(expression)]
pub fn count_exprs(total: &mut u32, exprs: &[Expr]) -> Result<(), OutOfMemory>
    ensures { OnOk result (total.new ≡ total.old + spec.exprs_tokens exprs.now) }
{
    match exprs {
        [] => Ok(()),
        [first, rest @ ..] => {
            count_expr(total, first)?;
            count_more(total, rest)
        }
    }
}

/// Counts expressions with a comma before each.
#[cycle(expression)]
pub fn count_more(total: &mut u32, exprs: &[Expr]) -> Result<(), OutOfMemory>
    ensures { OnOk result (total.new ≡ total.old + spec.more (map spec.expr_tokens exprs.now)) }
{
    let mut left = exprs;
    'exprs: while let [first, rest @ ..] = left {
        add(total, 1)?;
        count_expr(total, first)?;
        left = rest;
    }
    Ok(())
}

/// Counts the indexes in each pair of brackets.
#[cycle(expression)]
pub fn count_brackets(total: &mut u32, brackets: &[Items<Index>]) -> Result<(), OutOfMemory>
    ensures { OnOk result (total.new ≡ total.old + spec.brackets_tokens (map (map spec.index_tokens) brackets.now)) }
{
    let mut left = brackets;
    'brackets: while let [first, rest @ ..] = left {
        add(total, 2)?;
        count_indexes(total, first.as_slice())?;
        left = rest;
    }
    Ok(())
}

/// Counts indexes with commas between.
#[cycle(expression)]
fn count_indexes(total: &mut u32, indexes: &[Index]) -> Result<(), OutOfMemory>
    ensures { OnOk result (total.new ≡ total.old + spec.separated (map spec.index_tokens indexes.now)) }
{
    match indexes {
        [] => Ok(()),
        [first, rest @ ..] => {
            count_index(total, first)?;
            count_more_indexes(total, rest)
        }
    }
}

/// Counts indexes with a comma before each.
#[cycle(expression)]
fn count_more_indexes(total: &mut u32, indexes: &[Index]) -> Result<(), OutOfMemory>
    ensures { OnOk result (total.new ≡ total.old + spec.more (map spec.index_tokens indexes.now)) }
{
    let mut left = indexes;
    'indexes: while let [first, rest @ ..] = left {
        add(total, 1)?;
        count_index(total, first)?;
        left = rest;
    }
    Ok(())
}

/// Counts an index.
#[cycle(expression)]
#[tactic(auto, using(crate::proofs::ExpressionViews::indexes))]
pub fn count_index(total: &mut u32, index: &Index) -> Result<(), OutOfMemory>
    ensures { OnOk result (total.new ≡ total.old + spec.index_tokens index.now) }
{
    match index {
        Index::At { place } => count_expr(total, place),
        Index::Range { range } => count_range(total, range),
        Index::Set { places } => {
            add(total, 2)?;
            count_exprs(total, places.as_slice())
        }
    }
}

/// Counts a range.
#[cycle(expression)]
#[tactic(auto, using(crate::proofs::ExpressionViews::range_is))]
pub fn count_range(total: &mut u32, range: &Range) -> Result<(), OutOfMemory>
    ensures { OnOk result (total.new ≡ total.old + spec.range_tokens range.now) }
{
    count_part(total, 0, &range.start)?;
    add(total, 1)?;
    count_part(total, 1, &range.step)?;
    count_part(total, 0, &range.end)
}

/// Counts a type with the size that is written.
#[cycle(expression)]
#[tactic(auto, using(crate::proofs::ExpressionViews::scalars))]
pub fn count_scalar(total: &mut u32, scalar: &Scalar) -> Result<(), OutOfMemory>
    ensures { OnOk result (total.new ≡ total.old + spec.scalar_tokens scalar.now) }
{
    add(total, 1)?;
    match scalar {
        Scalar::Bool => Ok(()),
        Scalar::Bit { size }
        | Scalar::Int { size }
        | Scalar::Uint { size }
        | Scalar::Angle { size } => count_sized(total, 2, size),
    }
}

/// Counts a size, where there is one, with so many tokens around it.
#[cycle(expression)]
fn count_sized(total: &mut u32, around: u32, size: &Option<Boxed<Expr>>) -> Result<(), OutOfMemory>
    ensures { OnOk result (total.new ≡ total.old + spec.optional_expr around size.now) }
{
    if let Some(size) = size {
        add(total, around)?;
        count_expr(total, size.get())?;
    }
    Ok(())
}

/// Counts an expression, where there is one, with so many tokens around it.
#[cycle(expression)]
pub fn count_part(total: &mut u32, around: u32, part: &Option<Expr>) -> Result<(), OutOfMemory>
    ensures { OnOk result (total.new ≡ total.old + spec.optional_expr around part.now) }
{
    if let Some(part) = part {
        add(total, around)?;
        count_expr(total, part)?;
    }
    Ok(())
}
