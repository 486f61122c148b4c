//! Trees of binary operators.

ghost use Rattle.std.specs.Prelude.{◌≡◌, IfOk};
ghost use Rattle.qt_tree.specs.declared.expression.Expr.TheVariants as e;
ghost use Rattle.qt_grammar.specs.Outcome.{Says};
ghost use Rattle.qt_expr.specs.HandedOn.{Joins, with_exponent};

use qt_grammar::refusal::Refusal;
use qt_lookahead::pieces::paired;
use qt_tree::expression::{Expr, InfixOperator};
use sqlite_items::Boxed;
use std::alloc::{AllocError, Global};

/// Both values in boxes.
fn both_boxed<A: Drop, B: Drop>(
    alloc: Global,
    left: A,
    right: B,
) -> Result<(Boxed<A>, Boxed<B>), AllocError>
    ensures { IfOk result (λ both. both ≡ (left, right)) }
{
    Ok((Boxed::new(alloc, left)?, Boxed::new(alloc, right)?))
}

/// A binary operator between its operands.
fn binary(
    alloc: Global,
    operator: InfixOperator,
    left: Expr,
    right: Expr,
) -> Result<Expr, AllocError>
    ensures { IfOk result (λ made. made ≡ e.Binary operator left right) }
{
    let (left, right) = both_boxed(alloc, left, right)?;
    Ok(Expr::Binary {
        operator,
        left,
        right,
    })
}

/// A binary operator between an operand and the one that was read behind it, or why that wasn't read.
pub fn joined(
    alloc: Global,
    operator: InfixOperator,
    left: Expr,
    right: Result<(Expr, usize), Refusal>,
) -> Result<(Expr, usize), Refusal>
    ensures { Joins operator left right result }
{
    let ((left, right), at) = paired(left, right)?;
    Ok((binary(alloc, operator, left, right)?, at))
}

/// That base with the exponent that was read behind it, if there was one, or why it wasn't read.
pub fn powered(
    alloc: Global,
    base: Expr,
    exponent: Result<(Option<Expr>, usize), Refusal>,
) -> Result<(Expr, usize), Refusal>
    ensures { Says (with_exponent base exponent) result }
{
    let ((base, exponent), at) = paired(base, exponent)?;
    let Some(exponent) = exponent else {
        return Ok((base, at));
    };
    Ok((binary(alloc, InfixOperator::Pow, base, exponent)?, at))
}
