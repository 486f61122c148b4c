//! How many instructions expressions have.

ghost use Rattle.std.specs.Prelude.{◌≡◌, ◌+◌, ◌*◌, IfOk};
ghost use Rattle.qt_flat_code.specs.Lengths.{expression_length, indexes_length, jumps_of};

use crate::numbers::sum;
use qt_typed::expression::{Logical, TypedExpr};
use std::alloc::AllocError;

/// The jumps between both sides of `&&` and of `||`.
pub fn jumps_of(operator: Logical) -> u32
    ensures { result ≡ jumps_of operator }
{
    match operator {
        Logical::And => 2,
        Logical::Or => 1,
    }
}

/// The instructions of two expressions, and so many more.
#[cycle(length)]
fn both_length(left: &TypedExpr, right: &TypedExpr, more: u32) -> Result<u32, AllocError>
    ensures { IfOk result (λ n. n ≡ expression_length left.now + (expression_length right.now + more)) }
{
    let first = length(left)?;
    let second = length(right)?;
    sum(first, sum(second, more)?)
}

/// The instructions of an expression, and so many more.
#[cycle(length)]
fn longer(of: &TypedExpr, more: u32) -> Result<u32, AllocError>
    ensures { IfOk result (λ n. n ≡ expression_length of.now + more) }
{
    sum(length(of)?, more)
}

/// The instructions that reckon the place of an element.
#[cycle(length)]
fn indexes_length(mut lengths: &[u32], mut indexes: &[TypedExpr]) -> Result<u32, AllocError>
    ensures { IfOk result (λ n. n ≡ indexes_length lengths.entry.now indexes.entry.now) }
{
    let mut all = 0;
    'indexes: while let [index, rest @ ..] = indexes {
        match lengths {
            [] => return Ok(all),
            [_, more @ ..] => {
                all = sum(all, longer(index, 7)?)?;
                lengths = more;
                indexes = rest;
            }
        }
    }
    Ok(all)
}

/// The number of instructions of an expression.
#[cycle(length)]
#[tactic(auto, using(crate::proofs::LengthViews::forms))]
pub fn length(e: &TypedExpr) -> Result<u32, AllocError>
    ensures { IfOk result (λ n. n ≡ expression_length e.now) }
{
    match e {
        TypedExpr::Constant { .. } | TypedExpr::Slot { .. } => Ok(1),
        TypedExpr::Element {
            lengths,
            indexes,
            ..
        } => { sum(2, indexes_length(lengths.items(), indexes.as_slice())?) }
        TypedExpr::Bit { of, index } => both_length(of.get(), index.get(), 1),
        TypedExpr::Slice { of, count, .. } => longer(of.get(), 2 + 4 * u32::from(*count)),
        TypedExpr::Convert { operand, .. } => longer(operand.get(), 1),
        TypedExpr::Unary { operand, .. } => longer(operand.get(), 1),
        TypedExpr::Binary { left, right, .. } => both_length(left.get(), right.get(), 1),
        TypedExpr::ExactQuotient { left, right } => both_length(left.get(), right.get(), 3),
        TypedExpr::Logical {
            operator,
            left,
            right,
        } => { both_length(left.get(), right.get(), jumps_of(*operator)) }
    }
}
