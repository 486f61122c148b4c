//! Lists that grow by what was read.
//!
//! The functions are generic in what was read, like those of `qt_lookahead::pieces`, and take it as it was answered: a function that
//! takes a statement or an item out of its answer needs to prove what there is to drop, variant by variant, where memory is refused.

ghost use Rattle.qt_expr.specs.Growth.{Begins, Appends};

use qt_grammar::refusal::Refusal;
use sqlite_items::Items;
use std::alloc::Global;

/// The list of what was read first, or why that wasn't read.
pub fn begun<T: Drop>(
    alloc: Global,
    first: Result<(T, usize), Refusal>,
) -> Result<(Items<T>, usize), Refusal>
    ensures { Begins first result }
{
    let (first, at) = first?;
    let mut all = Items::new(alloc);
    all.push(first)?;
    Ok((all, at))
}

/// Puts what was read at the end of a list, and answers the place behind it, or why it wasn't read.
pub fn appended<T: Drop>(
    all: &mut Items<T>,
    next: Result<(T, usize), Refusal>,
) -> Result<usize, Refusal>
    ensures { Appends all.old next all.new result }
{
    let (next, at) = next?;
    all.push(next)?;
    Ok(at)
}
