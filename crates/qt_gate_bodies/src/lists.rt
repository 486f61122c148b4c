//! Short lists.

ghost use Rattle.std.specs.Prelude.{◌≡◌, [], ◌∷◌, IfOk};

use sqlite_items::Items;
use std::alloc::{AllocError, Global};

/// The list of one item.
pub fn one<T: Drop>(alloc: Global, item: T) -> Result<Items<T>, AllocError>
    ensures { IfOk result (λ made. made ≡ item ∷ []) }
{
    let mut list = Items::new(alloc);
    list.push(item)?;
    Ok(list)
}

/// The list of two items.
pub fn two<T: Drop>(alloc: Global, first: T, second: T) -> Result<Items<T>, AllocError>
    ensures { IfOk result (λ made. made ≡ first ∷ second ∷ []) }
{
    let mut list = one(alloc, first)?;
    list.push(second)?;
    Ok(list)
}

/// The list of three items.
pub fn three<T: Drop>(alloc: Global, first: T, second: T, third: T) -> Result<Items<T>, AllocError>
    ensures { IfOk result (λ made. made ≡ first ∷ second ∷ third ∷ []) }
{
    let mut list = two(alloc, first, second)?;
    list.push(third)?;
    Ok(list)
}
