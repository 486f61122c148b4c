//! The sizes of subroutines.

ghost use Rattle.std.specs.Prelude.{IfOk};
ghost use Rattle.qt_size.specs.Known.{AreKnown};

use crate::statements::list_size;
use qt_typed::program::TypedSubroutine;
use sqlite_items::Items;
use std::alloc::{AllocError, Global};

/// The sizes of subroutines by their numbers, each over those before it, up to 4,294,967,295.
#[tactic(auto, using(crate::proofs::Sizes::none_known))]
pub fn subroutine_sizes(
    alloc: Global,
    subroutines: &[TypedSubroutine],
) -> Result<Items<u32>, AllocError>
    ensures { IfOk result (λ known. AreKnown subroutines.now known) }
{
    let mut known = Items::new(alloc);
    for subroutine in subroutines {
        let size = list_size(known.as_slice(), subroutine.body.as_slice());
        known.push(size)?;
    }
    Ok(known)
}
