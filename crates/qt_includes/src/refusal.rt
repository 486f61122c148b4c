//! Why there is no program.

ghost use Rattle.std.specs.Prelude.{◌≡◌, ℕ, List};
ghost use Rattle.qt_includes.specs.declared.refusal.IncludeRefusal.TheVariants as refusal;
ghost use Rattle.qt_includes.specs.Steps.{IsToldAs};

use qt_outside::faults::OutOfMemory;
use qt_tree::label::Label;
use qt_tree::refusal::TextRefusal;
use std::alloc::AllocError;

/// Why a text and those that it includes make no program.
#[derive(Debug, Drop)]
pub enum IncludeRefusal {
    /// The shelf failed to give the text of that name.
    Shelf(Label),
    /// A text is refused, or an include is. It is never so for want of memory.
    Text(TextRefusal),
    /// No memory was left.
    OutOfMemory,
}

impl From<OutOfMemory> for IncludeRefusal {
    ghost from_gives = { λ _ e. e ≡ refusal.OutOfMemory };

    fn from(_error: OutOfMemory) -> IncludeRefusal {
        IncludeRefusal::OutOfMemory
    }
}

impl From<AllocError> for IncludeRefusal {
    ghost from_gives = { λ _ e. e ≡ refusal.OutOfMemory };

    fn from(_error: AllocError) -> IncludeRefusal {
        IncludeRefusal::OutOfMemory
    }
}

/// Why a text that is refused makes no program.
pub(crate) fn told(refusal: TextRefusal) -> IncludeRefusal
    ensures { IsToldAs refusal result }
{
    match refusal {
        TextRefusal::OutOfMemory => IncludeRefusal::OutOfMemory,
        refusal => IncludeRefusal::Text(refusal),
    }
}
