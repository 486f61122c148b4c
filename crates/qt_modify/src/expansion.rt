//! What a call is expanded to, and the refusal.

use qt_instructions::angle::AngleStep;
use qt_instructions::primitive::Primitive;
use qt_outside::faults;
use qt_tree::place::Place;
use sqlite_items::Items;
use std::alloc::AllocError;

/// The steps of phase arithmetic that a call needs, in the order in which they are reckoned, and the primitives that it comes to. Each step
/// writes a work cell of its own, the first of them the one that the call was expanded for.
#[derive(Drop)]
pub struct Expansion {
    pub steps: Items<AngleStep>,
    pub primitives: Items<Primitive>,
}

/// Why a call isn't expanded.
#[derive(Clone, Copy)]
pub enum ExpandRefusal {
    /// A fixed angle of a primitive is no multiple of π/4. It has the place of the call and the units of the angle.
    Angle { place: Place, units: i64 },
    OutOfMemory,
}

impl From<AllocError> for ExpandRefusal {
    ghost use Rattle.std.specs.Prelude.{◌≡◌};
    ghost use Rattle.qt_modify.specs.declared.expansion.ExpandRefusal.TheVariants.{OutOfMemory};

    ghost from_gives = { λ _ e. e ≡ OutOfMemory };

    fn from(_: AllocError) -> ExpandRefusal {
        ExpandRefusal::OutOfMemory
    }
}

impl From<faults::OutOfMemory> for ExpandRefusal {
    ghost use Rattle.std.specs.Prelude.{◌≡◌};
    ghost use Rattle.qt_modify.specs.declared.expansion.ExpandRefusal.TheVariants.{OutOfMemory};

    ghost from_gives = { λ _ e. e ≡ OutOfMemory };

    fn from(_: faults::OutOfMemory) -> ExpandRefusal {
        ExpandRefusal::OutOfMemory
    }
}
