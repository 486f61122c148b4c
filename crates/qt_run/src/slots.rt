ghost use Rattle.std.specs.Prelude.{◌≡◌, ◌<◌, [], ◌∷◌, IfOk};
ghost use Rattle.qt_run.specs.Tree.{stored, with_bit};

use qt_output::Output;
use std::alloc::{AllocError, Global};
use std::marker::Model;

/// The values of the classical slots: the register `c` is slot 0.
#[derive(Debug, Drop)]
pub struct Slots {
    values: Vec<u64>,
}

impl Model for Slots {
    ghost use Rattle.std.specs.Prelude.{List, ℕ};

    ghost Value = { List ℕ };

    ghost view = { λ s. s.values.items };
}

impl Slots {
    /// One slot, which holds 0.
    pub fn zero(alloc: Global) -> Result<Slots, AllocError>
        ensures { IfOk result (λ s. s ≡ 0 ∷ []) }
    {
        let mut values = Vec::new(alloc);
        values.push(0)?;
        Ok(Slots { values })
    }

    pub fn copied(&self, alloc: Global) -> Result<Slots, AllocError>
        ensures { IfOk result (λ s. s ≡ self.now) }
    {
        let values = self.values.as_slice().to_vec(alloc)?;
        Ok(Slots { values })
    }

    /// The output value of a leaf with these slots.
    pub fn output(&self, alloc: Global) -> Result<Output, AllocError>
        ensures { IfOk result (λ output. output ≡ self.now) }
    {
        Ok(Output::from_vec(self.values.as_slice().to_vec(alloc)?))
    }

    /// The slots with an outcome stored at a bit of the first.
    pub fn stored(&self, alloc: Global, bit: u32, outcome: bool) -> Result<Slots, AllocError>
        requires { bit < 64 }
        ensures { IfOk result (λ s. s ≡ stored bit outcome self.now) }
    {
        let mut slots = self.copied(alloc)?;
        if let Some(register) = slots.values.first_mut() {
            *register = with_bit(*register, bit, outcome);
        }
        Ok(slots)
    }
}

// the value with one of its bits replaced
fn with_bit(value: u64, place: u32, bit: bool) -> u64
    requires { place < 64 }
    ensures { result ≡ with_bit place bit value }
{
    let mask = 1 << place;
    if bit { value | mask } else { value & !mask }
}
