ghost use Rattle.std.specs.Prelude.{◌≡◌, nat_eq};
ghost use Rattle.std.proofs.Common.{rules};
ghost use Rattle.std.specs.Cmp.Rules.{comparing, hashing};
ghost use Rattle.std.specs.Hash as fed;
ghost use lib.Pointwise.{pointwise};

use std::hash::{Hash, Hasher};
use std::marker::Model;

/// The values of the classical slots, one word each.
#[derive(Debug, Drop)]
pub struct Slots {
    values: Vec<u64>,
}

impl Model for Slots {
    ghost use Rattle.std.specs.Prelude.{List, ℕ};

    ghost Value = { List ℕ };

    ghost view = { λ s. s.values.items };
}

impl PartialEq for Slots {
    ghost eq = { pointwise nat_eq };

    ghost laws = { Prim.search (comparing, rules) };

    fn eq(&self, other: &Slots) -> bool {
        self.values == other.values
    }
}

impl Eq for Slots {
    ghost laws = { Prim.search (comparing, rules) };
}

impl Hash for Slots {
    ghost hash_input = { fed.slice fed.u64 };

    ghost respects_eq = { Prim.search (hashing, rules) };

    fn hash<H: Hasher>(&self, state: &mut H) {
        self.values.hash(state);
    }
}

impl Slots {
    /// Takes the list over.
    pub fn from_vec(values: Vec<u64>) -> Slots
        ensures { result ≡ values.items }
    {
        Slots { values }
    }

    pub fn as_slice(&self) -> &[u64]
        ensures { result.now ≡ self.now }
    {
        self.values.as_slice()
    }
}
