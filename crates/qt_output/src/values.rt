ghost use Rattle.std.specs.Prelude.{◌≡◌, nat_eq};
ghost use Rattle.std.proofs.Common.{rules};
ghost use Rattle.std.specs.Cmp.{partial_order_from_own_ties};
ghost use Rattle.std.specs.Cmp.Lexicographic.{slice_cmp};
ghost use Rattle.std.specs.Cmp.Rules.{comparing};
ghost use Rattle.std.specs.Ordering.{as_partial_cmp, nat_cmp};
ghost use lib.Pointwise.{pointwise};

use std::cmp::Ordering;
use std::marker::Model;

/// The values of the output variables at the end of one path, one for each variable of the layout.
#[derive(Debug, Drop)]
pub struct Output {
    values: Vec<u64>,
}

impl Model for Output {
    ghost use Rattle.std.specs.Prelude.{List, ℕ};

    ghost Value = { List ℕ };

    ghost view = { λ o. o.values.items };
}

impl PartialEq for Output {
    ghost eq = { pointwise nat_eq };

    ghost laws = { Prim.search (comparing, rules) };

    fn eq(&self, other: &Output) -> bool {
        self.values == other.values
    }
}

impl Eq for Output {
    ghost laws = { Prim.search (comparing, rules) };
}

impl PartialOrd for Output {
    ghost partial_cmp = { as_partial_cmp (slice_cmp nat_cmp) };

    ghost laws = { partial_order_from_own_ties (Prim.search (comparing, rules)) (Prim.search (comparing, rules)) };

    fn partial_cmp(&self, other: &Output) -> Option<Ordering> {
        Some(self.cmp(other))
    }
}

impl Ord for Output {
    ghost cmp = { slice_cmp nat_cmp };

    ghost total = { Prim.search (comparing, rules) };

    ghost matches_partial_cmp = { Prim.search (comparing, rules) };

    ghost matches_eq = { Prim.search (comparing, rules) };

    fn cmp(&self, other: &Output) -> Ordering {
        self.values.cmp(&other.values)
    }
}

impl Output {
    /// Takes the list over.
    pub fn from_vec(values: Vec<u64>) -> Self
        ensures { result ≡ values.items }
    {
        Output { values }
    }

    pub fn values(&self) -> &[u64]
        ensures { result.now ≡ self.now }
    {
        self.values.as_slice()
    }
}
