//! What is to be taken out of a list, and the result of one entry.
ghost use Rattle.std.specs.Prelude.{◌≡◌, ℕ, ◌^◌, ◌<◌, ◌≤◌, ◌↔◌, IsTrue, false, List, All};
ghost use Rattle.std.specs.Int.RustNames.{unsigned_abs};
ghost use Rattle.qt_ring.specs.Division.{Divides};
ghost use Rattle.qt_ring.specs.Multiples.{DividesAll};
ghost use Rattle.qt_ring.specs.Ring.{Within, times};
ghost use Rattle.qt_ring.specs.State.{all_nil};
ghost use Rattle.qt_ring.specs.Wide.{number_of};
ghost use Rattle.qt_canon_laws.specs.Canonical.{factor_of, scale_of, IsCanonical};
ghost use Rattle.qt_canon.specs.Divisors.{divisor_of};

use crate::divisor::Divisor;
use crate::search::{first_nonzero, greatest_divisor};
use qt_ring::LARGEST;
use qt_ring::omega::Omega;
use qt_ring::wide::Wide;
use qt_root2::scale::Scale;
use qt_unit::epsilon::EpsilonPower;
use qt_unit::turn::{greatest_turn, turned_by};
use qt_unit::window::power_into_window;

/// Each entry is divided by the divisor, and the quotient is multiplied by the unit, a power of ε, and by `ω^turn`.
#[derive(Clone, Copy)]
pub struct Plan {
    pub divisor: Divisor,
    pub unit: EpsilonPower,
    pub turn: u8,
    ghost few: { turn < 8 },
}

impl Plan {
    ghost use Rattle.qt_canon.specs.Plans.{taken_of};

    /// The plan that leaves the canonical form.
    pub fn new(entries: &[Omega]) -> Plan
        requires within { All (Within (2 ^ 54)) entries.now }
        requires some { all_nil entries.now ≡ false }
        ensures canonical { (u : List Omega) × IsCanonical entries.now u (taken_of result) }
        ensures whole { DividesAll (divisor_of result.divisor) entries.now }
    {
        let divisor = greatest_divisor(entries);
        let first = divisor.quotient(first_nonzero(entries));
        let unit = power_into_window(first);
        let turn = greatest_turn(unit.times(first));
        Plan {
            divisor,
            unit,
            turn,
        }
    }

    /// An entry over all that is taken out.
    pub fn quotient(self, x: Omega) -> Wide
        requires size { Within (2 ^ 54) x }
        requires whole { Divides (divisor_of self.divisor) x }
        ensures { times (factor_of (taken_of self)) (number_of result) ≡ x }
    {
        let rest = self.divisor.quotient(x);
        turned_by(self.unit.times(rest), self.turn)
    }

    /// `|p|²` of the product p of all that is taken out.
    pub fn scale(self) -> Scale
        ensures value { result ≡ scale_of (taken_of self) }
        ensures twos { unsigned_abs result.twos ≤ 109 }
        ensures units { unsigned_abs result.units ≤ 49 }
        ensures primes { result.primes ≤ 1 }
    {
        Scale {
            twos: self.divisor.norm_twos(),
            units: -self.unit.exponent,
            primes: self.divisor.norm_primes(),
        }
    }
}

/// Whether no coefficient is above `LARGEST` in size.
pub fn is_small(x: Wide) -> bool
    ensures { IsTrue result ↔ Within (unsigned_abs LARGEST) (number_of x) }
{
    is_at_most_largest(x.c0)
        && is_at_most_largest(x.c1)
        && is_at_most_largest(x.c2)
        && is_at_most_largest(x.c3)
}

fn is_at_most_largest(a: i128) -> bool
    ensures { IsTrue result ↔ (unsigned_abs a ≤ unsigned_abs LARGEST) }
{
    a <= LARGEST as i128 && a >= -(LARGEST as i128)
}

/// The number with coefficients of 64 bits.
pub fn narrowed(x: Wide) -> Omega
    requires { Within (unsigned_abs LARGEST) (number_of x) }
    ensures { result ≡ number_of x }
{
    Omega {
        c0: x.c0 as i64,
        c1: x.c1 as i64,
        c2: x.c2 as i64,
        c3: x.c3 as i64,
    }
}
