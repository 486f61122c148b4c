//! Powers of the unit `ε = 1 + √2`, and their products with numbers of the ring.
ghost use Rattle.std.specs.Prelude.{◌≡◌, ◌≤◌, ◌^◌, pos, ◌-ℤ◌};
ghost use Rattle.std.specs.Int.RustNames.{unsigned_abs};
ghost use Rattle.qt_ring.specs.Ring.{Within, times, epsilon, epsilon_inverse};
ghost use Rattle.qt_ring.specs.Wide.{number_of};
ghost use Rattle.qt_canon_laws.specs.Powers.{power, epsilon_power};
ghost use Rattle.qt_unit.specs.Real.{real};

use crate::arithmetic::{combined, difference, sum};
use qt_ring::omega::Omega;
use qt_ring::wide::Wide;

/// `ε^exponent`, which is `a + b√2`.
#[derive(Clone, Copy)]
pub struct EpsilonPower {
    pub exponent: i32,
    pub a: i64,
    pub b: i64,
    ghost few: { unsigned_abs exponent ≤ 49 },
    ghost a_size: { unsigned_abs a ≤ 2 ^ 62 },
    ghost b_size: { unsigned_abs b ≤ 2 ^ 62 },
    ghost value: { real a b ≡ epsilon_power exponent },
}

impl EpsilonPower {
    /// `ε^steps`.
    pub fn up(steps: u32) -> EpsilonPower
        requires { steps ≤ 49 }
        ensures { result.exponent ≡ pos steps }
    {
        let (a, b) = parts_up(steps);
        EpsilonPower {
            exponent: steps as i32,
            a,
            b,
        }
    }

    /// `ε^(−steps)`.
    pub fn down(steps: u32) -> EpsilonPower
        requires { steps ≤ 49 }
        ensures { result.exponent ≡ pos 0 -ℤ pos steps }
    {
        let (a, b) = parts_down(steps);
        EpsilonPower {
            exponent: -(steps as i32),
            a,
            b,
        }
    }

    /// The product.
    pub fn times(self, x: Omega) -> Wide
        requires { Within (2 ^ 55) x }
        ensures value { number_of result ≡ times (epsilon_power self.exponent) x }
        ensures size { Within (2 ^ 120) (number_of result) }
    {
        Wide {
            c0: combined(self.a, x.c0, self.b, difference(x.c1, x.c3)),
            c1: combined(self.a, x.c1, self.b, sum(x.c0, x.c2)),
            c2: combined(self.a, x.c2, self.b, sum(x.c1, x.c3)),
            c3: combined(self.a, x.c3, self.b, difference(x.c2, x.c0)),
        }
    }
}

/// The parts of `ε^steps`.
fn parts_up(steps: u32) -> (i64, i64)
    requires { steps ≤ 49 }
    ensures value { real result.0 result.1 ≡ power epsilon steps }
    ensures a_size { unsigned_abs result.0 ≤ 2 ^ 62 }
    ensures b_size { unsigned_abs result.1 ≤ 2 ^ 62 }
{
    let mut a = 1i64;
    let mut b = 0i64;
    for _step in 0..steps {
        let next = a + 2 * b;
        b = a + b;
        a = next;
    }
    (a, b)
}

/// The parts of `ε^(−steps)`.
fn parts_down(steps: u32) -> (i64, i64)
    requires { steps ≤ 49 }
    ensures value { real result.0 result.1 ≡ power epsilon_inverse steps }
    ensures a_size { unsigned_abs result.0 ≤ 2 ^ 62 }
    ensures b_size { unsigned_abs result.1 ≤ 2 ^ 62 }
{
    let mut a = 1i64;
    let mut b = 0i64;
    for _step in 0..steps {
        let next = 2 * b - a;
        b = a - b;
        a = next;
    }
    (a, b)
}
