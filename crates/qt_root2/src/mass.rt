ghost use Rattle.std.specs.Prelude.{◌≡◌, ◌^◌, pos, ◌+ℤ◌, ◌≤ℤ◌, ◌↔◌, IsTrue};
ghost use Rattle.qt_root2.specs.Real.{least};
ghost use Rattle.qt_root2.specs.Root2.{IsGood};

use crate::numerator::Numerator;

/// The mass of an outcome, `(a + b√2) / 2^96`. Neither it nor its conjugate is below 0.
#[derive(Clone, Copy, Debug, PartialEq, Eq)]
pub struct Mass {
    pub a: i128,
    pub b: i128,
    ghost good: { IsGood a b },
    ghost bounded: { a ≤ℤ pos (2 ^ 126) },
}

/// `(a + b√2) / 2^k` with the least `k`: `k` is 0, or one of `a` and `b` is odd.
#[derive(Clone, Copy, Debug, PartialEq, Eq)]
pub struct Reduced {
    pub a: i128,
    pub b: i128,
    pub k: u32,
}

impl Mass {
    /// The mass of no outcome, 0.
    pub fn zero() -> Mass
        ensures a { result.a ≡ pos 0 }
        ensures b { result.b ≡ pos 0 }
    {
        Mass { a: 0, b: 0 }
    }

    /// Whether it is 0.
    pub fn is_zero(self) -> bool
        ensures { IsTrue result ↔ ((self.a ≡ pos 0) × (self.b ≡ pos 0)) }
    {
        self.a == 0 && self.b == 0
    }

    /// The sum. The caller keeps its `a` at `2^126` or below.
    pub fn plus(self, other: Mass) -> Mass
        requires { (self.a +ℤ other.a) ≤ℤ pos (2 ^ 126) }
        ensures a { result.a ≡ self.a +ℤ other.a }
        ensures b { result.b ≡ self.b +ℤ other.b }
    {
        Mass {
            a: self.a + other.a,
            b: self.b + other.b,
        }
    }

    /// The same number over the least power of two.
    pub fn reduced(self) -> Reduced
        ensures { record { a = result.a; b = result.b; k = result.k } ≡ least 96 self.a self.b }
    {
        let number = Numerator {
            a: self.a,
            b: self.b,
        };
        number.over(96)
    }
}
