ghost use Rattle.std.specs.Prelude.{◌≡◌, ◌^◌, ℤ, pos, negsuc, ◌+ℤ◌, ◌*ℤ◌, ◌≤ℤ◌, ◌<ℤ◌, neg_ℤ, IfSome, IfNone};
ghost use Rattle.qt_root2.specs.Real.{least};
ghost use Rattle.qt_root2.specs.Root2.{Root2, IsGood, times_root2};

use crate::mass::Reduced;

/// The numerator `a + b√2` of a weight or a mass, of any size that fits.
#[derive(Clone, Copy)]
pub struct Numerator {
    pub a: i128,
    pub b: i128,
    ghost good: { IsGood a b },
}

impl Numerator {
    ghost use Rattle.qt_root2.specs.Numerators.{root2_of};
    ghost use Rattle.qt_root2.specs.Scaling.{lifted_root2};

    // The product, of which the first term is at most `2^125`.
    pub fn times(self, other: Numerator) -> Numerator
        requires { (self.a *ℤ other.a) ≤ℤ pos (2 ^ 125) }
        ensures { root2_of result ≡ times_root2 (root2_of self) (root2_of other) }
    {
        let cross = self.b * other.b;
        let a = self.a * other.a + 2 * cross;
        let b = self.a * other.b + self.b * other.a;
        Numerator { a, b }
    }

    // `a − b√2`.
    pub fn conjugate(self) -> Numerator
        ensures a { result.a ≡ self.a }
        ensures b { result.b ≡ neg_ℤ self.b }
    {
        Numerator {
            a: self.a,
            b: -self.b,
        }
    }

    pub fn doubled(self) -> Numerator
        requires { self.a <ℤ pos (2 ^ 126) }
        ensures { root2_of result ≡ lifted_root2 (root2_of self) 1 }
    {
        Numerator {
            a: self.a + self.a,
            b: self.b + self.b,
        }
    }

    // Half of it, if that is whole.
    pub fn halved(self) -> Option<Numerator>
        ensures half { IfSome result (λ h. lifted_root2 (root2_of h) 1 ≡ root2_of self) }
        ensures odd { IfNone result ((y : Root2) → lifted_root2 y 1 ≡ root2_of self → ⊥) }
    {
        if self.a % 2 == 0 && self.b % 2 == 0 {
            Some(Numerator {
                a: self.a / 2,
                b: self.b / 2,
            })
        } else {
            None
        }
    }

    /// `(a + b√2) / 2^k` over the least power of two.
    pub fn over(self, k: u32) -> Reduced
        ensures { record { a = result.a; b = result.b; k = result.k } ≡ least k self.a self.b }
    {
        let mut number = self;
        let mut exponent = k;
        while exponent > 0 {
            match number.halved() {
                Some(half) => {
                    number = half;
                    exponent -= 1;
                }
                None => break,
            }
        }
        Reduced {
            a: number.a,
            b: number.b,
            k: exponent,
        }
    }
}
