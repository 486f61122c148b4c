ghost use Rattle.std.specs.Prelude.{◌≡◌, ◌^◌, pos, negsuc, ◌≤ℤ◌, ◌<ℤ◌, ◌≤◌, ◌+ℤ◌, ◌*ℤ◌, IfOk, OnErr, IsOk, ◌↔◌, unsigned_abs};
ghost use Rattle.qt_root2.specs.Root2.{Root2, IsGood, times_root2};

use crate::mass::Mass;
use crate::numerator::Numerator;
use crate::scale::{NumberFault, Scale};

/// The weight of a branch, `(a + b√2) / 2^96`. Neither it nor its conjugate is below 0.
#[derive(Clone, Copy, Debug, PartialEq, Eq)]
pub struct Weight {
    pub a: i128,
    pub b: i128,
    ghost good: { IsGood a b },
    ghost bounded: { a ≤ℤ pos (2 ^ 126) },
}

impl Weight {
    ghost use Rattle.qt_root2.specs.Numerators.{mass_numerator, weight_numerator};
    ghost use Rattle.qt_root2.specs.Scaling.{IsScaled};

    /// The weight of the root branch, 1.
    pub fn one() -> Weight
        ensures a { result.a ≡ pos (2 ^ 96) }
        ensures b { result.b ≡ pos 0 }
    {
        Weight {
            a: 1i128 << 96,
            b: 0,
        }
    }

    /// The sum. The caller keeps its `a` at `2^126` or below.
    pub fn plus(self, other: Weight) -> Weight
        requires { (self.a +ℤ other.a) ≤ℤ pos (2 ^ 126) }
        ensures a { result.a ≡ self.a +ℤ other.a }
        ensures b { result.b ≡ self.b +ℤ other.b }
    {
        Weight {
            a: self.a + other.a,
            b: self.b + other.b,
        }
    }

    /// It times `2^twos · ε^(2·units) · (2 − √2)^primes`. The fault comes where that is not whole over `2^96`, or has an `a` of
    /// `2^100` or more.
    pub fn scaled(self, by: Scale) -> Result<Weight, NumberFault>
        requires twos { unsigned_abs by.twos ≤ 1024 }
        requires units { unsigned_abs by.units ≤ 512 }
        requires primes { by.primes ≤ 1 }
        ensures ok { IfOk result (λ w. IsScaled by (weight_numerator self) (weight_numerator w)) }
        ensures below { IfOk result (λ w. w.a <ℤ pos (2 ^ 100)) }
        ensures fault { OnErr result ((y : Root2) → IsScaled by (weight_numerator self) y → pos (2 ^ 100) ≤ℤ y.a) }
    {
        let weight = Numerator {
            a: self.a,
            b: self.b,
        };
        let scaled = weight.scaled(by)?;
        Ok(Weight {
            a: scaled.a,
            b: scaled.b,
        })
    }

    /// The mass of an outcome: this weight times the squared norm `norm.0 + norm.1·√2` of its state.
    /// The fault comes where `a · norm.0` is above `2^125`, or the product has an `a` of `2^100` or more.
    pub fn mass(self, norm: (i128, i128)) -> Result<Mass, NumberFault>
        requires norm { IsGood norm.0 norm.1 }
        ensures value { IfOk result (λ m. mass_numerator m ≡ times_root2 (weight_numerator self) (record { a = norm.0; b = norm.1 })) }
        ensures ok { let product = times_root2 (weight_numerator self) (record { a = norm.0; b = norm.1 }) in
            IsOk result ↔ (((self.a *ℤ norm.0) ≤ℤ pos (2 ^ 125)) × (product.a <ℤ pos (2 ^ 100))) }
    {
        match self.a.checked_mul(norm.0) {
            Some(first) if first <= 1i128 << 125 => {}
            _ => return Err(NumberFault),
        }
        let weight = Numerator {
            a: self.a,
            b: self.b,
        };
        let product = weight.times(Numerator {
            a: norm.0,
            b: norm.1,
        });
        if product.a >= 1i128 << 100 {
            return Err(NumberFault);
        }
        Ok(Mass {
            a: product.a,
            b: product.b,
        })
    }
}
