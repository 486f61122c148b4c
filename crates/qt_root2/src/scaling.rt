ghost use Rattle.std.specs.Prelude.{◌≡◌, ◌^◌, ℤ, pos, negsuc, ◌+ℤ◌, ◌*ℤ◌, ◌≤ℤ◌, ◌<ℤ◌, ◌<◌, ◌≤◌, ◌↔◌, IsTrue, IfOk, OnErr, IfSome, IfNone, unsigned_abs};
ghost use Rattle.qt_root2.specs.Numerators.{root2_of};
ghost use Rattle.qt_root2.specs.Root2.{Root2, power, times_root2};
ghost use Rattle.qt_root2.specs.Scaling.{IsScaled, lifted_root2, prime, unit, unit_power};

use crate::numerator::Numerator;
use crate::scale::{NumberFault, Scale};

// The `a` of a scaled numerator is below it.
const LIMIT: i128 = 1 << 100;

impl Numerator {
    // No step of `times_unit` makes `a` smaller from here on.
    fn rises(self) -> bool
        ensures { IsTrue result ↔ (pos 0 ≤ℤ (self.a +ℤ pos 2 *ℤ self.b)) }
    {
        self.b >= -(self.a / 2)
    }

    // Times `ε² = 3 + 2√2`.
    fn times_unit(self) -> Numerator
        requires { (pos 3 *ℤ self.a +ℤ pos 4 *ℤ self.b) <ℤ pos (2 ^ 127) }
        ensures { root2_of result ≡ times_root2 (root2_of self) unit }
    {
        let first = self.a + self.b;
        let second = first + self.b;
        let b = first + second;
        let a = first + b;
        Numerator { a, b }
    }

    // Times `ε^(2·steps)`, if the `a` of that is below `limit`.
    fn raised(self, steps: u32, limit: i128) -> Result<Numerator, NumberFault>
        requires { limit ≤ℤ pos (2 ^ 101) }
        ensures ok { IfOk result (λ n. root2_of n ≡ times_root2 (root2_of self) (power unit steps)) }
        ensures below { IfOk result (λ n. n.a <ℤ limit) }
        ensures fault { OnErr result (limit ≤ℤ (times_root2 (root2_of self) (power unit steps)).a) }
    {
        let mut number = self;
        for _step in 0..steps {
            if number.a >= limit && number.rises() {
                return Err(NumberFault);
            }
            number = number.times_unit();
        }
        if number.a >= limit {
            return Err(NumberFault);
        }
        Ok(number)
    }

    // Times `ε^(2·units)`, if the `a` of that is below `limit`.
    fn times_units(self, units: i32, limit: i128) -> Result<Numerator, NumberFault>
        requires { limit ≤ℤ pos (2 ^ 101) }
        ensures ok { IfOk result (λ n. root2_of n ≡ times_root2 (root2_of self) (unit_power units)) }
        ensures below { IfOk result (λ n. n.a <ℤ limit) }
        ensures fault { OnErr result (limit ≤ℤ (times_root2 (root2_of self) (unit_power units)).a) }
    {
        let steps = units.unsigned_abs();
        if units < 0 {
            let conjugate = self.conjugate().raised(steps, limit)?;
            Ok(conjugate.conjugate())
        } else {
            self.raised(steps, limit)
        }
    }

    // Times `2 − √2`.
    fn times_prime(self) -> Numerator
        requires { self.a <ℤ pos (2 ^ 101) }
        ensures { root2_of result ≡ times_root2 (root2_of self) prime }
    {
        let difference = self.a - self.b;
        Numerator {
            a: difference + difference,
            b: self.b - difference,
        }
    }

    // Half of it times `2 − √2`, if that is whole.
    fn times_half_prime(self) -> Option<Numerator>
        requires { self.a ≤ℤ pos (2 ^ 126) }
        ensures half { IfSome result (λ h. lifted_root2 (root2_of h) 1 ≡ times_root2 (root2_of self) prime) }
        ensures odd { IfNone result ((y : Root2) → lifted_root2 y 1 ≡ times_root2 (root2_of self) prime → ⊥) }
    {
        if self.a % 2 == 0 {
            Some(Numerator {
                a: self.a - self.b,
                b: self.b - self.a / 2,
            })
        } else {
            None
        }
    }

    // It over `2^times`, if that is whole.
    fn halvings(self, times: u32) -> Result<Numerator, NumberFault>
        ensures ok { IfOk result (λ n. lifted_root2 (root2_of n) times ≡ root2_of self) }
        ensures fault { OnErr result ((y : Root2) → lifted_root2 y times ≡ root2_of self → ⊥) }
    {
        let mut number = self;
        for _time in 0..times {
            match number.halved() {
                Some(half) => number = half,
                None => return Err(NumberFault),
            }
        }
        Ok(number)
    }

    // It times `2^times`, if the `a` of that is below `2^100`.
    fn doublings(self, times: u32) -> Result<Numerator, NumberFault>
        ensures ok { IfOk result (λ n. root2_of n ≡ lifted_root2 (root2_of self) times) }
        ensures below { IfOk result (λ n. n.a <ℤ pos (2 ^ 100)) }
        ensures fault { OnErr result (pos (2 ^ 100) ≤ℤ (lifted_root2 (root2_of self) times).a) }
    {
        let mut number = self;
        for _time in 0..times {
            if number.a >= LIMIT {
                return Err(NumberFault);
            }
            number = number.doubled();
        }
        if number.a >= LIMIT {
            return Err(NumberFault);
        }
        Ok(number)
    }

    // Times `(2 − √2)^primes` over `2^twos`, if that is whole.
    fn quotient(self, twos: u32, primes: u8) -> Result<Numerator, NumberFault>
        requires bounded { self.a ≤ℤ pos (2 ^ 126) }
        requires twos { 0 < twos }
        requires primes { primes ≤ 1 }
        ensures ok { IfOk result (λ n. lifted_root2 (root2_of n) twos ≡ times_root2 (root2_of self) (power prime primes)) }
        ensures fault { OnErr result ((y : Root2) → lifted_root2 y twos ≡ times_root2 (root2_of self) (power prime primes) → ⊥) }
    {
        if primes == 0 {
            return self.halvings(twos);
        }
        match self.times_half_prime() {
            Some(half) => half.halvings(twos - 1),
            None => Err(NumberFault),
        }
    }

    // Times `ε^(2·units) · (2 − √2)^primes`, or a fault where the `a` of that is `2^100` or more.
    fn times_factor(self, units: i32, primes: u8) -> Result<Numerator, NumberFault>
        requires { primes ≤ 1 }
        ensures ok { IfOk result (λ n. root2_of n ≡ times_root2 (root2_of self) (times_root2 (unit_power units) (power prime primes))) }
        ensures fault { OnErr result (pos (2 ^ 100) ≤ℤ (times_root2 (root2_of self) (times_root2 (unit_power units) (power prime primes))).a) }
    {
        if primes == 0 {
            return self.times_units(units, LIMIT);
        }
        let number = self.times_units(units, 2 * LIMIT)?;
        Ok(number.times_prime())
    }

    // It scaled, if that is whole and its `a` is below `2^100`.
    pub fn scaled(self, by: Scale) -> Result<Numerator, NumberFault>
        requires bounded { self.a ≤ℤ pos (2 ^ 126) }
        requires primes { by.primes ≤ 1 }
        ensures ok { IfOk result (λ n. IsScaled by (root2_of self) (root2_of n)) }
        ensures below { IfOk result (λ n. n.a <ℤ pos (2 ^ 100)) }
        ensures fault { OnErr result ((y : Root2) → IsScaled by (root2_of self) y → pos (2 ^ 100) ≤ℤ y.a) }
    {
        let twos = by.twos.unsigned_abs();
        if by.twos < 0 {
            let quotient = self.quotient(twos, by.primes)?;
            quotient.times_units(by.units, LIMIT)
        } else {
            let product = self.times_factor(by.units, by.primes)?;
            product.doublings(twos)
        }
    }
}
