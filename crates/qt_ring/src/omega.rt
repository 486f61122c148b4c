ghost use Rattle.std.specs.Prelude.{◌≡◌, ◌≢◌, ◌^◌, ◌≤◌, ℤ, ◌+ℤ◌, ◌-ℤ◌, ◌*ℤ◌, ◌*◌, ◌↔◌, MatchOption, IsTrue, IsSome, IfSome};
ghost use Rattle.std.specs.Int.RustNames.{unsigned_abs};
ghost use Rattle.qt_ring.specs.Division.{Divides, SameParity, parity};
ghost use Rattle.qt_ring.specs.Ring.{Within, plus, minus, times, conj, root, is_nil, norm_a, norm_b, the_omega, root_two, one_minus_omega, epsilon, epsilon_inverse};
ghost use Rattle.qt_ring.specs.Wide.{number_of};

use crate::wide::Wide;

/// The number `c0 + c1 ω + c2 ω² + c3 ω³`, where `ω = e^{iπ/4}`, so that `ω⁴ = −1`.
#[derive(Clone, Copy, Debug, PartialEq, Eq)]
pub struct Omega {
    pub c0: i64,
    pub c1: i64,
    pub c2: i64,
    pub c3: i64,
}

impl Omega {
    /// Whether the number is 0.
    pub fn is_zero(self) -> bool
        ensures { result ≡ is_nil self }
    {
        self.c0 == 0 && self.c1 == 0 && self.c2 == 0 && self.c3 == 0
    }

    /// The sum.
    pub fn add(self, other: Omega) -> Omega
        requires self_size { Within (2 ^ 54) self }
        requires other_size { Within (2 ^ 54) other }
        ensures { result ≡ plus self other }
    {
        Omega {
            c0: self.c0 + other.c0,
            c1: self.c1 + other.c1,
            c2: self.c2 + other.c2,
            c3: self.c3 + other.c3,
        }
    }

    /// The difference.
    pub fn sub(self, other: Omega) -> Omega
        requires self_size { Within (2 ^ 54) self }
        requires other_size { Within (2 ^ 54) other }
        ensures { result ≡ plus self (minus other) }
    {
        Omega {
            c0: self.c0 - other.c0,
            c1: self.c1 - other.c1,
            c2: self.c2 - other.c2,
            c3: self.c3 - other.c3,
        }
    }

    /// The product with `ω^j`, that is with `ω^(j mod 8)`.
    pub fn times_omega(self, j: u8) -> Omega
        requires { Within (2 ^ 54) self }
        ensures value { result ≡ times (root j) self }
        ensures size { Within (2 ^ 54) result }
    {
        let mut product = self;
        for _step in 0..j % 8 {
            product = product.turned();
        }
        product
    }

    /// The product with `ω`.
    fn turned(self) -> Omega
        requires { Within (2 ^ 54) self }
        ensures value { result ≡ times the_omega self }
        ensures size { Within (2 ^ 54) result }
    {
        Omega {
            c0: -self.c3,
            c1: self.c0,
            c2: self.c1,
            c3: self.c2,
        }
    }

    /// The complex conjugate, which sends `ω` to `−ω³`.
    pub fn conj(self) -> Omega
        requires { Within (2 ^ 54) self }
        ensures value { result ≡ conj self }
        ensures size { Within (2 ^ 54) result }
    {
        Omega {
            c0: self.c0,
            c1: -self.c3,
            c2: -self.c2,
            c3: -self.c1,
        }
    }

    /// The product.
    pub fn mul(self, other: Omega) -> Wide
        requires self_size { Within (2 ^ 54) self }
        requires other_size { Within (2 ^ 54) other }
        ensures value { number_of result ≡ times self other }
        ensures size { Within (2 ^ 110) (number_of result) }
    {
        // the rows of the table of multiplication
        let first = other.conj();
        let second = first.turned();
        let third = second.turned();
        let fourth = third.turned();
        Wide {
            c0: self.dot(first),
            c1: self.dot(second),
            c2: self.dot(third),
            c3: self.dot(fourth),
        }
    }

    /// The products of coefficients in the same place, summed.
    fn dot(self, other: Omega) -> i128
        requires self_size { Within (2 ^ 54) self }
        requires other_size { Within (2 ^ 54) other }
        ensures value { result ≡ self.c0 *ℤ other.c0 +ℤ self.c1 *ℤ other.c1 +ℤ self.c2 *ℤ other.c2 +ℤ self.c3 *ℤ other.c3 }
        ensures size { unsigned_abs result ≤ 2 ^ 110 }
    {
        total(
            product(self.c0, other.c0),
            product(self.c1, other.c1),
            product(self.c2, other.c2),
            product(self.c3, other.c3),
        )
    }

    /// The whole numbers `(A, B)` with `|x|² = A + B√2`.
    pub fn norm_parts(self) -> (i128, i128)
        requires { Within (2 ^ 54) self }
        ensures first { result.0 ≡ norm_a self }
        ensures second { result.1 ≡ norm_b self }
    {
        (
            total(
                product(self.c0, self.c0),
                product(self.c1, self.c1),
                product(self.c2, self.c2),
                product(self.c3, self.c3),
            ),
            total(
                product(self.c0, self.c1),
                product(self.c1, self.c2),
                product(self.c2, self.c3),
                -product(self.c3, self.c0),
            ),
        )
    }

    /// Half the number: `Some` exactly where all coefficients are even.
    pub fn halve(self) -> Option<Omega>
        requires { Within (2 ^ 54) self }
        ensures { MatchOption result ((h : Omega) → self ≢ plus h h) (λ h. self ≡ plus h h) }
    {
        Some(Omega {
            c0: half(self.c0)?,
            c1: half(self.c1)?,
            c2: half(self.c2)?,
            c3: half(self.c3)?,
        })
    }

    /// The quotient by `√2`, where the ring has one: `c0` and `c2` are alike in parity, and `c1` and `c3`.
    pub fn over_root2(self) -> Option<Omega>
        requires { Within (2 ^ 54) self }
        ensures value { MatchOption result (¬ Divides root_two self) (λ y. times root_two y ≡ self) }
        ensures size { IfSome result (λ y. Within (2 ^ 54) y) }
        ensures parity { IsSome result ↔ (SameParity self.c0 self.c2 × SameParity self.c1 self.c3) }
    {
        if !alike(self.c0, self.c2) || !alike(self.c1, self.c3) {
            return None;
        }
        Some(Omega {
            c0: half_difference(self.c1, self.c3),
            c1: half_sum(self.c0, self.c2),
            c2: half_sum(self.c1, self.c3),
            c3: half_difference(self.c2, self.c0),
        })
    }

    /// The quotient by `1 − ω`, where the ring has one: the sum of the coefficients is even.
    pub fn over_one_minus_omega(self) -> Option<Omega>
        requires { Within (2 ^ 54) self }
        ensures value { MatchOption result (¬ Divides one_minus_omega self) (λ y. times one_minus_omega y ≡ self) }
        ensures size { IfSome result (λ y. Within (2 ^ 55) y) }
        ensures parity { IsSome result ↔ (parity (self.c0 +ℤ self.c1 +ℤ self.c2 +ℤ self.c3) ≡ 0) }
    {
        let sum = self.coefficient_sum();
        if is_odd(sum) {
            return None;
        }
        let c3 = half_of(sum);
        let c2 = c3 - self.c3;
        let c1 = c2 - self.c2;
        let c0 = c1 - self.c1;
        Some(Omega { c0, c1, c2, c3 })
    }

    fn coefficient_sum(self) -> i64
        requires { Within (2 ^ 54) self }
        ensures value { result ≡ self.c0 +ℤ self.c1 +ℤ self.c2 +ℤ self.c3 }
        ensures size { unsigned_abs result ≤ 2 ^ 56 }
    {
        self.c0 + self.c1 + self.c2 + self.c3
    }

    /// The product with the unit `ε = 1 + √2`.
    pub fn times_epsilon(self) -> Omega
        requires { Within (2 ^ 54) self }
        ensures value { result ≡ times epsilon self }
        ensures size { Within (3 * 2 ^ 54) result }
    {
        Omega {
            c0: self.c0 + self.c1 - self.c3,
            c1: self.c1 + self.c0 + self.c2,
            c2: self.c2 + self.c1 + self.c3,
            c3: self.c3 + self.c2 - self.c0,
        }
    }

    /// The product with `ε^(−1) = √2 − 1`.
    pub fn times_epsilon_inverse(self) -> Omega
        requires { Within (2 ^ 54) self }
        ensures value { result ≡ times epsilon_inverse self }
        ensures size { Within (3 * 2 ^ 54) result }
    {
        Omega {
            c0: self.c1 - self.c3 - self.c0,
            c1: self.c0 + self.c2 - self.c1,
            c2: self.c1 + self.c3 - self.c2,
            c3: self.c2 - self.c0 - self.c3,
        }
    }
}

fn is_odd(a: i64) -> bool
    requires { unsigned_abs a ≤ 2 ^ 56 }
    ensures { IsTrue result ↔ (parity a ≡ 1) }
{
    a % 2 != 0
}

/// Whether both are even or both are odd.
fn alike(a: i64, b: i64) -> bool
    requires a_size { unsigned_abs a ≤ 2 ^ 54 }
    requires b_size { unsigned_abs b ≤ 2 ^ 54 }
    ensures { IsTrue result ↔ SameParity a b }
{
    !is_odd(a + b)
}

fn half_sum(a: i64, b: i64) -> i64
    requires a_size { unsigned_abs a ≤ 2 ^ 54 }
    requires b_size { unsigned_abs b ≤ 2 ^ 54 }
    requires alike { SameParity a b }
    ensures value { a +ℤ b ≡ result +ℤ result }
    ensures size { unsigned_abs result ≤ 2 ^ 54 }
{
    half_of(a + b)
}

fn half_difference(a: i64, b: i64) -> i64
    requires a_size { unsigned_abs a ≤ 2 ^ 54 }
    requires b_size { unsigned_abs b ≤ 2 ^ 54 }
    requires alike { SameParity a b }
    ensures value { a -ℤ b ≡ result +ℤ result }
    ensures size { unsigned_abs result ≤ 2 ^ 54 }
{
    half_of(a - b)
}

fn half_of(a: i64) -> i64
    requires size { unsigned_abs a ≤ 2 ^ 56 }
    requires even { parity a ≡ 0 }
    ensures { a ≡ result +ℤ result }
{
    a / 2
}

fn half(a: i64) -> Option<i64>
    requires { unsigned_abs a ≤ 2 ^ 54 }
    ensures { MatchOption result ((h : ℤ) → a ≢ h +ℤ h) (λ h. a ≡ h +ℤ h) }
{
    if a % 2 == 0 { Some(a / 2) } else { None }
}

fn product(a: i64, b: i64) -> i128
    requires a_size { unsigned_abs a ≤ 2 ^ 54 }
    requires b_size { unsigned_abs b ≤ 2 ^ 54 }
    ensures value { result ≡ a *ℤ b }
    ensures size { unsigned_abs result ≤ 2 ^ 108 }
{
    a as i128 * b as i128
}

fn total(a: i128, b: i128, c: i128, d: i128) -> i128
    requires a_size { unsigned_abs a ≤ 2 ^ 108 }
    requires b_size { unsigned_abs b ≤ 2 ^ 108 }
    requires c_size { unsigned_abs c ≤ 2 ^ 108 }
    requires d_size { unsigned_abs d ≤ 2 ^ 108 }
    ensures { result ≡ a +ℤ b +ℤ c +ℤ d }
{
    a + b + c + d
}
