//! Exact quotients of an amplitude by 2^t, √2 and 1 − ω.
ghost use Rattle.std.specs.Prelude.{◌≡◌, ◌+◌, ◌^◌, ◌≤◌, ◌↔◌, IsTrue, pos};
ghost use Rattle.std.specs.Int.RustNames.{unsigned_abs};
ghost use Rattle.qt_ring.specs.Division.{Divides};
ghost use Rattle.qt_ring.specs.Places.{digit};
ghost use Rattle.qt_ring.specs.Ring.{Within, times, two_to, root_two, one_minus_omega};
ghost use Rattle.qt_canon.specs.EvenDivisors.{even_divisor};

use qt_ring::omega::Omega;

/// `2^twos`, times √2 if `has_root_two`, times 1 − ω if `has_one_minus_omega`.
#[derive(Clone, Copy)]
pub struct Divisor {
    pub twos: u32,
    pub has_root_two: bool,
    pub has_one_minus_omega: bool,
    ghost few: { twos ≤ 54 },
}

impl Divisor {
    ghost use Rattle.qt_canon.specs.Divisors.{divisor_of};

    /// The quotient.
    pub fn quotient(self, x: Omega) -> Omega
        requires size { Within (2 ^ 54) x }
        requires whole { Divides (divisor_of self) x }
        ensures value { times (divisor_of self) result ≡ x }
        ensures size { Within (2 ^ 55) result }
    {
        let rest = even_quotient(x, self.twos, self.has_root_two);
        if self.has_one_minus_omega {
            over_one_minus_omega(rest)
        } else {
            rest
        }
    }

    /// The exponent of 2 in the divisor's squared size, which is `2^norm_twos · (2 − √2)^norm_primes`.
    pub fn norm_twos(self) -> i32
        ensures value { result ≡ pos (self.twos + self.twos + digit self.has_root_two) }
        ensures size { unsigned_abs result ≤ 109 }
    {
        let twice = self.twos as i32 * 2;
        if self.has_root_two { twice + 1 } else { twice }
    }

    /// The exponent of `2 − √2`, the squared size of 1 − ω, in the divisor's.
    pub fn norm_primes(self) -> u8
        ensures { result ≡ digit self.has_one_minus_omega }
    {
        if self.has_one_minus_omega { 1 } else { 0 }
    }
}

/// The quotient by `2^twos`, and by √2 if `has_root_two`.
pub fn even_quotient(x: Omega, twos: u32, has_root_two: bool) -> Omega
    requires few { twos ≤ 54 }
    requires size { Within (2 ^ 54) x }
    requires whole { Divides (even_divisor twos has_root_two) x }
    ensures value { times (even_divisor twos has_root_two) result ≡ x }
    ensures size { Within (2 ^ 54) result }
{
    let rest = over_twos(x, twos);
    if has_root_two {
        over_root_two(rest)
    } else {
        rest
    }
}

/// The quotient by `2^twos`.
pub fn over_twos(x: Omega, twos: u32) -> Omega
    requires few { twos ≤ 54 }
    requires size { Within (2 ^ 54) x }
    requires whole { Divides (two_to twos) x }
    ensures value { times (two_to twos) result ≡ x }
    ensures size { Within (2 ^ 54) result }
{
    Omega {
        c0: x.c0 >> twos,
        c1: x.c1 >> twos,
        c2: x.c2 >> twos,
        c3: x.c3 >> twos,
    }
}

fn over_root_two(x: Omega) -> Omega
    requires size { Within (2 ^ 54) x }
    requires whole { Divides root_two x }
    ensures value { times root_two result ≡ x }
    ensures size { Within (2 ^ 54) result }
{
    match x.over_root2() {
        Some(quotient) => quotient,
        None => x,
    }
}

fn over_one_minus_omega(x: Omega) -> Omega
    requires size { Within (2 ^ 54) x }
    requires whole { Divides one_minus_omega x }
    ensures value { times one_minus_omega result ≡ x }
    ensures size { Within (2 ^ 55) result }
{
    match x.over_one_minus_omega() {
        Some(quotient) => quotient,
        None => x,
    }
}

/// Whether √2 divides the number.
pub fn root_two_divides(x: Omega) -> bool
    requires { Within (2 ^ 54) x }
    ensures { IsTrue result ↔ Divides root_two x }
{
    x.over_root2().is_some()
}

/// Whether 1 − ω divides the number.
pub fn one_minus_omega_divides(x: Omega) -> bool
    requires { Within (2 ^ 54) x }
    ensures { IsTrue result ↔ Divides one_minus_omega x }
{
    x.over_one_minus_omega().is_some()
}
