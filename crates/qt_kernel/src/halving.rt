//! Results over powers of two: whether they can be halved, and their exact halves.
ghost use Rattle.std.specs.Prelude.{◌≡◌, ◌≤◌, ◌*◌, ◌+ℤ◌, ◌↔◌, IsTrue};
ghost use Rattle.std.specs.Int.RustNames.{unsigned_abs};
ghost use Rattle.qt_ring.specs.declared.TheConstants.{LARGEST};
ghost use Rattle.qt_ring.specs.Ring.{plus, times, two_to};
ghost use Rattle.qt_ring.specs.Division.{Divides, IsEven, parity};
ghost use Rattle.qt_vector.specs.States.{IsSmall};
ghost use Rattle.qt_kernel.specs.Gates.{IsFourfold};

use qt_ring::LARGEST;
use qt_ring::omega::Omega;

/// A result over `2^by`.
pub fn halved(x: Omega, by: u32) -> Omega
    requires size { IsFourfold x }
    requires whole { Divides (two_to by) x }
    ensures value { times (two_to by) result ≡ x }
    ensures size { IsFourfold result }
{
    let mut rest = x;
    for _step in 0..by {
        rest = half(rest);
    }
    rest
}

fn half(x: Omega) -> Omega
    requires size { IsFourfold x }
    requires even { IsEven x }
    ensures value { plus result result ≡ x }
    ensures size { IsFourfold result }
{
    Omega {
        c0: half_of(x.c0),
        c1: half_of(x.c1),
        c2: half_of(x.c2),
        c3: half_of(x.c3),
    }
}

fn half_of(a: i64) -> i64
    requires size { unsigned_abs a ≤ 4 * unsigned_abs LARGEST }
    requires even { parity a ≡ 0 }
    ensures value { a ≡ result +ℤ result }
    ensures size { unsigned_abs result ≤ 4 * unsigned_abs LARGEST }
{
    a / 2
}

/// Whether all coefficients are even.
pub fn is_even(x: Omega) -> bool
    requires { IsFourfold x }
    ensures { IsTrue result ↔ IsEven x }
{
    both_even(x.c0, x.c1) && both_even(x.c2, x.c3)
}

fn both_even(a: i64, b: i64) -> bool
    requires a_size { unsigned_abs a ≤ 4 * unsigned_abs LARGEST }
    requires b_size { unsigned_abs b ≤ 4 * unsigned_abs LARGEST }
    ensures { IsTrue result ↔ ((parity a ≡ 0) × (parity b ≡ 0)) }
{
    even(a) && even(b)
}

fn even(a: i64) -> bool
    requires { unsigned_abs a ≤ 4 * unsigned_abs LARGEST }
    ensures { IsTrue result ↔ (parity a ≡ 0) }
{
    a % 2 == 0
}

/// Whether no coefficient is above `LARGEST` in size.
pub fn is_small(x: Omega) -> bool
    ensures { IsTrue result ↔ IsSmall x }
{
    fits(x.c0) && fits(x.c1) && fits(x.c2) && fits(x.c3)
}

fn fits(a: i64) -> bool
    ensures { IsTrue result ↔ (unsigned_abs a ≤ unsigned_abs LARGEST) }
{
    -LARGEST <= a && a <= LARGEST
}
