//! What divides all entries of a list, and its first entry other than 0.
ghost use Rattle.std.specs.Prelude.{◌≡◌, ℕ, ◌^◌, ◌%◌, ◌≤◌, ◌↔◌, IsTrue, false, All};
ghost use Rattle.qt_ring.specs.Division.{Divides};
ghost use Rattle.qt_ring.specs.Multiples.{DividesAll};
ghost use Rattle.qt_ring.specs.Ring.{Within, times, two_to, root_two, one_minus_omega};
ghost use Rattle.qt_ring.specs.State.{all_nil};
ghost use Rattle.qt_canon_laws.specs.FirstEntry.{first_entry};
ghost use Rattle.qt_canon.specs.Divisors.{IsGreatestDivisor};
ghost use Rattle.qt_canon.specs.EvenDivisors.{even_divisor};

use crate::divisor::{
    Divisor, even_quotient, one_minus_omega_divides, over_twos, root_two_divides,
};
use qt_ring::omega::Omega;

const ZERO: Omega = Omega {
    c0: 0,
    c1: 0,
    c2: 0,
    c3: 0,
};

/// The divisor that the first three steps take out.
pub fn greatest_divisor(entries: &[Omega]) -> Divisor
    requires within { All (Within (2 ^ 54)) entries.now }
    requires some { all_nil entries.now ≡ false }
    ensures { IsGreatestDivisor result entries.now }
{
    let twos = greatest_twos(entries);
    let has_root_two = root_two_divides_all(entries, twos);
    let has_one_minus_omega = one_minus_omega_divides_all(entries, twos, has_root_two);
    Divisor {
        twos,
        has_root_two,
        has_one_minus_omega,
    }
}

/// The `t` for which `2^t` is the greatest power of 2 that divides all entries.
fn greatest_twos(entries: &[Omega]) -> u32
    requires within { All (Within (2 ^ 54)) entries.now }
    requires some { all_nil entries.now ≡ false }
    ensures few { result ≤ 54 }
    ensures whole { DividesAll (two_to result) entries.now }
    ensures greatest { (k : ℕ) → DividesAll (two_to k) entries.now → k ≤ result }
{
    all_bits(entries).trailing_zeros()
}

/// A number that a power of 2 divides exactly where it divides all entries: all coefficients' sizes, joined bit by bit.
fn all_bits(entries: &[Omega]) -> u64
    requires { All (Within (2 ^ 54)) entries.now }
    ensures { (t : ℕ) → ((result % 2 ^ t ≡ 0) ↔ DividesAll (two_to t) entries.now) }
{
    let mut bits = 0u64;
    for entry in entries {
        bits |= bits_of(*entry);
    }
    bits
}

fn bits_of(x: Omega) -> u64
    requires { Within (2 ^ 54) x }
    ensures { (t : ℕ) → ((result % 2 ^ t ≡ 0) ↔ Divides (two_to t) x) }
{
    x.c0.unsigned_abs() | x.c1.unsigned_abs() | x.c2.unsigned_abs() | x.c3.unsigned_abs()
}

/// Whether √2 divides all entries over `2^twos`.
fn root_two_divides_all(entries: &[Omega], twos: u32) -> bool
    requires within { All (Within (2 ^ 54)) entries.now }
    requires few { twos ≤ 54 }
    requires whole { DividesAll (two_to twos) entries.now }
    ensures { IsTrue result ↔ DividesAll (times (two_to twos) root_two) entries.now }
{
    for entry in entries {
        if !root_two_divides(over_twos(*entry, twos)) {
            return false;
        }
    }
    true
}

/// Whether 1 − ω divides all entries over `2^twos`, and over √2 if `has_root_two`.
fn one_minus_omega_divides_all(entries: &[Omega], twos: u32, has_root_two: bool) -> bool
    requires within { All (Within (2 ^ 54)) entries.now }
    requires few { twos ≤ 54 }
    requires whole { DividesAll (even_divisor twos has_root_two) entries.now }
    ensures { IsTrue result ↔ DividesAll (times (even_divisor twos has_root_two) one_minus_omega) entries.now }
{
    for entry in entries {
        if !one_minus_omega_divides(even_quotient(*entry, twos, has_root_two)) {
            return false;
        }
    }
    true
}

/// The first entry other than 0.
pub fn first_nonzero(entries: &[Omega]) -> Omega
    requires { all_nil entries.now ≡ false }
    ensures { result ≡ first_entry entries.now }
{
    for entry in entries {
        if !entry.is_zero() {
            return *entry;
        }
    }
    ZERO
}
