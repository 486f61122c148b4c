//! Powers of ω times a number in 128 bits, and the greatest of them.
ghost use Rattle.std.specs.Prelude.{ℕ, ◌≡◌, ◌^◌, ◌<◌, ◌↔◌, IsTrue};
ghost use Rattle.qt_ring.specs.Ring.{Within, times, root, the_omega};
ghost use Rattle.qt_ring.specs.Wide.{number_of};
ghost use Rattle.qt_canon_laws.specs.FirstEntry.{IsGreater};

use qt_ring::wide::Wide;

/// The product with ω.
fn turned(x: Wide) -> Wide
    requires { Within (2 ^ 120) (number_of x) }
    ensures value { number_of result ≡ times the_omega (number_of x) }
    ensures size { Within (2 ^ 120) (number_of result) }
{
    Wide {
        c0: -x.c3,
        c1: x.c0,
        c2: x.c1,
        c3: x.c2,
    }
}

/// The product with `ω^turns`.
pub fn turned_by(x: Wide, turns: u8) -> Wide
    requires { Within (2 ^ 120) (number_of x) }
    ensures value { number_of result ≡ times (root turns) (number_of x) }
    ensures size { Within (2 ^ 120) (number_of result) }
{
    let mut product = x;
    for _step in 0..turns % 8 {
        product = turned(product);
    }
    product
}

/// Whether the list of coefficients of `a` is lexicographically greater than that of `b`.
fn is_greater(a: Wide, b: Wide) -> bool
    ensures { IsTrue result ↔ IsGreater (number_of a) (number_of b) }
{
    if a.c0 != b.c0 {
        return a.c0 > b.c0;
    }
    if a.c1 != b.c1 {
        return a.c1 > b.c1;
    }
    if a.c2 != b.c2 {
        return a.c2 > b.c2;
    }
    a.c3 > b.c3
}

/// The power of ω whose product with the number has the greatest list of coefficients.
pub fn greatest_turn(x: Wide) -> u8
    requires { Within (2 ^ 120) (number_of x) }
    ensures few { result < 8 }
    ensures greatest { (k : ℕ) → IsGreater (times (root k) (number_of x)) (times (root result) (number_of x)) → ⊥ }
{
    let mut best = x;
    let mut turns = 0u8;
    for other in 1..8u8 {
        let next = turned_by(x, other);
        if is_greater(next, best) {
            best = next;
            turns = other;
        }
    }
    turns
}
