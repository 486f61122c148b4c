//! The power of `ε = 1 + √2` that brings `|x|² = A + B√2` into the window −A < 2B ≤ A. A step of it makes A at most as great as before.
ghost use Rattle.std.specs.Prelude.{◌≡◌, ◌≢◌, ◌^◌, ◌≤◌, ◌↔◌, IsTrue, pos, ◌-ℤ◌, ◌*ℤ◌, ◌≤ℤ◌, ◌<ℤ◌};
ghost use Rattle.qt_ring.specs.Ring.{nil, Within, times, epsilon, epsilon_inverse, norm_a, norm_b};
ghost use Rattle.qt_canon_laws.specs.FirstEntry.{InWindow};
ghost use Rattle.qt_canon_laws.specs.Powers.{power, epsilon_power};

use crate::arithmetic::{root_part, whole_part};
use crate::epsilon::EpsilonPower;
use qt_ring::omega::Omega;

/// The power of `ε` whose product with the number is in the window.
pub fn power_into_window(x: Omega) -> EpsilonPower
    requires size { Within (2 ^ 55) x }
    requires some { x ≢ nil }
    ensures { InWindow (times (epsilon_power result.exponent) x) }
{
    if is_below(x) {
        EpsilonPower::up(steps_up(x))
    } else {
        EpsilonPower::down(steps_down(x))
    }
}

/// Whether the number is below the window.
fn is_below(x: Omega) -> bool
    requires { Within (2 ^ 55) x }
    ensures { IsTrue result ↔ ((pos 2 *ℤ norm_b x) ≤ℤ (pos 0 -ℤ norm_a x)) }
{
    2 * root_part(x) <= -whole_part(x)
}

/// How often a number in or above the window is to be divided by `ε`.
fn steps_down(x: Omega) -> u32
    requires size { Within (2 ^ 55) x }
    requires some { x ≢ nil }
    requires not_below { (pos 0 -ℤ norm_a x) <ℤ (pos 2 *ℤ norm_b x) }
    ensures window { InWindow (times (power epsilon_inverse result) x) }
    ensures few { result ≤ 49 }
{
    let mut whole = whole_part(x);
    let mut root = root_part(x);
    let mut steps = 0u32;
    while 2 * root > whole {
        let next = 3 * whole - 4 * root;
        root = 3 * root - 2 * whole;
        whole = next;
        steps += 1;
    }
    steps
}

/// How often a number in or below the window is to be multiplied by `ε`. The part of √2 is kept with its sign turned, so that the steps
/// are those downward.
fn steps_up(x: Omega) -> u32
    requires size { Within (2 ^ 55) x }
    requires some { x ≢ nil }
    requires not_above { (pos 2 *ℤ norm_b x) ≤ℤ norm_a x }
    ensures window { InWindow (times (power epsilon result) x) }
    ensures few { result ≤ 49 }
{
    let mut whole = whole_part(x);
    let mut root = -root_part(x);
    let mut steps = 0u32;
    while whole <= 2 * root {
        let next = 3 * whole - 4 * root;
        root = 3 * root - 2 * whole;
        whole = next;
        steps += 1;
    }
    steps
}
