//! Sums and products that need more room than their operands, and the two parts of `|x|²`.
ghost use Rattle.std.specs.Prelude.{◌≡◌, ◌^◌, ◌≤◌, ◌+ℤ◌, ◌-ℤ◌, ◌*ℤ◌};
ghost use Rattle.std.specs.Int.RustNames.{unsigned_abs};
ghost use Rattle.qt_ring.specs.Ring.{Within, norm_a, norm_b};

use qt_ring::omega::Omega;

pub fn sum(a: i64, b: i64) -> i64
    requires a_size { unsigned_abs a ≤ 2 ^ 55 }
    requires b_size { unsigned_abs b ≤ 2 ^ 55 }
    ensures value { result ≡ a +ℤ b }
    ensures size { unsigned_abs result ≤ 2 ^ 56 }
{
    a + b
}

pub fn difference(a: i64, b: i64) -> i64
    requires a_size { unsigned_abs a ≤ 2 ^ 55 }
    requires b_size { unsigned_abs b ≤ 2 ^ 55 }
    ensures value { result ≡ a -ℤ b }
    ensures size { unsigned_abs result ≤ 2 ^ 56 }
{
    a - b
}

fn product(a: i64, b: i64) -> i128
    requires a_size { unsigned_abs a ≤ 2 ^ 62 }
    requires b_size { unsigned_abs b ≤ 2 ^ 56 }
    ensures value { result ≡ a *ℤ b }
    ensures size { unsigned_abs result ≤ 2 ^ 118 }
{
    a as i128 * b as i128
}

/// `a·x + b·y`.
pub fn combined(a: i64, x: i64, b: i64, y: i64) -> i128
    requires a_size { unsigned_abs a ≤ 2 ^ 62 }
    requires x_size { unsigned_abs x ≤ 2 ^ 56 }
    requires b_size { unsigned_abs b ≤ 2 ^ 62 }
    requires y_size { unsigned_abs y ≤ 2 ^ 56 }
    ensures value { result ≡ a *ℤ x +ℤ b *ℤ y }
    ensures size { unsigned_abs result ≤ 2 ^ 119 }
{
    product(a, x) + product(b, y)
}

fn square(a: i64) -> i128
    requires { unsigned_abs a ≤ 2 ^ 55 }
    ensures value { result ≡ a *ℤ a }
    ensures size { unsigned_abs result ≤ 2 ^ 110 }
{
    a as i128 * a as i128
}

fn total(a: i128, b: i128, c: i128, d: i128) -> i128
    requires a_size { unsigned_abs a ≤ 2 ^ 110 }
    requires b_size { unsigned_abs b ≤ 2 ^ 110 }
    requires c_size { unsigned_abs c ≤ 2 ^ 110 }
    requires d_size { unsigned_abs d ≤ 2 ^ 110 }
    ensures value { result ≡ a +ℤ b +ℤ c +ℤ d }
    ensures size { unsigned_abs result ≤ 2 ^ 112 }
{
    a + b + c + d
}

/// A of `|x|² = A + B√2`, the sum of the squares.
pub fn whole_part(x: Omega) -> i128
    requires { Within (2 ^ 55) x }
    ensures value { result ≡ norm_a x }
    ensures size { unsigned_abs result ≤ 2 ^ 112 }
{
    total(square(x.c0), square(x.c1), square(x.c2), square(x.c3))
}

/// B of `|x|² = A + B√2`, that is `c1·(c0 + c2) + c3·(c2 − c0)`.
pub fn root_part(x: Omega) -> i128
    requires { Within (2 ^ 55) x }
    ensures value { result ≡ norm_b x }
    ensures size { unsigned_abs result ≤ 2 ^ 112 }
{
    combined(x.c1, sum(x.c0, x.c2), x.c3, difference(x.c2, x.c0))
}
