//! Whole numbers modulo `2^width`, and the number that bits stand for.

ghost use Rattle.std.specs.Prelude.{◌≡◌, ◌≢◌, ◌^◌, ◌<◌, ◌≤◌, pos, ◌*ℤ◌, int_div, int_rem, unsigned_abs};
ghost use Rattle.qt_bits.specs.Residues.{power, residue, signed_number};

/// `number` modulo `2^width`.
pub fn residue(number: i128, width: u8) -> u64
    requires { width ≤ 64 }
    ensures value { result ≡ residue width number }
    ensures below { result < 2 ^ width }
{
    number.rem_euclid(1i128 << width) as u64
}

/// The number that bits stand for in two's complement of so many bits.
pub fn signed(bits: u64, width: u8) -> i128
    requires least { 0 < width }
    requires width { width ≤ 64 }
    requires fits { bits < 2 ^ width }
    ensures value { result ≡ signed_number width bits }
    ensures small { unsigned_abs result < 2 ^ 64 }
{
    let unsigned = i128::from(bits);
    if unsigned >= 1i128 << (width - 1) {
        unsigned - (1i128 << width)
    } else {
        unsigned
    }
}

/// `x·y` modulo `2^width`.
pub fn product(x: i128, y: i128, width: u8) -> u64
    requires { width ≤ 64 }
    ensures value { result ≡ residue width (x *ℤ y) }
    ensures below { result < 2 ^ width }
{
    let product = u128::from(residue(x, width)) * u128::from(residue(y, width));
    (product % (1u128 << width)) as u64
}

/// `x / y`, truncated toward zero, modulo `2^width`.
pub fn quotient(x: i128, y: i128, width: u8) -> u64
    requires width { width ≤ 64 }
    requires small { unsigned_abs x < 2 ^ 64 }
    requires divisor { y ≢ pos 0 }
    ensures value { result ≡ residue width (int_div x y) }
    ensures below { result < 2 ^ width }
{
    residue(x / y, width)
}

/// The rest of `x / y`, with the sign of `x`, modulo `2^width`.
pub fn rest(x: i128, y: i128, width: u8) -> u64
    requires width { width ≤ 64 }
    requires small { unsigned_abs x < 2 ^ 64 }
    requires divisor { y ≢ pos 0 }
    ensures value { result ≡ residue width (int_rem x y) }
    ensures below { result < 2 ^ width }
{
    residue(x % y, width)
}

/// `x` to a power, modulo `2^width`.
pub fn power(x: i128, exponent: u64, width: u8) -> u64
    requires positive { 0 < width }
    requires width { width ≤ 64 }
    ensures value { result ≡ residue width (power x exponent) }
    ensures below { result < 2 ^ width }
{
    let modulus = 1u128 << width;
    let mut result = 1;
    let mut square = u128::from(residue(x, width));
    let mut left = exponent;
    while left > 0 {
        if left % 2 == 1 {
            result = result * square % modulus;
        }
        square = square * square % modulus;
        left /= 2;
    }
    result as u64
}
