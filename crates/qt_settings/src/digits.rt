//! Numbers as they are written in digits.

ghost use Rattle.std.specs.Prelude.{◌≡◌, ◌≤◌, ◌^◌, Some};
ghost use Rattle.qt_typing.specs.Inputs.{below, digit_below, digits_from, digits_of, more_digits};

/// The digit that a byte is, below a base.
fn digit_below(base: u8, byte: u8) -> Option<u64>
    requires { base ≤ 10 }
    ensures { result ≡ digit_below base byte }
{
    if byte >= b'0' && byte < b'0' + base {
        Some(u64::from(byte - b'0'))
    } else {
        None
    }
}

/// The number with one digit more, where it is below 2^64.
fn more_digits(base: u8, number: u64, byte: u8) -> Option<u64>
    requires { base ≤ 10 }
    ensures { result ≡ below (2 ^ 64) (more_digits base number (digit_below base byte)) }
{
    let digit = digit_below(base, byte)?;
    number.checked_mul(u64::from(base))?.checked_add(digit)
}

/// The number that digits stand for behind those that stand for `number`, where it is below 2^64.
#[tactic(auto, using(crate::proofs::TooLarge::no_more, crate::proofs::TooLarge::ended))]
fn digits_from(base: u8, mut number: u64, mut text: &[u8]) -> Option<u64>
    requires least { 1 ≤ base }
    requires most { base ≤ 10 }
    ensures { result ≡ below (2 ^ 64) (digits_from base (Some number) text.entry.now) }
{
    while let [byte, rest @ ..] = text {
        number = more_digits(base, number, *byte)?;
        text = rest;
    }
    Some(number)
}

/// The number that digits stand for, where it is below 2^64.
pub fn digits_of(base: u8, text: &[u8]) -> Option<u64>
    requires least { 1 ≤ base }
    requires most { base ≤ 10 }
    ensures { result ≡ below (2 ^ 64) (digits_of base text.now) }
{
    if text.is_empty() {
        None
    } else {
        digits_from(base, 0, text)
    }
}
