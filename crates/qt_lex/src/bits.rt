//! Bit strings: runs of binary digits with single `_` between them.

ghost use Rattle.std.specs.Prelude.{◌≡◌, ◌-◌, ◌≤◌, ◌↔◌, true, length};
ghost use Rattle.qt_lex.specs.declared.number.Radix.TheVariants.{Binary};
ghost use Rattle.qt_lex.specs.Bytes.{byte};
ghost use Rattle.qt_lex.specs.Numbers.{IsDigits};
ghost use Rattle.qt_lex.specs.Bits as spec;

use crate::number::{Radix, goes_on, is_digit_of};
use qt_scan::bytes::byte_at;

/// Whether each place from one up to another holds a binary digit, or a `_` with a digit behind it.
fn each_goes_on(text: &[u8], start: usize, end: usize) -> bool
    requires ordered { start ≤ end }
    requires within { end ≤ length text.now }
    ensures { result ≡ spec.each_goes_on (byte text.now) start (end - start) }
{
    for at in start..end {
        if !goes_on(text, at, Radix::Binary) {
            return false;
        }
    }
    true
}

/// How many places from one up to another hold no `_`.
pub fn digit_count(text: &[u8], start: usize, end: usize) -> usize
    requires ordered { start ≤ end }
    requires within { end ≤ length text.now }
    ensures { result ≡ spec.digit_count (byte text.now) start (end - start) }
{
    let mut count = 0;
    for at in start..end {
        if byte_at(text, at) != b'_' {
            count += 1;
        }
    }
    count
}

/// Whether the places from one up to another hold `0` and `1` with single `_` between them.
pub fn are_bits(text: &[u8], start: usize, end: usize) -> bool
    requires ordered { start ≤ end }
    requires within { end ≤ length text.now }
    ensures { result ≡ spec.are_bits (byte text.now) start (end - start) }
{
    start < end
        && (is_digit_of(Radix::Binary, byte_at(text, start))
            && (each_goes_on(text, start, end)
                && is_digit_of(Radix::Binary, byte_at(text, end - 1))))
}

/// Whether the places from one up to another are a bit string of more than 64 digits.
pub fn is_long_bit_string(text: &[u8], start: usize, end: usize) -> bool
    requires ordered { start ≤ end }
    requires within { end ≤ length text.now }
    ensures { result ≡ spec.is_long_bit_string (byte text.now) start (end - start) }
{
    are_bits(text, start, end) && digit_count(text, start, end) >= 65
}

/// A bit string is spelled as the digits of a whole number in base 2 are, behind the prefix.
pub fn bits_are_binary_digits(text: &[u8], start: usize, end: usize)
    requires { start ≤ end }
    ensures { (spec.are_bits (byte text.now) start (end - start) ≡ true) ↔ IsDigits (byte text.now) Binary start end }
{}
