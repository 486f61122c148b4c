//! Numbers: the longest spelling that begins at a place.

ghost use Rattle.std.specs.Prelude.{◌≡◌, ◌+◌, ◌-◌, ◌*◌, ◌||◌, eqb, if◌then◌else◌, ◌<◌, ◌≤◌, ◌^◌, ◌↔◌, ℕ, true, false, length, IfSome, IfNone, IsTrue};
ghost use Rattle.qt_lex.specs.declared.number.Radix.TheVariants.{Decimal, Hexadecimal};
ghost use Rattle.qt_lex.specs.Bytes as bytes;
ghost use Rattle.qt_lex.specs.Bytes.{byte};
ghost use Rattle.qt_lex.specs.Numbers as spec;
ghost use Rattle.qt_lex.specs.Tokens.{LongestToken, NoToken};
ghost use Rattle.qt_lex.specs.Answers.{prefix_of, is_decimal_byte, IsPreferred, IsLongestExponent, IsLongestDecimal, IsWithUnit};

use crate::spellings::{IMAGINARY_UNITS, TIME_UNITS};
use crate::tokens::Kind;
use qt_scan::bytes::byte_at;
use qt_scan::runs::{digits_end, longest_in};

/// The bases of whole numbers.
#[derive(Clone, Copy, Debug)]
pub enum Radix {
    Binary,
    Octal,
    Decimal,
    Hexadecimal,
}

/// A whole number's base, the place of its first digit, and the place behind its last.
#[derive(Clone, Copy, Debug)]
pub struct Whole {
    pub radix: Radix,
    pub start: usize,
    pub end: usize,
}

fn base_of(radix: Radix) -> u128
    ensures value { result ≡ spec.base_of radix }
    ensures small { result ≤ 16 }
{
    match radix {
        Radix::Binary => 2,
        Radix::Octal => 8,
        Radix::Decimal => 10,
        Radix::Hexadecimal => 16,
    }
}

pub fn is_digit_of(radix: Radix, byte: u8) -> bool
    ensures { result ≡ spec.is_digit_of radix byte }
{
    match radix {
        Radix::Binary => b'0' <= byte && byte <= b'1',
        Radix::Octal => b'0' <= byte && byte <= b'7',
        Radix::Decimal => b'0' <= byte && byte <= b'9',
        Radix::Hexadecimal => {
            (b'0' <= byte && byte <= b'9')
                || ((b'A' <= byte && byte <= b'F') || (b'a' <= byte && byte <= b'f'))
        }
    }
}

/// What a digit of any base counts.
fn digit_value(byte: u8) -> u8
    requires { spec.is_digit_of Hexadecimal byte ≡ true }
    ensures value { result ≡ spec.digit_value byte }
    ensures small { result < 16 }
{
    if byte <= b'9' {
        byte - b'0'
    } else if byte <= b'F' {
        byte - b'A' + 10
    } else {
        byte - b'a' + 10
    }
}

/// A number with one more byte of its digits behind it.
fn counted(number: u128, radix: Radix, byte: u8) -> u128
    requires small { number < 2 ^ 64 }
    requires digit { eqb byte 95 ≡ false → spec.is_digit_of Hexadecimal byte ≡ true }
    ensures { result ≡ (if eqb byte 95 then number else number * spec.base_of radix + spec.digit_value byte) }
{
    if byte == b'_' {
        return number;
    }
    number * base_of(radix) + u128::from(digit_value(byte))
}

/// Whether the digits of a whole number count more than 2^64 - 1.
fn is_wide(text: &[u8], whole: Whole) -> bool
    requires digits { spec.IsDigits (byte text.now) whole.radix whole.start whole.end }
    requires within { whole.end ≤ length text.now }
    ensures { IsTrue result ↔ (2 ^ 64 ≤ spec.number_of (byte text.now) (spec.base_of whole.radix) whole.start (whole.end - whole.start)) }
{
    let mut number: u128 = 0;
    for place in whole.start..whole.end {
        number = counted(number, whole.radix, byte_at(text, place));
        if number > 0xFFFF_FFFF_FFFF_FFFF {
            return true;
        }
    }
    false
}

pub fn goes_on(text: &[u8], at: usize, radix: Radix) -> bool
    requires { at ≤ length text.now }
    ensures value { result ≡ spec.goes_on (byte text.now) radix at }
    ensures within { result ≡ true → at < length text.now }
{
    let byte = byte_at(text, at);
    is_digit_of(radix, byte) || (byte == b'_' && is_digit_of(radix, byte_at(text, at + 1)))
}

/// The place behind the digits of a base, with single `_` between them, that begin at a place.
fn spaced_end(text: &[u8], at: usize, radix: Radix) -> Option<usize>
    requires { at ≤ length text.now }
    ensures digits { IfSome result (λ end. spec.IsDigits (byte text.now) radix at end) }
    ensures stop { IfSome result (λ end. spec.goes_on (byte text.now) radix end ≡ false) }
    ensures within { IfSome result (λ end. end ≤ length text.now) }
    ensures none { IfNone result (spec.is_digit_of radix (byte text.now at) ≡ false) }
{
    if !is_digit_of(radix, byte_at(text, at)) {
        return None;
    }
    let mut end = at;
    'end: while goes_on(text, end, radix) {
        end += 1;
    }
    Some(end)
}

/// The base that the two bytes at a place name as a prefix.
fn prefix_at(text: &[u8], at: usize) -> Option<Radix>
    requires { at < length text.now }
    ensures value { result ≡ prefix_of (byte text.now at) (byte text.now (at + 1)) }
    ensures within { IfSome result (λ radix. at + 2 ≤ length text.now) }
{
    if byte_at(text, at) != b'0' {
        return None;
    }
    match byte_at(text, at + 1) {
        b'x' | b'X' => Some(Radix::Hexadecimal),
        b'b' | b'B' => Some(Radix::Binary),
        b'o' => Some(Radix::Octal),
        _ => None,
    }
}

/// The whole number with a prefix at a place.
fn prefixed_at(text: &[u8], at: usize) -> Option<Whole>
    requires { at < length text.now }
    ensures whole { IfSome result (λ whole. spec.IsWhole (byte text.now) whole.radix whole.start at whole.end) }
    ensures stop { IfSome result (λ whole. spec.goes_on (byte text.now) whole.radix whole.end ≡ false) }
    ensures preferred { IfSome result (λ whole. IsPreferred (byte text.now) at whole.radix) }
    ensures within { IfSome result (λ whole. whole.end ≤ length text.now) }
    ensures none { IfNone result (IsPreferred (byte text.now) at Decimal) }
{
    let radix = prefix_at(text, at)?;
    let end = spaced_end(text, at + 2, radix)?;
    Some(Whole {
        radix,
        start: at + 2,
        end,
    })
}

/// The longest whole number at a place.
fn whole_at(text: &[u8], at: usize) -> Option<Whole>
    requires { at < length text.now }
    ensures whole { IfSome result (λ whole. spec.IsWhole (byte text.now) whole.radix whole.start at whole.end) }
    ensures stop { IfSome result (λ whole. spec.goes_on (byte text.now) whole.radix whole.end ≡ false) }
    ensures preferred { IfSome result (λ whole. IsPreferred (byte text.now) at whole.radix) }
    ensures within { IfSome result (λ whole. whole.end ≤ length text.now) }
    ensures none { IfNone result (bytes.is_digit (byte text.now at) ≡ false) }
{
    match prefixed_at(text, at) {
        Some(whole) => Some(whole),
        None => {
            let end = spaced_end(text, at, Radix::Decimal)?;
            Some(Whole {
                radix: Radix::Decimal,
                start: at,
                end,
            })
        }
    }
}

/// The place behind the exponent at a place.
fn exponent_end(text: &[u8], at: usize) -> Option<usize>
    requires { at ≤ length text.now }
    ensures exponent { IfSome result (λ end. (s : ℕ) × spec.IsExponent (byte text.now) s at end) }
    ensures longest { IfSome result (λ end. IsLongestExponent (byte text.now) at end) }
    ensures within { IfSome result (λ end. end ≤ length text.now) }
    ensures none { IfNone result ((s k : ℕ) → spec.IsExponent (byte text.now) s at k → ⊥) }
{
    let head = byte_at(text, at);
    if head != b'e' && head != b'E' {
        return None;
    }
    let sign = byte_at(text, at + 1);
    let start = if sign == b'+' || sign == b'-' {
        at + 2
    } else {
        at + 1
    };
    let end = digits_end(text, start);
    if end == start { None } else { Some(end) }
}

/// The place behind the longest decimal number at a place.
fn decimal_end(text: &[u8], at: usize) -> Option<usize>
    requires { at < length text.now }
    ensures decimal { IfSome result (λ end. spec.IsDecimal (byte text.now) at end) }
    ensures longest { IfSome result (λ end. IsLongestDecimal (byte text.now) at end) }
    ensures within { IfSome result (λ end. end ≤ length text.now) }
    ensures none { IfNone result ((k : ℕ) → spec.IsDecimal (byte text.now) at k → ⊥) }
{
    let point = digits_end(text, at);
    if byte_at(text, point) != b'.' {
        if point == at {
            return None;
        }
        return exponent_end(text, point);
    }
    let mantissa = digits_end(text, point + 1);
    if mantissa == at + 1 {
        return None;
    }
    match exponent_end(text, mantissa) {
        Some(end) => Some(end),
        None => Some(mantissa),
    }
}

/// A number of a kind that ends at a place, with the unit behind it, if there is one.
fn with_unit(text: &[u8], kind: Kind, end: usize) -> (Kind, usize)
    requires { end ≤ length text.now }
    ensures unit { IsWithUnit (byte text.now) kind end result.0 result.1 }
    ensures times { (k : ℕ) → bytes.IsOneOf (byte text.now) bytes.time_units end k → k ≤ result.1 }
    ensures imaginaries { (k : ℕ) → bytes.IsOneOf (byte text.now) bytes.imaginary_units end k → k ≤ result.1 }
    ensures ahead { end ≤ result.1 }
    ensures within { result.1 ≤ length text.now }
{
    let time = longest_in(text, end, &TIME_UNITS);
    let imaginary = longest_in(text, end, &IMAGINARY_UNITS);
    if imaginary > time {
        (Kind::Imaginary, end + imaginary)
    } else if time > 0 {
        (Kind::Timing, end + time)
    } else {
        (kind, end)
    }
}

/// Whether the last digit of a whole number is the first character of the unit `dt`.
fn is_cut_by_unit(text: &[u8], whole: Whole) -> bool
    requires { spec.IsDigits (byte text.now) whole.radix whole.start whole.end }
    ensures { IsTrue result ↔ (spec.IsDigits (byte text.now) whole.radix whole.start (whole.end - 1)
        × (byte text.now (whole.end - 1) ≡ 100) × (byte text.now whole.end ≡ 116)) }
{
    byte_at(text, whole.end) == b't'
        && (byte_at(text, whole.end - 1) == b'd'
            && (whole.start + 1 < whole.end && byte_at(text, whole.end - 2) != b'_'))
}

/// The longest token at a place where a digit or a point stands.
pub fn number_at(text: &[u8], at: usize) -> Option<(Kind, usize)>
    requires number { (bytes.is_digit (byte text.now at) || eqb (byte text.now at) 46) ≡ true }
    requires within { at < length text.now }
    ensures some { IfSome result (λ found. LongestToken (byte text.now) found.0 at found.1) }
    ensures ahead { IfSome result (λ found. at < found.1) }
    ensures inside { IfSome result (λ found. found.1 ≤ length text.now) }
    ensures none { IfNone result (NoToken (byte text.now) at) }
{
    if let Some(end) = decimal_end(text, at) {
        return Some(with_unit(text, Kind::Decimal, end));
    }
    let Some(whole) = whole_at(text, at) else {
        return None;
    };
    if is_cut_by_unit(text, whole) {
        return Some((Kind::Timing, whole.end + 1));
    }
    if is_wide(text, whole) {
        return Some(with_unit(text, Kind::Wide, whole.end));
    }
    Some(with_unit(text, Kind::Integer, whole.end))
}
