//! The values of literals, by their spelling.

ghost use Rattle.std.specs.Prelude.{◌≡◌, ◌+◌, ◌-◌, ◌*◌, ◌<◌, ◌≤◌, ◌%◌, ◌^◌, eqb, if◌then◌else◌, true, length};
ghost use Rattle.qt_lex.specs.Bytes.{byte};
ghost use Rattle.qt_lex.specs.Numbers.{digit_value, number_of};
ghost use Rattle.qt_terminals.specs.Literals as spec;

use qt_lex::bits::{are_bits, digit_count};

/// The byte at a place, 0 behind the end.
fn byte_at(text: &[u8], at: usize) -> u8
    ensures value { result ≡ byte text.now at }
    ensures within { 0 < result → at < length text.now }
{
    match text.get(at) {
        Some(byte) => *byte,
        None => 0,
    }
}

/// The bytes of a text from one place up to another; none where a character is cut, or where the places are out of order or
/// outside.
#[tactic(auto, unfolding(crate::specs::Literals::cut))]
pub fn cut(text: &str, start: usize, end: usize) -> &str
    ensures { result.now ≡ spec.cut text.now start end }
{
    if start <= end && (text.is_char_boundary(start) && text.is_char_boundary(end)) {
        &text[start..end]
    } else {
        ""
    }
}

/// What a digit of any base counts; a byte that is no digit counts whatever comes of it.
fn digit_value(byte: u8) -> u64
    ensures { result ≡ digit_value byte }
{
    let below = if byte <= b'9' {
        b'0'
    } else if byte <= b'F' {
        b'A' - 10
    } else {
        b'a' - 10
    };
    u64::from(byte.saturating_sub(below))
}

/// A number with one more byte of its digits behind it, modulo 2^64.
#[tactic(auto, using(crate::proofs::Numbers::wrapped_sum))]
fn counted(number: u64, base: u64, byte: u8) -> u64
    ensures { result ≡ (if eqb byte 95 then number else (number * base + digit_value byte) % 2 ^ 64) }
{
    if byte == b'_' {
        return number;
    }
    number.wrapping_mul(base).wrapping_add(digit_value(byte))
}

/// The number that the digits from one place up to another name, modulo 2^64.
fn number_in(text: &[u8], base: u64, start: usize, end: usize) -> u64
    requires ordered { start ≤ end }
    requires within { end ≤ length text.now }
    ensures { result ≡ number_of (byte text.now) base start (end - start) % 2 ^ 64 }
{
    let mut number: u64 = 0;
    for at in start..end {
        number = counted(number, base, byte_at(text, at));
    }
    number
}

/// The number of a whole number's spelling, modulo 2^64.
#[tactic(auto, unfolding(crate::specs::Literals::integer_of))]
pub fn integer_of(spelling: &[u8]) -> u64
    ensures { result ≡ spec.integer_of spelling.now % 2 ^ 64 }
{
    let end = spelling.len();
    if byte_at(spelling, 0) != b'0' {
        return number_in(spelling, 10, 0, end);
    }
    match byte_at(spelling, 1) {
        b'x' | b'X' => number_in(spelling, 16, 2, end),
        b'b' | b'B' => number_in(spelling, 2, 2, end),
        b'o' => number_in(spelling, 8, 2, end),
        _ => number_in(spelling, 10, 0, end),
    }
}

/// Whether a spelling in quotes holds 1 to 64 digits `0` and `1`, with single `_` between them.
#[tactic(auto, unfolding(crate::specs::Literals::is_bit_text))]
pub fn is_bit_text(spelling: &[u8]) -> bool
    ensures value { result ≡ spec.is_bit_text spelling.now }
    ensures quoted { result ≡ true → 2 < length spelling.now }
{
    if spelling.len() < 3 {
        return false;
    }
    let end = spelling.len() - 1;
    are_bits(spelling, 1, end) && digit_count(spelling, 1, end) <= 64
}

/// The number of digits of a bit string, and 0 of any other text.
#[tactic(auto, unfolding(crate::specs::Literals::bit_count))]
pub fn bit_count(spelling: &[u8]) -> u8
    ensures { result ≡ spec.bit_count spelling.now }
{
    if !is_bit_text(spelling) {
        return 0;
    }
    digit_count(spelling, 1, spelling.len() - 1) as u8
}

/// The number that the digits of a bit string name, the leftmost being the highest, and 0 of any other text.
#[tactic(auto, unfolding(crate::specs::Literals::bits_of))]
pub fn bits_of(spelling: &[u8]) -> u64
    ensures { result ≡ spec.bits_of spelling.now }
{
    if !is_bit_text(spelling) {
        return 0;
    }
    number_in(spelling, 2, 1, spelling.len() - 1)
}
