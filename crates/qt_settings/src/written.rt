//! Values as they are written.

ghost use Rattle.std.specs.Prelude.{◌≡◌, ◌≤◌, ◌-◌, ◌+◌, ◌^◌, IsTrue};
ghost use Rattle.qt_value.specs.Types.{has_size};
ghost use Rattle.qt_typing.specs.Inputs.{below, bits_written, digits_of, opposite, signed_digits, truth_written};

use crate::digits::digits_of;
use qt_value::types::ValueType;

/// The number that decimal digits stand for, where it has at most so many bits.
#[tactic(auto, using(crate::proofs::TooLarge::below_less))]
fn number_below(width: u8, text: &[u8]) -> Option<u64>
    requires { width ≤ 64 }
    ensures { result ≡ below (2 ^ width) (digits_of 10 text.now) }
{
    let number = digits_of(10, text)?;
    if u128::from(number) < 1u128 << width {
        Some(number)
    } else {
        None
    }
}

/// The bits of the number below 0 that is opposite to what decimal digits stand for, where it fits.
#[tactic(auto, using(crate::proofs::TooLarge::opposite_less))]
fn number_opposite(width: u8, text: &[u8]) -> Option<u64>
    requires least { 1 ≤ width }
    requires most { width ≤ 64 }
    ensures { result ≡ opposite width (digits_of 10 text.now) }
{
    let number = u128::from(digits_of(10, text)?);
    if number > 1u128 << (width - 1) {
        None
    } else if number == 0 {
        Some(0)
    } else {
        Some(((1u128 << width) - number) as u64)
    }
}

/// The bits of an int.
fn signed_digits(width: u8, text: &[u8]) -> Option<u64>
    requires least { 1 ≤ width }
    requires most { width ≤ 64 }
    ensures { result ≡ signed_digits width text.now }
{
    match text {
        [b'-', rest @ ..] => number_opposite(width, rest),
        _ => number_below(width - 1, text),
    }
}

/// A truth value: 1 or 0.
fn truth_written(text: &str) -> Option<u64>
    ensures { result ≡ truth_written text.now }
{
    match text {
        "true" => Some(1),
        "false" => Some(0),
        _ => None,
    }
}

/// The bits of a value of a type; none where it isn't written as one.
#[tactic(auto, unfolding(qt_typing::specs::Inputs::bits_written), using(crate::proofs::TooLarge::few_digits))]
pub fn bits_written(kind: ValueType, text: &str) -> Option<u64>
    requires { IsTrue (has_size kind) }
    ensures { result ≡ bits_written kind text.now }
{
    let digits = text.as_bytes();
    match kind {
        ValueType::Bool => truth_written(text),
        ValueType::Bit(width) if digits.len() == usize::from(width) => digits_of(2, digits),
        ValueType::Bit(_) | ValueType::Phase => None,
        ValueType::Int(width) => signed_digits(width, digits),
        ValueType::Uint(width) | ValueType::Angle(width) => number_below(width, digits),
    }
}
