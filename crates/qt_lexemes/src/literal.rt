//! Numbers and texts in quotes.

ghost use Rattle.std.specs.Prelude.{◌≡◌, ◌+◌, ◌++◌, OnOk};
ghost use Rattle.std.specs.Fmt.{decimal};
ghost use Rattle.std.specs.Int.{bit_at};
ghost use Rattle.std.specs.String.{string_bytes};
ghost use Rattle.qt_lexemes.specs.Literals.{binary_digits, bit_text, holds_double_quote, quoted};

use qt_outside::faults::OutOfMemory;

/// A whole number in decimal.
pub(crate) fn push_number(text: &mut String, value: u64) -> Result<(), OutOfMemory>
    ensures { OnOk result (string_bytes text.new ≡ string_bytes text.old ++ decimal value) }
{
    write!(text, "{value}")?;
    Ok(())
}

/// The digit at a place, which is 0 past the highest place.
fn binary_digit(value: u64, place: u32) -> char
    ensures { result ≡ 48 + bit_at value place }
{
    if value.checked_shr(place).unwrap_or(0) & 1 == 1 {
        '1'
    } else {
        '0'
    }
}

/// The lowest places of the value, the highest of them first.
fn push_digits(text: &mut String, value: u64, length: u8) -> Result<(), OutOfMemory>
    ensures { OnOk result (string_bytes text.new ≡ string_bytes text.old ++ binary_digits length value) }
{
    for place in (0..length).rev() {
        text.push(binary_digit(value, u32::from(place)))?;
    }
    Ok(())
}

/// A bit string of so many digits, in double quotes.
pub(crate) fn push_bits(text: &mut String, value: u64, length: u8) -> Result<(), OutOfMemory>
    ensures { OnOk result (string_bytes text.new ≡ string_bytes text.old ++ bit_text value length) }
{
    text.push_str("\"")?;
    push_digits(text, value, length)?;
    text.push_str("\"")?;
    Ok(())
}

/// Does a text hold a double quote?
fn has_double_quote(text: &[u8]) -> bool
    ensures { result ≡ holds_double_quote text.now }
{
    text.iter().any(|byte| *byte == b'"')
}

/// A text in double quotes, or in single ones where it holds a double one.
pub(crate) fn push_quoted(text: &mut String, name: &str) -> Result<(), OutOfMemory>
    ensures { OnOk result (string_bytes text.new ≡ string_bytes text.old ++ quoted name.now) }
{
    let quote = if has_double_quote(name.as_bytes()) {
        "'"
    } else {
        "\""
    };
    text.push_str(quote)?;
    text.push_str(name)?;
    text.push_str(quote)?;
    Ok(())
}
