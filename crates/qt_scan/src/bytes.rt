//! The byte at a place, and kinds of bytes.

ghost use Rattle.std.specs.Prelude.{◌≡◌, ◌<◌, length};
ghost use Rattle.qt_scan.specs.Bytes as spec;

/// The byte at a place, 0 behind the end.
pub fn byte_at(text: &[u8], at: usize) -> u8
    ensures byte { result ≡ spec.byte text.now at }
    ensures within { 0 < result → at < length text.now }
{
    match text.get(at) {
        Some(byte) => *byte,
        None => 0,
    }
}

/// `0` to `9`.
pub fn is_digit(byte: u8) -> bool
    ensures { result ≡ spec.is_digit byte }
{
    b'0' <= byte && byte <= b'9'
}

/// A letter of ASCII.
pub fn is_letter(byte: u8) -> bool
    ensures { result ≡ spec.is_letter byte }
{
    (b'A' <= byte && byte <= b'Z') || (b'a' <= byte && byte <= b'z')
}

/// What a name begins with: a letter of ASCII or `_`.
pub fn is_name_start(byte: u8) -> bool
    ensures { result ≡ spec.is_name_start byte }
{
    is_letter(byte) || byte == b'_'
}

/// What a name goes on with: a digit too.
pub fn is_name_byte(byte: u8) -> bool
    ensures { result ≡ spec.is_name_byte byte }
{
    is_name_start(byte) || is_digit(byte)
}

/// A space, a tab, a line feed or a carriage return.
pub fn is_blank(byte: u8) -> bool
    ensures { result ≡ spec.is_blank byte }
{
    byte == b' ' || (byte == b'\t' || (byte == b'\n' || byte == b'\r'))
}
