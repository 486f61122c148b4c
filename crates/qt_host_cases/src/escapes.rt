//! Bytes in rows and answers: `\n`, `\r` and `\t` as in Rust, and `\x` with two digits of base 16.

use qt_rows::answer::Answer;
use std::alloc::Global;

/// The value of a digit of base 16, or 0.
fn digit(letter: u8) -> u8 {
    match letter {
        b'0'..=b'9' => letter - b'0',
        b'a'..=b'f' => letter - b'a' + 10,
        _ => 0,
    }
}

/// The byte that a `\` writes, and the bytes behind it.
fn push_escaped(behind: &[u8], bytes: &mut Vec<u8>, answer: &mut Answer) {
    let (byte, rest) = match behind {
        [b'n', rest @ ..] => (b'\n', rest),
        [b'r', rest @ ..] => (b'\r', rest),
        [b't', rest @ ..] => (b'\t', rest),
        [b'x', high, low, rest @ ..] => ((digit(*high) << 4) | digit(*low), rest),
        _ => (b'\\', behind),
    };
    answer.require(bytes.push(byte));
    answer.require(bytes.extend_from_slice(rest));
}

/// The bytes that a row writes with escapes.
pub fn unescaped(alloc: Global, written: &str, answer: &mut Answer) -> Vec<u8> {
    let mut bytes = Vec::new(alloc);
    for (index, part) in written.split('\\').enumerate() {
        if index == 0 {
            answer.require(bytes.extend_from_slice(part.as_bytes()));
        } else {
            push_escaped(part.as_bytes(), &mut bytes, answer);
        }
    }
    bytes
}

/// Writes bytes with escapes.
pub fn tell_bytes(bytes: &[u8], answer: &mut Answer) {
    for byte in bytes {
        match *byte {
            b'\n' => answer.push_str("\\n"),
            32..=126 => write!(answer, "{}", char::from(*byte)),
            other => write!(answer, "\\x{other:02x}"),
        }
    }
}
