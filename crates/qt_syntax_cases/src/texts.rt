//! Texts of rows, which are written with escapes and repetitions.

use qt_rows::answer::Answer;
use std::alloc::Global;

/// Writes the byte of two hexadecimal digits, and what stands behind them.
fn push_escaped(piece: &str, bytes: &mut Vec<u8>, answer: &mut Answer) {
    let Some((digits, rest)) = piece.split_at_checked(2) else {
        return;
    };
    answer.require(bytes.push(u8::from_str_radix(digits, 16).unwrap_or(0)));
    answer.require(bytes.extend_from_slice(rest.as_bytes()));
}

/// Writes the bytes of a part: `\` and two hexadecimal digits are one byte.
fn push_part(part: &str, bytes: &mut Vec<u8>, answer: &mut Answer) {
    for (number, piece) in part.split('\\').enumerate() {
        if number == 0 {
            answer.require(bytes.extend_from_slice(piece.as_bytes()));
        } else {
            push_escaped(piece, bytes, answer);
        }
    }
}

/// Writes the bytes of a part so many times.
fn push_parts(part: &str, count: usize, bytes: &mut Vec<u8>, answer: &mut Answer) {
    for _ in 0..count {
        push_part(part, bytes, answer);
    }
}

/// The bytes of a text: between `¦` stand a part, the count of the next part, that part, another part, and so on.
pub fn bytes_of(alloc: Global, written: &str, answer: &mut Answer) -> Vec<u8> {
    let mut bytes = Vec::new(alloc);
    let mut count: usize = 1;
    for (number, part) in written.split('¦').enumerate() {
        if number % 3 == 1 {
            count = part.parse::<usize>().unwrap_or(0);
        } else {
            push_parts(part, count, &mut bytes, answer);
            count = 1;
        }
    }
    bytes
}
