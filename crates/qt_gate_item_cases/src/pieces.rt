//! Texts of rows, with pieces that stand in them many times.

use qt_rows::answer::Answer;
use qt_rows::row::Row;
use qt_rows::text::unescaped;
use std::alloc::{AllocError, Global};

/// Writes one character of a piece.
fn add_letter(text: &mut String, letter: char, number: u32) -> Result<(), AllocError> {
    match letter {
        '#' => write!(text, "{number}"),
        '$' => {
            let before = number.saturating_sub(1);
            write!(text, "{before}")
        }
        _ => text.push(letter),
    }
}

fn add_piece(text: &mut String, piece: &str, number: u32) -> Result<(), AllocError> {
    for letter in piece.chars() {
        add_letter(text, letter, number)?;
    }
    Ok(())
}

/// So many pieces one behind the other.
fn pieces(alloc: Global, count: u32, piece: &str) -> Result<String, AllocError> {
    let mut text = String::new(alloc);
    for number in 0..count {
        add_piece(&mut text, piece, number.saturating_add(1))?;
    }
    Ok(text)
}

/// The text with the pieces in place of each `?`.
fn put_in(alloc: Global, written: &str, pieces: &str) -> Result<String, AllocError> {
    let mut text = String::new(alloc);
    for letter in written.chars() {
        match letter {
            '?' => text.push_str(pieces)?,
            _ => text.push(letter)?,
        }
    }
    Ok(text)
}

/// The text of a row, for the number and the piece that its head has.
pub fn text_of(
    alloc: Global,
    head: &mut Row<'_>,
    row: &mut Row<'_>,
    answer: &mut Answer,
) -> Option<String> {
    let written = answer.given(unescaped(alloc, row.rest))?;
    if head.rest.is_empty() {
        row.refused |= head.refused;
        return Some(written);
    }
    let count = head.u32();
    row.refused |= head.refused;
    let pieces = answer.given(pieces(alloc, count, head.rest))?;
    answer.given(put_in(alloc, written.as_str(), pieces.as_str()))
}
