//! Runs of bytes of one kind, and the texts of a table that stand at a place.

ghost use Rattle.std.specs.Prelude.{◌≡◌, ◌+◌, ◌≤◌, true, false, length, map};
ghost use Rattle.qt_scan.specs.Bytes as spec;

use crate::bytes::{byte_at, is_digit, is_letter, is_name_byte};

/// The first place from `at` on where no digit stands.
pub fn digits_end(text: &[u8], at: usize) -> usize
    requires { at ≤ length text.now }
    ensures ahead { at ≤ result }
    ensures within { result ≤ length text.now }
    ensures all { spec.EachFrom (spec.byte text.now) spec.is_digit at result }
    ensures stop { spec.is_digit (spec.byte text.now result) ≡ false }
{
    let mut end = at;
    'end: while is_digit(byte_at(text, end)) {
        end += 1;
    }
    end
}

/// The first place from `at` on where no letter stands.
pub fn letters_end(text: &[u8], at: usize) -> usize
    requires { at ≤ length text.now }
    ensures ahead { at ≤ result }
    ensures within { result ≤ length text.now }
    ensures all { spec.EachFrom (spec.byte text.now) spec.is_letter at result }
    ensures stop { spec.is_letter (spec.byte text.now result) ≡ false }
{
    let mut end = at;
    'end: while is_letter(byte_at(text, end)) {
        end += 1;
    }
    end
}

/// The first place from `at` on whose byte isn't of a name.
pub fn word_end(text: &[u8], at: usize) -> usize
    requires { at ≤ length text.now }
    ensures ahead { at ≤ result }
    ensures within { result ≤ length text.now }
    ensures all { spec.EachFrom (spec.byte text.now) spec.is_name_byte at result }
    ensures stop { spec.is_name_byte (spec.byte text.now result) ≡ false }
{
    let mut end = at;
    'end: while is_name_byte(byte_at(text, end)) {
        end += 1;
    }
    end
}

/// Whether a text stands at a place.
fn stands(text: &[u8], mut at: usize, mut word: &[u8]) -> bool
    requires plain { spec.has_no_nul word.now ≡ true }
    requires within { at ≤ length text.now }
    ensures value { result ≡ spec.stands (spec.byte text.now) word.entry.now at }
    ensures inside { result ≡ true → at + length word.entry.now ≤ length text.now }
{
    'word: while let [first, rest @ ..] = word {
        if byte_at(text, at) != *first {
            return false;
        }
        at += 1;
        word = rest;
    }
    true
}

/// The length of the longest text of a table that stands at a place, 0 where none does.
pub fn longest_in(text: &[u8], at: usize, mut table: &[&[u8]]) -> usize
    requires plain { spec.have_no_nul (map (λ w. w.now) table.now) ≡ true }
    requires within { at ≤ length text.now }
    ensures value { result ≡ spec.longest_in (spec.byte text.now) (map (λ w. w.now) table.entry.now) at }
    ensures inside { at + result ≤ length text.now }
{
    let mut longest = 0;
    'table: while let [word, rest @ ..] = table {
        if stands(text, at, word) && word.len() > longest {
            longest = word.len();
        }
        table = rest;
    }
    longest
}
