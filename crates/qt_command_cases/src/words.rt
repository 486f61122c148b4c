//! The words of the rows.

use crate::escapes::unescaped;
use qt_rows::answer::Answer;
use std::alloc::Global;

/// The setting with that number.
fn push_setting(alloc: Global, number: u32, words: &mut Vec<String>, answer: &mut Answer) {
    if let Some(setting) = answer.given(format!(in alloc; "s{number}={number}")) {
        answer.require(words.push(setting));
    }
}

/// The words that a row writes. None are written by nothing at all.
fn words_written(alloc: Global, written: &str, answer: &mut Answer) -> Vec<String> {
    let mut words = Vec::new(alloc);
    if written.is_empty() {
        return words;
    }
    for word in written.split(' ') {
        let word = unescaped(alloc, word, answer);
        answer.require(words.push(word));
    }
    words
}

/// The words that a row writes, and so many settings behind them.
pub fn words_in(alloc: Global, written: &str, count: u32, answer: &mut Answer) -> Vec<String> {
    let mut words = words_written(alloc, written, answer);
    for number in 0..count {
        push_setting(alloc, number, &mut words, answer);
    }
    words
}
