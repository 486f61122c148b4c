//! Words in rows and answers: `\s` is a blank, `\e` nothing, `\n` a line feed, and `\\` a `\`.

use qt_rows::answer::Answer;
use std::alloc::Global;

/// What a letter behind a `\` writes.
fn escaped(letter: char) -> Option<char> {
    match letter {
        's' => Some(' '),
        'n' => Some('\n'),
        'e' => None,
        _ => Some(letter),
    }
}

/// The word that a row writes with escapes.
pub fn unescaped(alloc: Global, written: &str, answer: &mut Answer) -> String {
    let mut word = String::new(alloc);
    let mut is_escaped = false;
    for letter in written.chars() {
        if letter == '\\' && !is_escaped {
            is_escaped = true;
        } else {
            let meant = if is_escaped {
                escaped(letter)
            } else {
                Some(letter)
            };
            if let Some(meant) = meant {
                answer.require(word.push(meant));
            }
            is_escaped = false;
        }
    }
    word
}

/// Writes a line, its line feeds and each `\` with escapes.
pub fn tell_line(line: &str, answer: &mut Answer) {
    for letter in line.chars() {
        match letter {
            '\n' => answer.push_str("\\n"),
            '\\' => answer.push_str("\\\\"),
            letter => write!(answer, "{letter}"),
        }
    }
}

/// Writes a word with escapes.
pub fn tell_word(word: &str, answer: &mut Answer) {
    if word.is_empty() {
        answer.push_str("\\e");
    }
    for letter in word.chars() {
        match letter {
            ' ' => answer.push_str("\\s"),
            '\n' => answer.push_str("\\n"),
            '\\' => answer.push_str("\\\\"),
            letter => write!(answer, "{letter}"),
        }
    }
}
