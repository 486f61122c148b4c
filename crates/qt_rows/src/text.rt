use std::alloc::{AllocError, Global};

/// The character that a letter behind a `\` stands for.
fn escaped(letter: char) -> char {
    match letter {
        'n' => '\n',
        'r' => '\r',
        't' => '\t',
        '0' => '\0',
        _ => letter,
    }
}

/// The text that a row writes with escapes: `\n`, `\r`, `\t`, `\0` and `\\` as in Rust.
pub fn unescaped(alloc: Global, written: &str) -> Result<String, AllocError> {
    let mut text = String::new(alloc);
    let mut is_escaped = false;
    for letter in written.chars() {
        if letter == '\\' && !is_escaped {
            is_escaped = true;
        } else {
            text.push(if is_escaped { escaped(letter) } else { letter })?;
            is_escaped = false;
        }
    }
    Ok(text)
}
