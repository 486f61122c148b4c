//! The line of words that ask for nothing that is served.

ghost use Rattle.std.specs.Prelude.{◌≡◌, map, string_bytes, IfOk};
ghost use Rattle.qt_words.specs.Lines.{unserved_line, mode_line};

use std::alloc::{AllocError, Global};

/// The line of a word that is no mode.
fn mode_line(alloc: Global, mode: &str) -> Result<String, AllocError>
    ensures { IfOk result (λ line. string_bytes line ≡ mode_line mode.now) }
{
    let mut line = String::from_str(alloc, "W2 mode ")?;
    line.push_str(mode)?;
    line.push('\n')?;
    Ok(line)
}

/// The line of words that ask for nothing that is served: `W2` tells the first of two words, and `W1` that there aren't two.
pub fn unserved_line(alloc: Global, words: &[String]) -> Result<String, AllocError>
    ensures { IfOk result (λ line. string_bytes line ≡ unserved_line (map string_bytes words.now)) }
{
    match words {
        [mode, _] => mode_line(alloc, mode.as_str()),
        _ => String::from_str(alloc, "W1 words\n"),
    }
}
