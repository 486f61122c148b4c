//! The lines of refused words.

ghost use Rattle.std.specs.Prelude.{◌≡◌, ◌++◌, string_bytes, IfOk, codes};
ghost use Rattle.qt_command.specs.Lines.{refusal_line};

use crate::arguments::WordsRefusal;
use qt_outside::faults::OutOfMemory;
use std::alloc::Global;

/// Two words and a line feed.
fn line_with(alloc: Global, before: &str, word: &str) -> Result<String, OutOfMemory>
    ensures { IfOk result (λ line. string_bytes line ≡ before.now ++ word.now ++ codes "\n") }
{
    let mut line = String::from_str(alloc, before)?;
    line.push_str(word)?;
    line.push_str("\n")?;
    Ok(line)
}

/// The line that tells a refusal, ended by a line feed.
#[tactic(auto, unfolding(crate::specs::Lines::refusal_line))]
pub fn refusal_line(alloc: Global, refusal: &WordsRefusal) -> Result<String, OutOfMemory>
    ensures { IfOk result (λ line. string_bytes line ≡ refusal_line refusal.now) }
{
    match refusal {
        WordsRefusal::Words => line_with(alloc, "W1 words", ""),
        WordsRefusal::Mode { word } => line_with(alloc, "W2 mode ", word.text()),
        WordsRefusal::Number { option } => line_with(alloc, "W3 number ", option.name()),
        WordsRefusal::Setting { word } => line_with(alloc, "W4 setting ", word.text()),
        WordsRefusal::OutOfMemory => line_with(alloc, "M1 memory", ""),
    }
}
