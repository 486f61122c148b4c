//! A law of texts, for those who build on it. The function does nothing: what it promises is the law.
ghost use Rattle.qt_lex.specs.Theorems.{HasOneReading};

/// A text gives exactly one list of tokens, or has exactly one place to blame, and never both.
pub fn one_reading(text: &str, file: u16)
    ensures { HasOneReading text.now file }
{}
