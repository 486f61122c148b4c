//! A law of texts, for those who build on it. The function does nothing: what it promises is the law.
ghost use Rattle.qt_read.specs.Reading.{HasOneOutcome};

/// A text is that of exactly one program, or is refused for exactly one reason, and never both.
pub fn one_outcome(name: &str, file: u16, text: &[u8])
    ensures { HasOneOutcome name.now file text.now }
{}
