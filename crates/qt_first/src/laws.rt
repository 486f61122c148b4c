//! Laws of texts of the first form, for those who build on them. The functions do nothing: what they promise is the law.
ghost use Rattle.qt_first.specs.Laws.{HasOneReading, IsShort};

/// A text is that of one program at most.
pub fn one_reading(text: &[u8])
    ensures { HasOneReading text.now }
{}

/// The text of a program has at most 1,024 bytes.
pub fn short(text: &[u8])
    ensures { IsShort text.now }
{}
