//! What holds of all that is said of words and texts. Each contract is a law; no function does anything.

ghost use Rattle.qt_host.specs.Said.{OneAnswer};
ghost use Rattle.qt_host.specs.Formatting as formatting;

/// Of words and texts exactly one answer is said.
pub fn one_answer()
    ensures { OneAnswer }
{}

/// Formatting is idempotent: where `format` answers `output` for a text, it answers `output` again for a text that is `output`, if
/// that is no longer than a text may be (1,048,576 bytes). Without that bound the round trip still holds of the tokens
/// (`qt_round_trip::laws::round_trip`).
pub fn format_is_idempotent(output: &str)
    ensures { formatting.FormatsAgain output.now }
{}

/// Formatting keeps the program: what is read of the canonical text is the same syntax tree, but for places.
pub fn format_keeps_the_program()
    ensures { formatting.KeepsTheProgram }
{}
