//! From the bytes of a text to its program.

ghost use Rattle.std.specs.Prelude.{◌≡◌, ◌≤◌, ℕ, length, IfOk, IfErr, MatchResult};
ghost use Rattle.std.specs.Str.{IsUtf8};
ghost use Rattle.qt_read.specs.Reading.{IsTextOfProgram, IsReason, most_bytes};

use qt_lex::lexer::lex;
use qt_lex::tokens::LexRefusal;
use qt_lookahead::refusal::ParseRefusal;
use qt_parse::parser::parse;
use qt_tree::label::Label;
use qt_tree::program::Program;
use qt_tree::refusal::TextRefusal;
use std::alloc::Global;

/// The most bytes that a text may have.
pub const MOST_BYTES: usize = 1048576;

/// The characters of a text. It is refused where it has too many bytes, else where it isn't UTF-8.
fn characters<'a>(alloc: Global, name: &str, bytes: &'a [u8]) -> Result<&'a str, TextRefusal>
    ensures text { IfOk result (λ text. (text.now ≡ bytes.now) × (length bytes.now ≤ most_bytes) × IsUtf8 bytes.now) }
    ensures reason { (file : ℕ) → IfErr result (IsReason name.now file bytes.now) }
{
    if bytes.len() > MOST_BYTES {
        return Err(TextRefusal::E2(Label::new(alloc, name)?));
    }
    match str::from_utf8(bytes) {
        Ok(text) => Ok(text),
        Err(error) => {
            let count = error.valid_up_to() as u64;
            Err(TextRefusal::E1(Label::new(alloc, name)?, count))
        }
    }
}

/// The program that a text spells, or why it spells none. `file` is the number of the text, which is that of all its places.
/// A text is refused for the first of these reasons: it has more than [`MOST_BYTES`] bytes (E2), it isn't UTF-8 (E1), it has no
/// tokens (E3), its tokens spell no program (E4, E5, E6); and for want of memory.
pub fn read(alloc: Global, name: &str, file: u16, bytes: &[u8]) -> Result<Program, TextRefusal>
    ensures { MatchResult result (IsTextOfProgram file bytes.now) (IsReason name.now file bytes.now) }
{
    let text = match characters(alloc, name, bytes) {
        Ok(text) => text,
        Err(refusal) => return Err(refusal),
    };
    let tokens = match lex(alloc, text, file) {
        Ok(tokens) => tokens,
        Err(LexRefusal::Token(place)) => return Err(TextRefusal::E3(place)),
        Err(LexRefusal::OutOfMemory) => return Err(TextRefusal::OutOfMemory),
    };
    match parse(alloc, text, tokens.as_slice()) {
        Ok(program) => Ok(program),
        Err(ParseRefusal::Syntax(place)) => Err(TextRefusal::E4(place)),
        Err(ParseRefusal::Nest(place)) => Err(TextRefusal::E5(place)),
        Err(ParseRefusal::NotInProfile(place, feature)) => Err(TextRefusal::E6(place, feature)),
        Err(ParseRefusal::OutOfMemory) => Err(TextRefusal::OutOfMemory),
    }
}
