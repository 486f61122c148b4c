//! Tokens one by one, with what stands between them.

ghost use Rattle.std.specs.Prelude.{◌≡◌, ◌+◌, ◌-◌, ◌||◌, eqb, ◌<◌, ◌≤◌, ◌^◌, ℕ, true, false, length, codes, Ok, Err, IfOk, IfSome, IfNone};
ghost use Rattle.qt_lex.specs.Bytes as bytes;
ghost use Rattle.qt_lex.specs.Bytes.{byte};
ghost use Rattle.qt_lex.specs.Tokens as spec;
ghost use Rattle.qt_lex.specs.Tokens.{LongestToken, NoToken, GivesTokens, FailsAt, AreWithin, EndsAt};
ghost use Rattle.qt_lex.specs.Answers.{GapIs};
ghost use Rattle.qt_tree.specs.declared.place.Place.{Place};
ghost use Rattle.qt_lex.specs.declared.tokens.Kind.{Kind};
ghost use Rattle.qt_lex.specs.declared.tokens.LexRefusal.TheVariants as refusal;

use crate::bits::is_long_bit_string;
use crate::number::number_at;
use crate::spellings::{CONSTANTS, EULER_SIGNS, RESERVED_WORDS, SYMBOLS};
use crate::tokens::{Kind, LexRefusal, Token};
use qt_scan::bytes::{byte_at, is_blank, is_digit, is_name_start};
use qt_scan::runs::{digits_end, letters_end, longest_in, word_end};
use qt_tree::place::Place;
use std::alloc::Global;

/// The longest token at a place where a name may begin.
fn word_at(text: &[u8], at: usize) -> (Kind, usize)
    requires word { bytes.is_name_start (byte text.now at) ≡ true }
    requires within { at < length text.now }
    ensures token { LongestToken (byte text.now) result.0 at result.1 }
    ensures ahead { at < result.1 }
    ensures inside { result.1 ≤ length text.now }
{
    let end = word_end(text, at + 1);
    if longest_in(text, at, &RESERVED_WORDS) == end - at {
        (Kind::Reserved, end)
    } else if longest_in(text, at, &CONSTANTS) == end - at {
        (Kind::Constant, end)
    } else {
        (Kind::Name, end)
    }
}

/// The place behind the text in quotes that begins at a place.
fn text_end(text: &[u8], at: usize) -> Option<usize>
    requires quote { bytes.is_quote (byte text.now at) ≡ true }
    requires within { at < length text.now }
    ensures some { IfSome result (λ end. spec.IsText (byte text.now) at end) }
    ensures inside { IfSome result (λ end. end ≤ length text.now) }
    ensures ahead { IfSome result (λ end. at + 1 < end) }
    ensures none { IfNone result ((k : ℕ) → spec.IsText (byte text.now) at k → ⊥) }
{
    let quote = byte_at(text, at);
    let mut end = at + 1;
    'end: while end < text.len() {
        let byte = byte_at(text, end);
        if byte == quote {
            return Some(end + 1);
        }
        if byte == b'\n' {
            return None;
        }
        end += 1;
    }
    None
}

/// The longest token at a place where a quote stands: a text, or a bit string that is too wide.
fn quoted_at(text: &[u8], at: usize) -> Option<(Kind, usize)>
    requires quote { bytes.is_quote (byte text.now at) ≡ true }
    requires within { at < length text.now }
    ensures some { IfSome result (λ found. LongestToken (byte text.now) found.0 at found.1) }
    ensures ahead { IfSome result (λ found. at < found.1) }
    ensures inside { IfSome result (λ found. found.1 ≤ length text.now) }
    ensures none { IfNone result (NoToken (byte text.now) at) }
{
    let Some(end) = text_end(text, at) else {
        return None;
    };
    if is_long_bit_string(text, at + 1, end - 1) {
        Some((Kind::Wide, end))
    } else {
        Some((Kind::Text, end))
    }
}

/// The longest token at a place where `$` stands.
fn hardware_at(text: &[u8], at: usize) -> Option<(Kind, usize)>
    requires sign { byte text.now at ≡ 36 }
    requires within { at < length text.now }
    ensures some { IfSome result (λ found. LongestToken (byte text.now) found.0 at found.1) }
    ensures ahead { IfSome result (λ found. at < found.1) }
    ensures inside { IfSome result (λ found. found.1 ≤ length text.now) }
    ensures none { IfNone result (NoToken (byte text.now) at) }
{
    let end = digits_end(text, at + 1);
    if end == at + 1 {
        return None;
    }
    Some((Kind::Hardware, end))
}

/// The longest token at a place where `#` stands.
fn hash_at(text: &[u8], at: usize) -> Option<(Kind, usize)>
    requires sign { byte text.now at ≡ 35 }
    requires within { at < length text.now }
    ensures some { IfSome result (λ found. LongestToken (byte text.now) found.0 at found.1) }
    ensures ahead { IfSome result (λ found. at < found.1) }
    ensures inside { IfSome result (λ found. found.1 ≤ length text.now) }
    ensures none { IfNone result (NoToken (byte text.now) at) }
{
    let end = letters_end(text, at + 1);
    if end == at + 1 {
        return None;
    }
    Some((Kind::Hash, end))
}

/// The longest token at a place where none of the other kinds may begin: a symbol, or a sign outside ASCII.
fn sign_at(text: &[u8], at: usize) -> Option<(Kind, usize)>
    requires no_word { bytes.is_name_start (byte text.now at) ≡ false }
    requires no_number { (bytes.is_digit (byte text.now at) || eqb (byte text.now at) 46) ≡ false }
    requires no_quote { bytes.is_quote (byte text.now at) ≡ false }
    requires no_mark { (eqb (byte text.now at) 36 || eqb (byte text.now at) 35) ≡ false }
    requires within { at < length text.now }
    ensures some { IfSome result (λ found. LongestToken (byte text.now) found.0 at found.1) }
    ensures ahead { IfSome result (λ found. at < found.1) }
    ensures inside { IfSome result (λ found. found.1 ≤ length text.now) }
    ensures none { IfNone result (NoToken (byte text.now) at) }
{
    let symbol = longest_in(text, at, &SYMBOLS);
    if symbol > 0 {
        return Some((Kind::Symbol, at + symbol));
    }
    let constant = longest_in(text, at, &CONSTANTS);
    if constant > 0 {
        return Some((Kind::Constant, at + constant));
    }
    let euler = longest_in(text, at, &EULER_SIGNS);
    if euler > 0 {
        return Some((Kind::Euler, at + euler));
    }
    None
}

/// The longest token at a place, by its kind and its end.
pub(crate) fn token_at(text: &[u8], at: usize) -> Option<(Kind, usize)>
    requires { at < length text.now }
    ensures some { IfSome result (λ found. LongestToken (byte text.now) found.0 at found.1) }
    ensures ahead { IfSome result (λ found. at < found.1) }
    ensures inside { IfSome result (λ found. found.1 ≤ length text.now) }
    ensures none { IfNone result (NoToken (byte text.now) at) }
{
    let first = byte_at(text, at);
    if is_name_start(first) {
        return Some(word_at(text, at));
    }
    if is_digit(first) || first == b'.' {
        return number_at(text, at);
    }
    if first == b'"' || first == b'\'' {
        return quoted_at(text, at);
    }
    if first == b'$' {
        return hardware_at(text, at);
    }
    if first == b'#' {
        return hash_at(text, at);
    }
    sign_at(text, at)
}

/// The end of the line, or of the text.
fn line_end(text: &[u8], at: usize) -> usize
    requires { at ≤ length text.now }
    ensures { spec.IsLineEnd (byte text.now) (length text.now) at result }
{
    let mut end = at;
    'end: while end < text.len() && byte_at(text, end) != b'\n' {
        end += 1;
    }
    end
}

/// The first place from `at` on where a comment closes.
fn closing(text: &[u8], at: usize) -> Option<usize>
    requires { at ≤ length text.now }
    ensures some { IfSome result (λ m. spec.FirstAt (byte text.now) (codes "*/") at m) }
    ensures within { IfSome result (λ m. m + 2 ≤ length text.now) }
    ensures none { IfNone result ((k : ℕ) → at ≤ k → bytes.stands (byte text.now) (codes "*/") k ≡ false) }
{
    let mut end = at;
    'end: while end < text.len() {
        if byte_at(text, end) == b'*' && byte_at(text, end + 1) == b'/' {
            return Some(end);
        }
        end += 1;
    }
    None
}

/// What may stand at a place between tokens: nothing, a blank or a comment up to its end, or a comment that isn't closed.
#[derive(Clone, Copy, Debug)]
pub(crate) enum Gap {
    Solid,
    Ends(usize),
    Open,
}

/// The blank or comment that begins at a place.
pub(crate) fn gap_at(text: &[u8], at: usize) -> Gap
    requires { at < length text.now }
    ensures { GapIs text.now at result }
{
    let first = byte_at(text, at);
    if is_blank(first) {
        return Gap::Ends(at + 1);
    }
    if first != b'/' {
        return Gap::Solid;
    }
    match byte_at(text, at + 1) {
        b'/' => Gap::Ends(line_end(text, at + 2)),
        b'*' => match closing(text, at + 2) {
            Some(end) => Gap::Ends(end + 2),
            None => Gap::Open,
        },
        _ => Gap::Solid,
    }
}

/// The place of the character at `to`, where `place` is that of the character at `from`.
pub(crate) fn place_after(text: &[u8], place: Place, from: usize, to: usize) -> Place
    requires place { place ≡ spec.place_of (byte text.now) place.file from }
    requires ahead { from ≤ to }
    requires within { to ≤ length text.now }
    requires small { length text.now ≤ 2 ^ 31 }
    ensures { result ≡ spec.place_of (byte text.now) place.file to }
{
    let mut line = place.line;
    let mut column = place.column;
    for at in from..to {
        let here = byte_at(text, at);
        if here == b'\n' {
            line += 1;
            column = 1;
        } else if !(128 <= here && here <= 191) {
            column += 1;
        }
    }
    Place {
        file: place.file,
        line,
        column,
    }
}

/// The tokens of a text's bytes, as `lex` gives them.
fn tokens_of(alloc: Global, text: &[u8], file: u16) -> Result<Vec<Token>, LexRefusal>
    requires { length text.now ≤ 2 ^ 31 }
    ensures tokens { IfOk result (λ tokens. GivesTokens text.now file tokens.items) }
    ensures spans { IfOk result (λ tokens. AreWithin (length text.now) tokens.items) }
    ensures last { IfOk result (λ tokens. EndsAt (length text.now) tokens.items) }
    ensures refusal { (place : Place) → result ≡ Err (refusal.Token place) → FailsAt text.now file place }
{
    let mut tokens = Vec::new(alloc);
    let mut at = 0;
    let mut place = Place {
        file,
        line: 1,
        column: 1,
    };
    'text: while at < text.len() {
        match gap_at(text, at) {
            Gap::Open => return Err(LexRefusal::Token(place)),
            Gap::Ends(end) => {
                place = place_after(text, place, at, end);
                at = end;
            }
            Gap::Solid => match token_at(text, at) {
                None => return Err(LexRefusal::Token(place)),
                Some((kind, end)) => {
                    tokens.push(Token {
                        kind,
                        start: at,
                        end,
                        place,
                    })?;
                    place = place_after(text, place, at, end);
                    at = end;
                }
            },
        }
    }
    tokens.push(Token {
        kind: Kind::End,
        start: at,
        end: at,
        place,
    })?;
    Ok(tokens)
}

/// The tokens of a text, and a token of kind `End` behind the last. Where the text has none, the refusal names the place of
/// the first character where no token begins, or of the first comment or text in quotes that isn't closed. `file` is the
/// number of the text in all places.
pub fn lex(alloc: Global, text: &str, file: u16) -> Result<Vec<Token>, LexRefusal>
    requires { length text.now ≤ 2 ^ 31 }
    ensures tokens { IfOk result (λ tokens. GivesTokens text.now file tokens.items) }
    ensures spans { IfOk result (λ tokens. AreWithin (length text.now) tokens.items) }
    ensures last { IfOk result (λ tokens. EndsAt (length text.now) tokens.items) }
    ensures refusal { (place : Place) → result ≡ Err (refusal.Token place) → FailsAt text.now file place }
{
    tokens_of(alloc, text.as_bytes(), file)
}
