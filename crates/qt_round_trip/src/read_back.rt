//! The canonical text of a program, read again.

ghost use Rattle.std.specs.Prelude.{◌≡◌, MatchResult};
ghost use Rattle.qt_print.specs.Text.{canonical};
ghost use Rattle.qt_round_trip.specs.declared.read_back.Unread.TheVariants.{OutOfMemory};
ghost use Rattle.qt_round_trip.specs.Places.{SameButPlaces};
ghost use Rattle.qt_round_trip.specs.ReadBack.{WasRead, IsTextOf, IsUnread, unread_of};

use qt_lex::lexer::lex;
use qt_lex::tokens::LexRefusal;
use qt_lookahead::refusal::ParseRefusal;
use qt_outside::faults;
use qt_parse::parser::parse;
use qt_print::print;
use qt_tree::place::Place;
use qt_tree::program::Program;
use qt_tree::refusal::Feature;
use std::alloc::Global;

/// The most bytes that a canonical text may have to be read again.
const MOST_BYTES: usize = 2147483648;

/// Why a canonical text isn't read again, with the place in it.
#[derive(Clone, Copy, Debug, PartialEq, Eq)]
pub enum Unread {
    /// It has more than 2^31 bytes.
    Long,
    /// The character at the place begins no token.
    Token(Place),
    /// The tokens before this one are the longest list that opens a program, and they aren't one.
    Syntax(Place),
    /// The token stands too deep, or is an operator too many, and no token before it is.
    Nest(Place),
    /// As for Syntax, but the token is of a feature that the profile leaves out.
    NotInProfile(Place, Feature),
    /// No memory was left.
    OutOfMemory,
}

impl From<faults::OutOfMemory> for Unread {
    ghost use Rattle.std.specs.Prelude.{◌≡◌};
    ghost use Rattle.qt_round_trip.specs.declared.read_back.Unread.TheVariants.{OutOfMemory};

    ghost from_gives = { λ _ e. e ≡ OutOfMemory };

    fn from(_: faults::OutOfMemory) -> Unread {
        Unread::OutOfMemory
    }
}

/// A refusal of the tokens as one of their text.
fn refused(refusal: ParseRefusal) -> Unread
    ensures { result ≡ unread_of refusal }
{
    match refusal {
        ParseRefusal::Syntax(place) => Unread::Syntax(place),
        ParseRefusal::Nest(place) => Unread::Nest(place),
        ParseRefusal::NotInProfile(place, feature) => Unread::NotInProfile(place, feature),
        ParseRefusal::OutOfMemory => Unread::OutOfMemory,
    }
}

/// The program of a text with this number, or why there is none.
fn read_text(alloc: Global, text: &str, file: u16) -> Result<Program, Unread>
    ensures { MatchResult result (IsTextOf file text.now) (IsUnread file text.now) }
{
    if text.len() > MOST_BYTES {
        return Err(Unread::Long);
    }
    let tokens = match lex(alloc, text, file) {
        Ok(tokens) => tokens,
        Err(LexRefusal::Token(place)) => return Err(Unread::Token(place)),
        Err(LexRefusal::OutOfMemory) => return Err(Unread::OutOfMemory),
    };
    match parse(alloc, text, tokens.as_slice()) {
        Ok(program) => Ok(program),
        Err(refusal) => Err(refused(refusal)),
    }
}

/// Prints a program and reads the program of the printed text, which has that number.
///
/// Of a program that was read from a text of at most 2^20 bytes it answers the same program but for places, and it refuses nothing
/// then but for want of memory. Of any other program it answers that of the printed text, if it is the text of one; else it
/// refuses the text at the place that is at fault.
#[tactic(auto, using(crate::proofs::Back::same_back))]
pub fn read_back(alloc: Global, program: &Program, file: u16) -> Result<Program, Unread>
    ensures read { MatchResult result (IsTextOf file (canonical program.now)) (IsUnread file (canonical program.now)) }
    ensures same { WasRead program.now → MatchResult result (SameButPlaces program.now) (λ why. why ≡ OutOfMemory) }
{
    let text = print(alloc, program)?;
    read_text(alloc, text.as_str(), file)
}
