ghost use Rattle.std.specs.Prelude.{◌≡◌};

use qt_tree::place::Place;
use std::alloc::{AllocError, AllocFailed};

/// What a token is. A `Constant` is `pi`, `tau`, `π` or `τ`; a `Wide` is a whole number above 2^64 - 1, or a text that holds
/// more than 64 binary digits; a `Euler` is `ℇ`.
#[derive(Clone, Copy, Debug, PartialEq, Eq)]
pub enum Kind {
    Name,
    Reserved,
    Integer,
    Wide,
    Decimal,
    Timing,
    Imaginary,
    Text,
    Hardware,
    Hash,
    Symbol,
    Constant,
    Euler,
    End,
}

/// One token: its kind, its span in bytes from `start` up to `end`, and the place of its first character. A token of kind
/// `End` has an empty span at the end of the text.
#[derive(Clone, Copy, Debug, PartialEq, Eq)]
pub struct Token {
    pub kind: Kind,
    pub start: usize,
    pub end: usize,
    pub place: Place,
}

/// Why a text has no tokens: at this place no token begins, or a comment or a text begins that isn't closed; or memory ran
/// out.
#[derive(Clone, Copy, Debug, PartialEq, Eq)]
pub enum LexRefusal {
    Token(Place),
    OutOfMemory,
}

impl From<AllocError> for LexRefusal {
    ghost use Rattle.qt_lex.specs.declared.tokens.LexRefusal.TheVariants.{OutOfMemory};

    ghost from_gives = { λ _ e. e ≡ OutOfMemory };

    fn from(_: AllocError) -> LexRefusal {
        LexRefusal::OutOfMemory
    }
}

impl<T: Drop> From<AllocFailed<T>> for LexRefusal {
    ghost use Rattle.qt_lex.specs.declared.tokens.LexRefusal.TheVariants.{OutOfMemory};

    ghost from_gives = { λ _ e. e ≡ OutOfMemory };

    fn from(_e: AllocFailed<T>) -> LexRefusal {
        LexRefusal::OutOfMemory
    }
}
