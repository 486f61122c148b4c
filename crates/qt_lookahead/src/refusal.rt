//! Why tokens aren't read, by place.

ghost use Rattle.std.specs.Prelude.{◌≡◌};
ghost use Rattle.qt_lookahead.specs.Refusals.{located};

use qt_grammar::refusal::Refusal;
use qt_outside::faults;
use qt_terminals::stream::TokenStream;
use qt_tree::place::Place;
use qt_tree::refusal::Feature;
use std::alloc::{AllocError, AllocFailed};

/// Why no tree is read from tokens, with the place of the token at fault.
#[derive(Clone, Copy, Debug, PartialEq, Eq)]
pub enum ParseRefusal {
    /// E4: the tokens before this one are the longest list that opens the form, and they aren't the form.
    Syntax(Place),
    /// E5: the token stands too deep, or is an operator too many, and no token before it is.
    Nest(Place),
    /// E6: as E4, but the token is of a feature that the profile leaves out.
    NotInProfile(Place, Feature),
    /// No memory was left.
    OutOfMemory,
}

impl From<faults::OutOfMemory> for ParseRefusal {
    ghost use Rattle.std.specs.Prelude.{◌≡◌};
    ghost use Rattle.qt_lookahead.specs.declared.refusal.ParseRefusal.TheVariants.{OutOfMemory};

    ghost from_gives = { λ _ e. e ≡ OutOfMemory };

    fn from(_: faults::OutOfMemory) -> ParseRefusal {
        ParseRefusal::OutOfMemory
    }
}

impl From<AllocError> for ParseRefusal {
    ghost use Rattle.std.specs.Prelude.{◌≡◌};
    ghost use Rattle.qt_lookahead.specs.declared.refusal.ParseRefusal.TheVariants.{OutOfMemory};

    ghost from_gives = { λ _ e. e ≡ OutOfMemory };

    fn from(_: AllocError) -> ParseRefusal {
        ParseRefusal::OutOfMemory
    }
}

impl<T: Drop> From<AllocFailed<T>> for ParseRefusal {
    ghost use Rattle.std.specs.Prelude.{◌≡◌};
    ghost use Rattle.qt_lookahead.specs.declared.refusal.ParseRefusal.TheVariants.{OutOfMemory};

    ghost from_gives = { λ _ e. e ≡ OutOfMemory };

    fn from(_e: AllocFailed<T>) -> ParseRefusal {
        ParseRefusal::OutOfMemory
    }
}

/// The refusal by place: where a token stops the reading that is of a feature that the profile leaves out, NotInProfile with that
/// feature. An `@` is none of these tokens here: it is refused as an annotation only where a statement could begin.
pub fn located(tokens: &TokenStream<'_>, refusal: Refusal) -> ParseRefusal
    ensures { result ≡ located tokens.now refusal }
{
    match refusal {
        Refusal::Syntax(at) => match tokens.terminal(at).feature() {
            Some(feature) => ParseRefusal::NotInProfile(tokens.place(at), feature),
            None => ParseRefusal::Syntax(tokens.place(at)),
        },
        Refusal::Nest(at) => ParseRefusal::Nest(tokens.place(at)),
        Refusal::OutOfMemory => ParseRefusal::OutOfMemory,
    }
}
