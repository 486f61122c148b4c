ghost use Rattle.std.specs.Prelude.{◌≡◌};
ghost use Rattle.qt_const_rules.specs.Refusals.{refusal_of};

use qt_tree::label::Label;
use qt_tree::place::Place;
use qt_tree::refusal::{Cause, TextRefusal};

/// Why an expression has no constant value.
#[derive(Debug, Drop)]
pub enum ConstFault {
    /// No such name is in scope, or one of a kind that can't stand there.
    Name(Label),
    /// No operator, conversion, index or size fits.
    Type,
    /// A division of whole numbers leaves a rest where none may be left: inside a phase, or in the exponent of `pow`.
    Rest,
    /// A subroutine's call, which is no part of an expression.
    Call,
    /// A function of the language takes so many arguments, and so many are given.
    Arity(u32, u32),
    /// It isn't constant, divides by 0, isn't exact, or is out of range, as the cause says.
    Const(Cause),
}

impl ConstFault {
    /// The refusal of a text with the expression or the type at that place: E8 for a name, E10 for a type, E11 `call` for a
    /// subroutine's call, E14 for numbers of arguments, and else E12, which is `exact` for a rest.
    pub fn at(self, place: Place) -> TextRefusal
        ensures { result ≡ refusal_of place self }
    {
        match self {
            ConstFault::Name(name) => TextRefusal::E8(place, name),
            ConstFault::Type => TextRefusal::E10(place),
            ConstFault::Rest => TextRefusal::E12(place, Cause::Exact),
            ConstFault::Call => TextRefusal::E11(place, Cause::Call),
            ConstFault::Arity(wanted, given) => TextRefusal::E14(place, wanted, given),
            ConstFault::Const(cause) => TextRefusal::E12(place, cause),
        }
    }
}
