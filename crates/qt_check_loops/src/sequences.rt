//! What a `for` goes over.

ghost use Rattle.std.specs.Prelude.{◌≡◌};
ghost use Rattle.qt_typing.specs.Checked.{Gives};
ghost use Rattle.qt_typing.specs.Statements as spec;

use crate::names::named_values;
use crate::ranges::{members_of, range_values};
use qt_tree::place::Place;
use qt_tree::refusal::TextRefusal;
use qt_tree::statement::Sequence;
use qt_typed::statement::TypedSequence;
use qt_typing::names::Names;
use sqlite_items::Boxed;
use std::alloc::Global;

/// What a `for` goes over, or the first refusal from left to right. OpenQASM 3.0, "Classical instructions", for loops.
#[tactic(auto, unfolding(qt_typing::specs::Statements::values_of))]
pub fn values_of(
    alloc: Global,
    names: &Names,
    place: Place,
    values: &Sequence,
) -> Result<Boxed<TypedSequence>, TextRefusal>
    ensures { Gives (spec.values_of place values.now names.now) result }
{
    match values {
        Sequence::Range { range } => range_values(alloc, names, place, range),
        Sequence::Set { members } => {
            let members = members_of(alloc, names, place, members.as_slice())?;
            Ok(Boxed::new(alloc, TypedSequence::Set { members })?)
        }
        Sequence::Name { name } => {
            let it = names.scopes.find(name.text(), place)?;
            named_values(alloc, names, place, name, it)
        }
    }
}

/// How many slots a loop keeps behind its variable.
#[tactic(auto, unfolding(qt_typing::specs::Statements::kept))]
pub fn kept(values: &TypedSequence) -> u64
    ensures { result ≡ spec.kept values.now }
{
    match values {
        TypedSequence::Range { .. } => 3,
        TypedSequence::Set { members } => members.as_slice().len() as u64 + 1,
        TypedSequence::Array { length, .. } => u64::from(*length) + 1,
        TypedSequence::Bits { .. } => 2,
    }
}
