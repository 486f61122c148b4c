//! New names.

ghost use Rattle.std.specs.Prelude.{◌≡◌, IfOk};
ghost use Rattle.qt_typing.specs.Checked.{Gives, Makes};
ghost use Rattle.qt_typing.specs.Declarations.{new_name};
ghost use Rattle.qt_typing.specs.Environment.{declare, declare_in_both, named_in};
ghost use Rattle.qt_check_declarations.specs.Changing.{Becomes};

use qt_const_rules::consts::Known;
use qt_names::named::Named;
use qt_outside::faults::OutOfMemory;
use qt_tree::label::Label;
use qt_tree::place::Place;
use qt_tree::refusal::TextRefusal;
use qt_typing::names::Names;
use qt_typing::state::State;
use std::alloc::Global;

/// That a name doesn't stand in the innermost scope: E9 exactly where it does.
#[tactic(auto, unfolding(qt_typing::specs::Declarations::new_name))]
pub fn new_name(alloc: Global, names: &Names, place: Place, name: &str) -> Result<(), TextRefusal>
    ensures { Gives (new_name place name.now names.now) result }
{
    if names.scopes.declares(name) {
        return Err(TextRefusal::E9(place, Label::new(alloc, name)?));
    }
    Ok(())
}

/// Adds a name to the innermost scope, with what is known of it. E9 exactly where it stands there already.
#[tactic(auto, unfolding(qt_typing::specs::Environment::named_in))]
pub fn named_in(
    names: &mut Names,
    place: Place,
    name: &str,
    named: Named,
    known: Known,
) -> Result<(), TextRefusal>
    ensures { Becomes (named_in place name.now named known names.old) result names.new }
{
    names.scopes.declare(name, named, place)?;
    Ok(names.consts.push(name, known)?)
}

/// The same of the names that a statement sees.
#[tactic(auto, unfolding(qt_typing::specs::Environment::declare))]
pub fn declare(
    state: &mut State,
    place: Place,
    name: &str,
    named: Named,
    known: Known,
) -> Result<(), TextRefusal>
    ensures { Makes (declare place name.now named known state.old) result state.new }
{
    named_in(&mut state.names, place, name, named, known)
}

/// What is known of a name, once more.
fn known_again(alloc: Global, known: &Known) -> Result<Known, OutOfMemory>
    ensures { IfOk result (λ again. again ≡ known.now) }
{
    match known {
        Known::Constant(value) => Ok(Known::Constant(*value)),
        Known::Lengths(lengths) => Ok(Known::Lengths(lengths.copied(alloc)?)),
        Known::Other => Ok(Known::Other),
        Known::Subroutine => Ok(Known::Subroutine),
        Known::Hidden => Ok(Known::Hidden),
    }
}

/// Adds a name that the bodies of subroutines and gates see too.
#[tactic(auto, unfolding(qt_typing::specs::Environment::declare_in_both))]
pub fn declare_in_both(
    alloc: Global,
    state: &mut State,
    place: Place,
    name: &str,
    named: Named,
    known: Known,
) -> Result<(), TextRefusal>
    ensures { Makes (declare_in_both place name.now named known state.old) result state.new }
{
    let (seen, known_too) = (named.copied(alloc)?, known_again(alloc, &known)?);
    named_in(&mut state.names, place, name, named, known)?;
    named_in(&mut state.inside, place, name, seen, known_too)
}
