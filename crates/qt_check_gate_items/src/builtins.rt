//! Calls of the functions of the language.

ghost use Rattle.std.specs.Prelude.{◌≡◌, ◌≢◌, Err};
ghost use Rattle.std.specs.Option.{option_copied};
ghost use Rattle.qt_tree.specs.declared.refusal.TextRefusal.TheVariants as refusal;
ghost use Rattle.qt_typing.specs.Checked.{Gives};
ghost use Rattle.qt_typing.specs.Expressions as spec;

use qt_check_operands::names::unfit;
use qt_const_rules::builtins::{Builtin, builtin_of};
use qt_names::named::{Named, What};
use qt_tree::label::Label;
use qt_tree::place::Place;
use qt_tree::refusal::{Cause, TextRefusal};
use std::alloc::Global;

/// The refusal of a call of a name that stands for something: a subroutine's is no part of an expression.
fn hidden_call(alloc: Global, place: Place, name: &Label, what: What) -> TextRefusal
    ensures { result ≢ refusal.OutOfMemory → spec.hidden_call place name.now what ≡ Err result }
{
    match what {
        What::Subroutine => TextRefusal::E11(place, Cause::Call),
        _ => unfit(alloc, place, name),
    }
}

/// The function of the language that a name calls, where no name hides it.
#[tactic(auto, unfolding(qt_typing::specs::Expressions::builtin_at))]
pub(crate) fn builtin_at(
    alloc: Global,
    place: Place,
    name: &Label,
    known: Option<&Named>,
) -> Result<Builtin, TextRefusal>
    ensures { Gives (spec.builtin_at place name.now (option_copied known.entry)) result }
{
    match known {
        Some(it) => Err(hidden_call(alloc, place, name, it.what)),
        None => match builtin_of(name.text()) {
            Some(builtin) => Ok(builtin),
            None => Err(unfit(alloc, place, name)),
        },
    }
}
