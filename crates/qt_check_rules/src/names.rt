//! What names stand for, and what a name without a value is refused for.

ghost use Rattle.std.specs.Prelude.{◌≡◌, ◌≢◌, Err};
ghost use Rattle.std.specs.Option.{option_copied};
ghost use Rattle.qt_tree.specs.declared.refusal.TextRefusal.TheVariants as refusal;
ghost use Rattle.qt_typing.specs.Checked.{Gives};
ghost use Rattle.qt_typing.specs.Expressions as spec;

use qt_const_rules::builtins::{Builtin, builtin_of};
use qt_const_rules::consts::Known;
use qt_names::named::{Named, What};
use qt_tree::label::Label;
use qt_tree::place::Place;
use qt_tree::refusal::{Cause, TextRefusal};
use qt_typing::names::Names;
use qt_value::constant::ConstValue;
use std::alloc::Global;

/// The refusal of a name that has no value: E8, or want of memory for the name.
pub fn unfit(alloc: Global, place: Place, name: &Label) -> TextRefusal
    ensures { result ≢ refusal.OutOfMemory → result ≡ refusal.E8 place name.now }
{
    match name.copied(alloc) {
        Ok(name) => TextRefusal::E8(place, name),
        Err(_) => TextRefusal::OutOfMemory,
    }
}

/// A constant by its value.
#[tactic(auto, unfolding(qt_typing::specs::Expressions::named_constant))]
pub fn named_constant(
    alloc: Global,
    names: &Names,
    place: Place,
    name: &Label,
) -> Result<ConstValue, TextRefusal>
    ensures { Gives (spec.named_constant names.now place name.now) result }
{
    match names.consts.known(name.text()) {
        Some(Known::Constant(constant)) => Ok(*constant),
        Some(Known::Lengths(lengths)) if lengths.items().len() > 0 => Err(TextRefusal::E10(place)),
        Some(Known::Lengths(_)) => Err(TextRefusal::E12(place, Cause::Variable)),
        Some(Known::Other) => Err(TextRefusal::E12(place, Cause::Variable)),
        Some(Known::Subroutine) => Err(unfit(alloc, place, name)),
        Some(Known::Hidden) => Err(unfit(alloc, place, name)),
        None => Err(unfit(alloc, place, name)),
    }
}

/// The refusal of a call of a name that stands for something: a subroutine's is no part of an expression.
fn hidden_call(alloc: Global, place: Place, name: &Label, what: What) -> TextRefusal
    ensures { result ≢ refusal.OutOfMemory → spec.hidden_call place name.now what ≡ Err result }
{
    match what {
        What::Subroutine => TextRefusal::E11(place, Cause::Call),
        _ => unfit(alloc, place, name),
    }
}

/// The function of the language that a name calls, where no name hides it.
#[tactic(auto, unfolding(qt_typing::specs::Expressions::builtin_at))]
pub fn builtin_at(
    alloc: Global,
    place: Place,
    name: &Label,
    known: Option<&Named>,
) -> Result<Builtin, TextRefusal>
    ensures { Gives (spec.builtin_at place name.now (option_copied known.entry)) result }
{
    match known {
        Some(it) => Err(hidden_call(alloc, place, name, it.what)),
        None => match builtin_of(name.text()) {
            Some(builtin) => Ok(builtin),
            None => Err(unfit(alloc, place, name)),
        },
    }
}
