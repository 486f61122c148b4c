//! Values that are written: those of ranges and sets.

ghost use Rattle.std.specs.Prelude.{◌≡◌, [], IfOk};
ghost use Rattle.std.specs.Option.{option_copied};
ghost use Rattle.qt_typed.specs.declared.statement.TypedSequence.TheVariants as sequence;
ghost use Rattle.qt_typing.specs.Checked.{Gives};
ghost use Rattle.qt_typing.specs.Statements as spec;

use qt_check_indexes::single::whole_index;
use qt_check_operands::expression::typed;
use qt_const::modes::Mode;
use qt_outside::faults::OutOfMemory;
use qt_tree::expression::{Expr, Range};
use qt_tree::place::Place;
use qt_tree::refusal::TextRefusal;
use qt_typed::expression::TypedExpr;
use qt_typed::statement::TypedSequence;
use qt_typing::names::Names;
use sqlite_items::{Boxed, Items};
use std::alloc::Global;

/// A value that a loop's variable takes: E10 where it is no whole number.
#[tactic(auto, unfolding(qt_typing::specs::Statements::loop_value))]
pub fn loop_value(
    alloc: Global,
    names: &Names,
    place: Place,
    expr: &Expr,
) -> Result<Boxed<TypedExpr>, TextRefusal>
    ensures { Gives (spec.loop_value place expr.now names.now) result }
{
    let of = typed(alloc, names, Mode::Plain, place, expr)?;
    whole_index(place, true, of)
}

/// The first or last value of a range: E10 where none is written.
#[tactic(auto, unfolding(qt_typing::specs::Statements::bound))]
fn bound(
    alloc: Global,
    names: &Names,
    place: Place,
    expr: Option<&Expr>,
) -> Result<Boxed<TypedExpr>, TextRefusal>
    ensures { Gives (spec.bound place (option_copied expr.entry) names.now) result }
{
    match expr {
        None => Err(TextRefusal::E10(place)),
        Some(expr) => loop_value(alloc, names, place, expr),
    }
}

/// The step of a range, if one is written.
#[tactic(auto, unfolding(qt_typing::specs::Statements::optional_value))]
fn optional_value(
    alloc: Global,
    names: &Names,
    place: Place,
    expr: Option<&Expr>,
) -> Result<Option<Boxed<TypedExpr>>, TextRefusal>
    ensures { Gives (spec.optional_value place (option_copied expr.entry) names.now) result }
{
    match expr {
        None => Ok(None),
        Some(expr) => Ok(Some(loop_value(alloc, names, place, expr)?)),
    }
}

/// A range by its first value, its step and its last value.
fn range_of(
    alloc: Global,
    first: Boxed<TypedExpr>,
    step: Option<Boxed<TypedExpr>>,
    last: Boxed<TypedExpr>,
) -> Result<Boxed<TypedSequence>, OutOfMemory>
    ensures { IfOk result (λ values. values ≡ sequence.Range first step last) }
{
    let step = match step {
        None => None,
        Some(step) => Some(step.into_inner()),
    };
    let (first, last) = (first.into_inner(), last.into_inner());
    Ok(Boxed::new(alloc, TypedSequence::Range { first, step, last })?)
}

/// The values of a range, whose first and last value are written: else E10.
#[tactic(auto, unfolding(qt_typing::specs::Statements::range_values))]
pub fn range_values(
    alloc: Global,
    names: &Names,
    place: Place,
    range: &Range,
) -> Result<Boxed<TypedSequence>, TextRefusal>
    ensures { Gives (spec.range_values place range.now names.now) result }
{
    let first = bound(alloc, names, place, range.start.as_ref())?;
    let step = optional_value(alloc, names, place, range.step.as_ref())?;
    let last = bound(alloc, names, place, range.end.as_ref())?;
    Ok(range_of(alloc, first, step, last)?)
}

/// The members of a set, in order.
#[tactic(auto, unfolding(qt_typing::specs::Statements::members_from))]
pub fn members_of(
    alloc: Global,
    names: &Names,
    place: Place,
    mut members: &[Expr],
) -> Result<Items<TypedExpr>, TextRefusal>
    ensures { Gives (spec.members_from place [] members.entry.now names.now) result }
{
    let mut forms = Items::new(alloc);
    while let [member, rest @ ..] = members {
        let form = loop_value(alloc, names, place, member)?;
        forms.push(form.into_inner())?;
        members = rest;
    }
    Ok(forms)
}
