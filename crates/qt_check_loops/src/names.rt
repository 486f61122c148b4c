//! Values of what a name stands for: an array of one dimension, or a bit register.

ghost use Rattle.qt_typing.specs.Checked.{Gives, and_then};
ghost use Rattle.qt_typing.specs.Expressions.{named_constant};
ghost use Rattle.qt_typing.specs.Statements as spec;

use qt_check_expressions::convert::constant;
use qt_check_operands::variables::storage_of;
use qt_check_rules::names::{named_constant, unfit};
use qt_names::named::{Named, What};
use qt_tree::label::Label;
use qt_tree::place::Place;
use qt_tree::refusal::TextRefusal;
use qt_typed::expression::TypedExpr;
use qt_typed::statement::TypedSequence;
use qt_typing::indexes::Storage;
use qt_typing::names::Names;
use qt_value::constant::ConstValue;
use qt_value::types::ValueType;
use sqlite_items::Boxed;
use std::alloc::Global;

/// The bits of a bit register: E10 of a value of another type.
fn scalar_bits(
    alloc: Global,
    place: Place,
    kind: ValueType,
    form: Boxed<TypedExpr>,
) -> Result<Boxed<TypedSequence>, TextRefusal>
    ensures { Gives (spec.scalar_bits place kind form) result }
{
    match kind {
        ValueType::Bit(width) => {
            let value = form.into_inner();
            Ok(Boxed::new(alloc, TypedSequence::Bits { width, value })?)
        }
        _ => Err(TextRefusal::E10(place)),
    }
}

/// The elements of an array of one dimension: E10 where they are no whole numbers.
fn elements(
    alloc: Global,
    place: Place,
    kind: ValueType,
    slot: u32,
    length: u32,
) -> Result<Boxed<TypedSequence>, TextRefusal>
    ensures { Gives (spec.elements place kind slot length) result }
{
    if !kind.is_whole() {
        return Err(TextRefusal::E10(place));
    }
    Ok(Boxed::new(alloc, TypedSequence::Array { kind, slot, length })?)
}

/// The values of what is kept in slots.
fn stored_values(
    alloc: Global,
    place: Place,
    it: &Storage,
) -> Result<Boxed<TypedSequence>, TextRefusal>
    ensures { Gives (spec.stored_values place it.now.kind it.now.slot it.now.lengths) result }
{
    let (kind, slot) = (it.kind, it.slot);
    match it.lengths.items() {
        [] => {
            let form = Boxed::new(alloc, TypedExpr::Slot { kind, slot })?;
            scalar_bits(alloc, place, kind, form)
        }
        [length] => elements(alloc, place, kind, slot, *length),
        _ => Err(TextRefusal::E10(place)),
    }
}

/// The values of a constant.
fn constant_values(
    alloc: Global,
    place: Place,
    of: ConstValue,
) -> Result<Boxed<TypedSequence>, TextRefusal>
    ensures { Gives (spec.constant_values place of) result }
{
    match of {
        ConstValue::Value(value) => {
            scalar_bits(alloc, place, value.kind(), constant(alloc, value)?)
        }
        ConstValue::Phase(_) => Err(TextRefusal::E10(place)),
    }
}

/// The values of a constant by its name.
fn constant_named(
    alloc: Global,
    names: &Names,
    place: Place,
    name: &Label,
) -> Result<Boxed<TypedSequence>, TextRefusal>
    ensures { Gives (and_then (named_constant names.now place name.now) (spec.constant_values place)) result }
{
    let of = named_constant(alloc, names, place, name)?;
    constant_values(alloc, place, of)
}

/// The values of what a name stands for: E8 where it has none, E10 where it is neither an array of one dimension with whole numbers nor a
/// bit register.
#[tactic(auto, unfolding(qt_typing::specs::Statements::named_values))]
pub fn named_values(
    alloc: Global,
    names: &Names,
    place: Place,
    name: &Label,
    it: &Named,
) -> Result<Boxed<TypedSequence>, TextRefusal>
    ensures { Gives (spec.named_values names.now place name.now it.now.what it.now) result }
{
    match (storage_of(alloc, it)?, it.what) {
        (Some(storage), _) => stored_values(alloc, place, &storage),
        (None, What::Constant) => constant_named(alloc, names, place, name),
        (None, _) => Err(unfit(alloc, place, name)),
    }
}
