//! Bits of a value.

ghost use Rattle.std.specs.Prelude.{◌≡◌, ◌<◌, ◌^◌, IfOk};
ghost use Rattle.qt_typed.specs.declared.expression.TypedStep.TheVariants as step_form;
ghost use Rattle.qt_value.specs.declared.types.ValueType.TheVariants as kind;
ghost use Rattle.qt_typing.specs.Checked.{Gives};
ghost use Rattle.qt_typing.specs.Indexes as spec;

use crate::ranges::range_places;
use crate::single::placed_index;
use qt_const::indexes::has_places;
use qt_const::modes::Mode;
use qt_outside::faults::OutOfMemory;
use qt_tree::expression::{Expr, Range};
use qt_tree::place::Place;
use qt_tree::refusal::TextRefusal;
use qt_typed::expression::{TypedExpr, TypedStep};
use qt_typing::indexes::{Bits, Slice};
use qt_typing::names::Names;
use qt_typing::operand::Operand;
use qt_value::types::ValueType;
use sqlite_items::Boxed;
use std::alloc::Global;

/// Whether values of the type are bit registers, which may have ranges.
fn is_bits(kind: ValueType) -> bool
    ensures { result ≡ spec.is_bits kind }
{
    matches!(kind, ValueType::Bit(_))
}

/// A step to one bit.
fn bit_step(alloc: Global, index: Boxed<TypedExpr>) -> Result<Bits, OutOfMemory>
    ensures { IfOk result (λ bits. bits ≡ record { step = step_form.At index; kind = kind.Bit 1 }) }
{
    let index = index.into_inner();
    Ok(Bits {
        step: Boxed::new(alloc, TypedStep::At { index })?,
        kind: ValueType::Bit(1),
    })
}

/// A step to the places of a range. One of more than 64 places goes to one place alone, as one of 64 does.
fn slice_step(alloc: Global, slice: Slice) -> Result<Bits, OutOfMemory>
    requires start { slice.start < 2 ^ 8 }
    requires count { slice.count < 2 ^ 8 }
    ensures { IfOk result (λ bits. bits ≡ spec.slice_step slice) }
{
    let step = TypedStep::Slice {
        start: slice.start as u8,
        step: slice.step.min(64) as u8,
        count: slice.count as u8,
    };
    Ok(Bits {
        step: Boxed::new(alloc, step)?,
        kind: ValueType::Bit(slice.count as u8),
    })
}

/// The bit of a value of a type at an index that is typed. E10 where it is no whole number or the type has no places, E12 `range` where
/// it is constant and no place.
#[tactic(auto, unfolding(qt_typing::specs::Indexes::bit_at))]
pub fn bit_at(
    alloc: Global,
    names: &Names,
    mode: Mode,
    place: Place,
    of: ValueType,
    written: &Expr,
    index: Operand,
) -> Result<Bits, TextRefusal>
    ensures { Gives (spec.bit_at names.now mode place of written.now index) result }
{
    let places = u64::from(of.width());
    let index = placed_index(
        alloc,
        names,
        mode,
        place,
        has_places(of),
        places,
        written,
        index,
    )?;
    Ok(bit_step(alloc, index)?)
}

/// The bits of a value of a type at the places of a range, which is E10 on all but bit registers.
#[tactic(auto, unfolding(qt_typing::specs::Indexes::slice_at))]
pub fn slice_at(
    alloc: Global,
    names: &Names,
    mode: Mode,
    place: Place,
    of: ValueType,
    range: &Range,
) -> Result<Bits, TextRefusal>
    ensures { Gives (spec.slice_at names.now mode place of range.now) result }
{
    let places = u64::from(of.width());
    let slice = range_places(alloc, names, mode, place, is_bits(of), places, range)?;
    Ok(slice_step(alloc, slice)?)
}
