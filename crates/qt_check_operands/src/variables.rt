//! Variables, where they are kept and what is read of them.

ghost use Rattle.std.specs.Prelude.{◌≡◌, [], ◌∷◌, IfOk};
ghost use Rattle.qt_typed.specs.declared.expression.TypedVariable.TheVariants as variable_form;
ghost use Rattle.qt_typing.specs.Expressions as spec;

use qt_names::named::{Named, Places, What};
use qt_outside::faults::OutOfMemory;
use qt_typed::expression::{TypedExpr, TypedStep, TypedVariable};
use qt_typing::indexes::Storage;
use qt_value::types::ValueType;
use sqlite_items::{Boxed, Items};
use std::alloc::Global;

/// Where something is kept that has a type and a slot.
fn storage_at(alloc: Global, it: &Named) -> Result<Option<Storage>, OutOfMemory>
    ensures { IfOk result (λ storage. storage ≡ spec.storage_at it.now.of it.now.lengths it.now.places) }
{
    match (it.of, &it.places) {
        (Some(kind), Places::Number { number }) => Ok(Some(Storage {
            kind,
            lengths: it.lengths.copied(alloc)?,
            slot: *number,
        })),
        _ => Ok(None),
    }
}

/// Where a variable, a parameter that is one, or an input is kept. A constant has no slot, and nothing else is kept.
#[tactic(auto, unfolding(qt_typing::specs::Expressions::storage_of))]
pub fn storage_of(alloc: Global, it: &Named) -> Result<Option<Storage>, OutOfMemory>
    ensures { IfOk result (λ storage. storage ≡ spec.storage_of it.now) }
{
    match it.what {
        What::Variable | What::Parameter | What::Constant => storage_at(alloc, it),
        What::Qubits | What::Alias | What::Gate | What::Subroutine => Ok(None),
    }
}

/// A scalar variable.
pub(crate) fn scalar(alloc: Global, it: Storage) -> Result<Boxed<TypedVariable>, OutOfMemory>
    ensures { IfOk result (λ variable. variable ≡ variable_form.Slot it.kind it.slot) }
{
    let Storage { kind, slot, .. } = it;
    Ok(Boxed::new(alloc, TypedVariable::Slot { kind, slot })?)
}

/// An element of an array.
pub(crate) fn element(
    alloc: Global,
    it: Storage,
    indexes: Items<TypedExpr>,
) -> Result<Boxed<TypedVariable>, OutOfMemory>
    ensures { IfOk result (λ variable. variable ≡ variable_form.Element it.kind it.slot it.lengths indexes) }
{
    let Storage {
        kind,
        lengths,
        slot,
    } = it;
    Ok(Boxed::new(
        alloc,
        TypedVariable::Element {
            kind,
            slot,
            lengths,
            indexes,
        },
    )?)
}

/// The type of a variable.
pub fn kind_of(variable: &TypedVariable) -> ValueType
    ensures { result ≡ spec.kind_of variable.now }
{
    match variable {
        TypedVariable::Slot { kind, .. } => *kind,
        TypedVariable::Element { kind, .. } => *kind,
    }
}

/// The value of a variable.
pub(crate) fn read(
    alloc: Global,
    variable: Boxed<TypedVariable>,
) -> Result<Boxed<TypedExpr>, OutOfMemory>
    ensures { IfOk result (λ form. form ≡ spec.read variable) }
{
    let form = match variable.into_inner() {
        TypedVariable::Slot { kind, slot } => TypedExpr::Slot { kind, slot },
        TypedVariable::Element {
            kind,
            slot,
            lengths,
            indexes,
        } => TypedExpr::Element {
            kind,
            slot,
            lengths,
            indexes,
        },
    };
    Ok(Boxed::new(alloc, form)?)
}

/// A step from a value to bits of it.
pub(crate) fn stepped(
    alloc: Global,
    of: Boxed<TypedExpr>,
    step: Boxed<TypedStep>,
) -> Result<Boxed<TypedExpr>, OutOfMemory>
    ensures { IfOk result (λ form. form ≡ spec.stepped of (step ∷ [])) }
{
    let form = match step.into_inner() {
        TypedStep::At { index } => TypedExpr::Bit {
            of,
            index: Boxed::new(alloc, index)?,
        },
        TypedStep::Slice { start, step, count } => TypedExpr::Slice {
            of,
            start,
            step,
            count,
        },
    };
    Ok(Boxed::new(alloc, form)?)
}
