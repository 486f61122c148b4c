//! Targets of assignments and measurements.

ghost use Rattle.std.specs.Prelude.{◌≡◌, IfOk};
ghost use Rattle.qt_typing.specs.Checked.{Gives};
ghost use Rattle.qt_typing.specs.Targets as spec;
ghost use Rattle.qt_check_operands.specs.Parts.{index_parts};

use qt_check_operands::expression::{reached, steps_from};
use qt_check_operands::left::IndexesLeft;
use qt_check_operands::names::unfit;
use qt_check_operands::variables::{kind_of, storage_of};
use qt_check_qubits::qubits::outcomes_fit;
use qt_const::modes::Mode;
use qt_names::named::{Named, What};
use qt_outside::faults::OutOfMemory;
use qt_tree::label::Label;
use qt_tree::place::Place;
use qt_tree::refusal::{Cause, TextRefusal};
use qt_tree::statement::Target;
use qt_typed::call::TypedQubits;
use qt_typed::expression::{TypedExpr, TypedTarget, TypedVariable};
use qt_typing::indexes::{Steps, Storage};
use qt_typing::names::Names;
use sqlite_items::Boxed;
use std::alloc::Global;

/// A variable, and the steps to the bits of it.
fn with_steps(
    alloc: Global,
    variable: Boxed<TypedVariable>,
    steps: Steps,
) -> Result<Boxed<TypedTarget>, OutOfMemory>
    ensures { IfOk result (λ target. target ≡ record { variable = variable; steps = steps.steps; kind = steps.kind }) }
{
    let Steps { steps, kind } = steps;
    Ok(Boxed::new(
        alloc,
        TypedTarget {
            variable: variable.into_inner(),
            steps,
            kind,
        },
    )?)
}

/// What is kept there, and the indexes behind it.
#[tactic(auto, unfolding(qt_typing::specs::Targets::target_in))]
fn target_in(
    alloc: Global,
    names: &Names,
    place: Place,
    it: Storage,
    mut left: IndexesLeft<'_>,
) -> Result<Boxed<TypedTarget>, TextRefusal>
    ensures { Gives (spec.target_in names.now place it (index_parts names.now place left.entry)) result }
{
    let variable = reached(alloc, names, Mode::Plain, place, it, &mut left)?;
    let kind = kind_of(variable.get());
    let steps = steps_from(alloc, names, Mode::Plain, place, kind, left)?;
    Ok(with_steps(alloc, variable, steps)?)
}

/// What a name stands for, and the indexes behind it. A constant isn't assigned to.
#[tactic(auto, unfolding(qt_typing::specs::Targets::target_of_kind))]
fn target_of_kind(
    alloc: Global,
    names: &Names,
    place: Place,
    name: &Label,
    left: IndexesLeft<'_>,
    it: &Named,
) -> Result<Boxed<TypedTarget>, TextRefusal>
    ensures { Gives (spec.target_of_kind names.now place name.now (index_parts names.now place left.entry) it.now.what it.now) result }
{
    match it.what {
        What::Constant => Err(TextRefusal::E11(place, Cause::Target)),
        _ => match storage_of(alloc, it)? {
            Some(storage) => target_in(alloc, names, place, storage, left),
            None => Err(unfit(alloc, place, name)),
        },
    }
}

/// The target of an assignment: E8 of a name that has no value, E11 of a constant, and what its indexes are refused for.
#[tactic(auto, using(crate::proofs::TargetViews::target_is))]
pub fn target_at(
    alloc: Global,
    names: &Names,
    place: Place,
    target: &Target,
) -> Result<Boxed<TypedTarget>, TextRefusal>
    ensures { Gives (spec.target_at place target.now names.now) result }
{
    let it = names.scopes.find(target.name.text(), place)?;
    let left = IndexesLeft::of(target.brackets.as_slice());
    target_of_kind(alloc, names, place, &target.name, left, it)
}

/// Whether each index of an array is a constant.
fn all_constant(forms: &[TypedExpr]) -> bool
    ensures { result ≡ spec.all_constant forms.now }
{
    match forms {
        [] => true,
        [first, rest @ ..] => matches!(first, TypedExpr::Constant { .. }) && all_constant(rest),
    }
}

/// Whether a variable is known before the run.
#[tactic(auto, unfolding(qt_typing::specs::Targets::is_fixed_variable))]
fn is_fixed_variable(variable: &TypedVariable) -> bool
    ensures { result ≡ spec.is_fixed_variable variable.now }
{
    match variable {
        TypedVariable::Slot { .. } => true,
        TypedVariable::Element { indexes, .. } => all_constant(indexes.as_slice()),
    }
}

/// The target of a measurement of some qubits, which is known before the run: else E11 `register`. E14 of another number of bits.
#[tactic(auto, unfolding(qt_typing::specs::Targets::measured_target))]
pub fn measured_target(
    alloc: Global,
    names: &Names,
    place: Place,
    of: &TypedQubits,
    target: &Target,
) -> Result<Boxed<TypedTarget>, TextRefusal>
    ensures { Gives (spec.measured_target place of.now target.now names.now) result }
{
    let found = target_at(alloc, names, place, target)?;
    if !is_fixed_variable(&found.get().variable) {
        return Err(TextRefusal::E11(place, Cause::Register));
    }
    outcomes_fit(place, found.get().kind.width(), of)?;
    Ok(found)
}
