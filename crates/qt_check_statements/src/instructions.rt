//! The built-in quantum instructions: OpenQASM 3.0, "Built-in quantum instructions".

ghost use Rattle.std.specs.Prelude.{Ok, Some};
ghost use Rattle.std.specs.Option.{option_copied};
ghost use Rattle.qt_typed.specs.declared.statement.TypedAction.TheVariants as action;
ghost use Rattle.qt_typing.specs.Checked.{Gives, and_then};
ghost use Rattle.qt_typing.specs.Statements as spec;
ghost use Rattle.qt_typing.specs.Targets.{measured_target};

use qt_check_qubits::operands::operand_qubits;
use qt_check_targets::targets::measured_target;
use qt_tree::place::Place;
use qt_tree::refusal::TextRefusal;
use qt_tree::statement::{Operand, Target};
use qt_typed::call::TypedQubits;
use qt_typed::statement::{TypedAction, TypedRight};
use qt_typing::names::Names;
use sqlite_items::Boxed;
use std::alloc::Global;

/// The measurement of qubits whose outcomes a target takes.
fn measure_into(
    alloc: Global,
    names: &Names,
    place: Place,
    of: Boxed<TypedQubits>,
    target: &Target,
) -> Result<TypedAction, TextRefusal>
    ensures { Gives (and_then (measured_target place of target.now names.now) (λ t. Ok (action.Measure of (Some t)))) result }
{
    let target = measured_target(alloc, names, place, of.get(), target)?;
    Ok(TypedAction::Measure {
        qubits: of.into_inner(),
        target: Some(target.into_inner()),
    })
}

/// `measure q -> c;`, or `measure q;` whose outcomes are dropped: the refusals of the qubits come before those of the target.
#[tactic(auto, unfolding(qt_typing::specs::Statements::measure))]
pub fn measure(
    alloc: Global,
    names: &Names,
    place: Place,
    qubits: &Operand,
    target: Option<&Target>,
) -> Result<TypedAction, TextRefusal>
    ensures { Gives (spec.measure place qubits.now (option_copied target.entry) names.now) result }
{
    let of = operand_qubits(alloc, names, place, qubits)?;
    match target {
        Some(target) => measure_into(alloc, names, place, of, target),
        None => Ok(TypedAction::Measure {
            qubits: of.into_inner(),
            target: None,
        }),
    }
}

/// `c = measure q;`: the refusals of the qubits come before those of the target.
#[tactic(auto, unfolding(qt_typing::specs::Statements::assign_outcomes))]
pub fn assign_outcomes(
    alloc: Global,
    names: &Names,
    place: Place,
    target: &Target,
    qubits: &Operand,
) -> Result<TypedAction, TextRefusal>
    ensures { Gives (spec.assign_outcomes place target.now qubits.now names.now) result }
{
    let of = operand_qubits(alloc, names, place, qubits)?;
    let target = measured_target(alloc, names, place, of.get(), target)?;
    let qubits = of.into_inner();
    Ok(TypedAction::Assign {
        target: target.into_inner(),
        value: TypedRight::Measure { qubits },
    })
}

/// `reset q;`
#[tactic(auto, unfolding(qt_typing::specs::Statements::reset))]
pub fn reset(
    alloc: Global,
    names: &Names,
    place: Place,
    qubits: &Operand,
) -> Result<TypedAction, TextRefusal>
    ensures { Gives (spec.reset place qubits.now names.now) result }
{
    let of = operand_qubits(alloc, names, place, qubits)?;
    Ok(TypedAction::Reset {
        qubits: of.into_inner(),
    })
}

/// `barrier q, r;`, whose operands are judged one after the other.
#[tactic(auto, unfolding(qt_typing::specs::Statements::barrier))]
pub fn barrier(
    alloc: Global,
    names: &Names,
    place: Place,
    mut qubits: &[Operand],
) -> Result<TypedAction, TextRefusal>
    ensures { Gives (spec.barrier place qubits.entry.now names.now) result }
{
    while let [operand, rest @ ..] = qubits {
        operand_qubits(alloc, names, place, operand)?;
        qubits = rest;
    }
    Ok(TypedAction::Barrier)
}
