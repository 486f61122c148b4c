//! Operators with phases.

ghost use Rattle.std.specs.Prelude.{◌≡◌, IfOk, Ok};
ghost use Rattle.qt_value.specs.declared.types.ValueType.TheVariants as kind;
ghost use Rattle.qt_typed.specs.declared.expression.TypedPhase.TheVariants as phase;
ghost use Rattle.qt_typing.specs.declared.operand.Operand.TheVariants as operand_form;
ghost use Rattle.qt_typing.specs.Checked.{Gives, and_then};
ghost use Rattle.qt_typing.specs.Conversions.{phase_at};
ghost use Rattle.qt_typing.specs.Operators as spec;

use crate::beside::phase_beside;
use crate::forms::{joined, joined_left};
use qt_check_expressions::constants::is_zero_at;
use qt_const::modes::Mode;
use qt_outside::faults::OutOfMemory;
use qt_phase::phase::Phase;
use qt_tree::expression::Expr;
use qt_tree::place::Place;
use qt_tree::refusal::TextRefusal;
use qt_typed::expression::{TypedExpr, TypedPhase};
use qt_typing::names::Names;
use qt_typing::operand::Operand;
use qt_value::operators::Op;
use qt_value::types::ValueType;
use sqlite_items::Boxed;
use std::alloc::Global;

/// A phase, which isn't reckoned yet.
fn phase_operand(alloc: Global, phase: TypedPhase) -> Result<Operand, OutOfMemory>
    ensures { IfOk result (λ operand. operand ≡ operand_form.Phase phase) }
{
    Ok(Operand::Phase {
        form: Boxed::new(alloc, phase)?,
    })
}

/// The opposite of a phase.
pub(crate) fn opposite(alloc: Global, operand: Boxed<TypedPhase>) -> Result<Operand, OutOfMemory>
    ensures { IfOk result (λ result. result ≡ operand_form.Phase (phase.Neg operand)) }
{
    Ok(Operand::Phase {
        form: Boxed::new(alloc, TypedPhase::Neg { operand })?,
    })
}

/// The sum or difference of two phases.
pub(crate) fn two_phases(
    alloc: Global,
    place: Place,
    operator: Op,
    left: Boxed<TypedPhase>,
    right: Boxed<TypedPhase>,
) -> Result<Operand, TextRefusal>
    ensures { Gives (spec.two_phases place operator left right) result }
{
    match operator {
        Op::Add => Ok(phase_operand(alloc, TypedPhase::Add { left, right })?),
        Op::Sub => Ok(phase_operand(alloc, TypedPhase::Sub { left, right })?),
        _ => Err(TextRefusal::E10(place)),
    }
}

/// Phase 0.
fn no_phase(alloc: Global) -> Result<Boxed<TypedPhase>, OutOfMemory>
    ensures { IfOk result (λ form. form ≡ spec.no_phase) }
{
    Ok(Boxed::new(
        alloc,
        TypedPhase::Fixed {
            phase: Phase::zero(),
        },
    )?)
}

/// A phase and phase 0 behind it.
fn phase_and_none(
    alloc: Global,
    place: Place,
    operator: Op,
    phase: Boxed<TypedPhase>,
) -> Result<Operand, TextRefusal>
    ensures { Gives (spec.two_phases place operator phase spec.no_phase) result }
{
    let none = no_phase(alloc)?;
    two_phases(alloc, place, operator, phase, none)
}

/// Phase 0 and a phase behind it.
fn none_and_phase(
    alloc: Global,
    place: Place,
    operator: Op,
    phase: Boxed<TypedPhase>,
) -> Result<Operand, TextRefusal>
    ensures { Gives (spec.two_phases place operator spec.no_phase phase) result }
{
    let none = no_phase(alloc)?;
    two_phases(alloc, place, operator, none, phase)
}

/// A phase and a whole number behind it. 0 counts as phase 0 in a sum.
#[tactic(auto, unfolding(qt_typing::specs::Operators::phase_and_whole))]
fn phase_and_whole(
    alloc: Global,
    place: Place,
    operator: Op,
    is_nil: bool,
    phase: Boxed<TypedPhase>,
    number: Boxed<TypedExpr>,
) -> Result<Operand, TextRefusal>
    ensures { Gives (spec.phase_and_whole place operator is_nil phase number) result }
{
    match operator {
        Op::Mul => {
            let number = number.into_inner();
            Ok(phase_operand(alloc, TypedPhase::Times { phase, number })?)
        }
        Op::Div => {
            let number = number.into_inner();
            Ok(phase_operand(alloc, TypedPhase::Over { phase, number })?)
        }
        _ if is_nil => phase_and_none(alloc, place, operator, phase),
        _ => Err(TextRefusal::E10(place)),
    }
}

/// A whole number and a phase behind it. 0 counts as phase 0 in a sum.
#[tactic(auto, unfolding(qt_typing::specs::Operators::whole_and_phase))]
fn whole_and_phase(
    alloc: Global,
    place: Place,
    operator: Op,
    is_nil: bool,
    number: Boxed<TypedExpr>,
    phase: Boxed<TypedPhase>,
) -> Result<Operand, TextRefusal>
    ensures { Gives (spec.whole_and_phase place operator is_nil number phase) result }
{
    match operator {
        Op::Mul => {
            let number = number.into_inner();
            Ok(phase_operand(alloc, TypedPhase::Scaled { number, phase })?)
        }
        _ if is_nil => none_and_phase(alloc, place, operator, phase),
        _ => Err(TextRefusal::E10(place)),
    }
}

/// A phase that has to be constant, on the left of an angle of a width.
fn phase_before_angle(
    alloc: Global,
    names: &Names,
    mode: Mode,
    place: Place,
    operator: Op,
    written: &Expr,
    width: u8,
    form: Boxed<TypedExpr>,
) -> Result<Operand, TextRefusal>
    ensures { Gives
        (and_then (spec.phase_beside place width (spec.angle_row operator width) (phase_at names.now mode place written.now))
        (λ b. Ok (spec.joined_left mode operator (kind.Angle width) form b)))
        result }
{
    let phase = phase_beside(alloc, names, mode, place, operator, width, written)?;
    Ok(joined_left(alloc, mode, operator, ValueType::Angle(width), form, phase)?)
}

/// A phase that has to be constant, on the right of an angle of a width.
fn phase_behind_angle(
    alloc: Global,
    names: &Names,
    mode: Mode,
    place: Place,
    operator: Op,
    width: u8,
    form: Boxed<TypedExpr>,
    written: &Expr,
) -> Result<Operand, TextRefusal>
    ensures { Gives
        (and_then (spec.phase_beside place width (spec.angle_row operator width) (phase_at names.now mode place written.now))
        (λ b. Ok (spec.joined mode operator (kind.Angle width) form b)))
        result }
{
    let phase = phase_beside(alloc, names, mode, place, operator, width, written)?;
    Ok(joined(alloc, mode, operator, ValueType::Angle(width), form, phase)?)
}

/// A phase on the left of a value: an angle beside which it is constant, or a whole number.
#[tactic(auto, unfolding(qt_typing::specs::Operators::phase_first))]
pub(crate) fn phase_first(
    alloc: Global,
    names: &Names,
    mode: Mode,
    place: Place,
    operator: Op,
    phase: Boxed<TypedPhase>,
    written_phase: &Expr,
    kind: ValueType,
    form: Boxed<TypedExpr>,
    written: &Expr,
) -> Result<Operand, TextRefusal>
    ensures { Gives
        (spec.phase_first names.now mode place operator phase (phase_at names.now mode place written_phase.now) kind form written.now)
        result }
{
    match kind {
        ValueType::Angle(width) => {
            phase_before_angle(
                alloc,
                names,
                mode,
                place,
                operator,
                written_phase,
                width,
                form,
            )
        }
        _ if kind.is_whole() => {
            let zero = is_zero_at(alloc, names, mode, place, written)?;
            phase_and_whole(alloc, place, operator, zero, phase, form)
        }
        _ => Err(TextRefusal::E10(place)),
    }
}

/// A phase on the right of a value.
#[tactic(auto, unfolding(qt_typing::specs::Operators::phase_second))]
pub(crate) fn phase_second(
    alloc: Global,
    names: &Names,
    mode: Mode,
    place: Place,
    operator: Op,
    kind: ValueType,
    form: Boxed<TypedExpr>,
    written: &Expr,
    phase: Boxed<TypedPhase>,
    written_phase: &Expr,
) -> Result<Operand, TextRefusal>
    ensures { Gives
        (spec.phase_second names.now mode place operator kind form written.now phase (phase_at names.now mode place written_phase.now))
        result }
{
    match kind {
        ValueType::Angle(width) => {
            phase_behind_angle(
                alloc,
                names,
                mode,
                place,
                operator,
                width,
                form,
                written_phase,
            )
        }
        _ if kind.is_whole() => {
            let zero = is_zero_at(alloc, names, mode, place, written)?;
            whole_and_phase(alloc, place, operator, zero, form, phase)
        }
        _ => Err(TextRefusal::E10(place)),
    }
}
