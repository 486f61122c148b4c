//! The arguments of a gate call, as phases.

ghost use Rattle.std.specs.Prelude.{◌≡◌, ◌-◌, ◌*◌, ◌≤◌, ◌<◌, ◌^◌, []};
ghost use Rattle.qt_typed.specs.declared.expression.TypedPhase.TheVariants as phase_form;
ghost use Rattle.qt_value.specs.declared.types.ValueType.TheVariants as kind;
ghost use Rattle.qt_typing.specs.Checked.{Gives, and_then};
ghost use Rattle.qt_typing.specs.Environment.{constant_at};
ghost use Rattle.qt_const_rules.specs.declared.modes.Mode.TheVariants as mode_form;
ghost use Rattle.qt_typing.specs.Gates as spec;

use qt_check_expressions::constants::constant_at;
use qt_check_expressions::sorts::is_fixed;
use qt_check_operands::expression::typed;
use qt_const::casts::is_whole_zero;
use qt_const::modes::Mode;
use qt_phase::phase::Phase;
use qt_tree::expression::Expr;
use qt_tree::place::Place;
use qt_tree::refusal::TextRefusal;
use qt_typed::expression::{TypedExpr, TypedPhase};
use qt_typing::names::Names;
use qt_typing::operand::Operand;
use qt_value::constant::ConstValue;
use qt_value::types::ValueType;
use qt_value::value::Value;
use sqlite_items::{Boxed, Items};
use std::alloc::Global;

/// The number of units of the angle of so many bits with that number.
fn units_in(width: u8, bits: u64) -> u64
    requires width { width ≤ 32 }
    requires fits { bits < 2 ^ width }
    ensures value { result ≡ bits * 2 ^ (33 - width) }
    ensures few { result < 2 ^ 33 }
{
    bits << (33 - width)
}

/// The units of the angle of so many bits with that number, as a phase.
fn angle_units(width: u8, bits: u64) -> Phase
    requires width { width ≤ 32 }
    requires fits { bits < 2 ^ width }
    ensures { result ≡ spec.angle_units (kind.Angle width) bits }
{
    Phase::from_units(units_in(width, bits) as i64).unwrap()
}

/// A constant value as a phase: an angle, or the whole number 0.
fn value_units(place: Place, value: Value) -> Result<Phase, TextRefusal>
    ensures { Gives (spec.value_units place value value.kind) result }
{
    match value.kind() {
        ValueType::Angle(width) => Ok(angle_units(width, value.bits())),
        _ if is_whole_zero(value) => Ok(Phase::zero()),
        _ => Err(TextRefusal::E10(place)),
    }
}

/// A constant as a phase: E10 where it is neither a phase, nor an angle, nor the whole number 0.
#[tactic(auto, unfolding(qt_typing::specs::Gates::constant_units))]
pub fn constant_units(place: Place, constant: ConstValue) -> Result<Phase, TextRefusal>
    ensures { Gives (spec.constant_units place constant) result }
{
    match constant {
        ConstValue::Phase(phase) => Ok(phase),
        ConstValue::Value(value) => value_units(place, value),
    }
}

/// The value of an angle as a phase: E10 where it is no angle.
fn angle_phase(
    alloc: Global,
    place: Place,
    kind: ValueType,
    form: Boxed<TypedExpr>,
) -> Result<Boxed<TypedPhase>, TextRefusal>
    ensures { Gives (spec.angle_phase place kind (phase_form.Angle form)) result }
{
    match kind {
        ValueType::Angle(_) => {
            let operand = form.into_inner();
            Ok(Boxed::new(alloc, TypedPhase::Angle { operand })?)
        }
        _ => Err(TextRefusal::E10(place)),
    }
}

/// An argument that is known in the run.
#[tactic(auto, unfolding(qt_typing::specs::Gates::free_phase))]
fn free_phase(alloc: Global, place: Place, of: Operand) -> Result<Boxed<TypedPhase>, TextRefusal>
    ensures { Gives (spec.free_phase place of) result }
{
    match of {
        Operand::Value { kind, form } => angle_phase(alloc, place, kind, form),
        Operand::Phase { form } => Ok(form),
    }
}

/// An argument that is constant as a whole.
fn fixed_phase(
    alloc: Global,
    names: &Names,
    place: Place,
    expr: &Expr,
) -> Result<Boxed<TypedPhase>, TextRefusal>
    ensures { Gives
        (and_then (constant_at names.now mode_form.Plain place expr.now)
        (λ c. and_then (spec.constant_units place c) (λ p. Ok (phase_form.Fixed p))))
        result }
{
    let constant = constant_at(alloc, names, Mode::Plain, place, expr)?;
    let phase = constant_units(place, constant)?;
    Ok(Boxed::new(alloc, TypedPhase::Fixed { phase })?)
}

/// An argument, which is typed first. One that is constant as a whole is reckoned.
#[tactic(auto, unfolding(qt_typing::specs::Gates::argument_phase))]
fn argument_phase(
    alloc: Global,
    names: &Names,
    place: Place,
    expr: &Expr,
) -> Result<Boxed<TypedPhase>, TextRefusal>
    ensures { Gives (spec.argument_phase names.now place expr.now) result }
{
    let of = typed(alloc, names, Mode::Plain, place, expr)?;
    if is_fixed(names, expr) {
        fixed_phase(alloc, names, place, expr)
    } else {
        free_phase(alloc, place, of)
    }
}

/// The arguments of a call, in order: E10 of one that is no phase, no angle and not 0, E12 of a constant one out of range or with a rest.
/// OpenQASM 3.0, "Gates", applying gates, and "Types and Casting", angles.
#[tactic(auto, unfolding(qt_typing::specs::Gates::phases_from))]
pub fn phases_from(
    alloc: Global,
    names: &Names,
    place: Place,
    mut arguments: &[Expr],
) -> Result<Items<TypedPhase>, TextRefusal>
    ensures { Gives (spec.phases_from names.now place [] arguments.entry.now) result }
{
    let mut phases = Items::new(alloc);
    while let [argument, rest @ ..] = arguments {
        let phase = argument_phase(alloc, names, place, argument)?;
        phases.push(phase.into_inner())?;
        arguments = rest;
    }
    Ok(phases)
}
