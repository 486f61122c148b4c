//! The modifiers of a gate call.

ghost use Rattle.std.specs.Prelude.{◌≡◌, ◌<◌, ◌^◌, [], ◌∷◌, replicate, IfOk};
ghost use Rattle.qt_typing.specs.Checked.{Gives};
ghost use Rattle.qt_typing.specs.Gates as spec;

use qt_check_declarations::sizes::size_at;
use qt_check_expressions::constants::number_at;
use qt_const::modes::Mode;
use qt_gate_calls::body::GateModifier;
use qt_outside::faults::OutOfMemory;
use qt_tree::expression::Expr;
use qt_tree::place::Place;
use qt_tree::refusal::{Cause, TextRefusal};
use qt_tree::statement::Modifier;
use qt_typing::names::Names;
use sqlite_items::Items;
use std::alloc::Global;

/// The largest exponent of a power, in size.
const LARGEST_POWER: u128 = 1024;

/// The most controls of one modifier.
const MOST_CONTROLS: u32 = 15;

/// So many of one modifier.
fn repeated(
    alloc: Global,
    modifier: GateModifier,
    count: usize,
) -> Result<Items<GateModifier>, OutOfMemory>
    ensures { IfOk result (λ modifiers. modifiers ≡ replicate count modifier) }
{
    Ok(Items::from_vec(Vec::from_elem(alloc, modifier, count)?))
}

/// A power with a constant exponent: E12 `range` of one above 1,024 in size.
fn power_of(alloc: Global, place: Place, exponent: i128) -> Result<Items<GateModifier>, TextRefusal>
    ensures { Gives (spec.power_of place exponent) result }
{
    if exponent.unsigned_abs() > LARGEST_POWER {
        return Err(TextRefusal::E12(place, Cause::Range));
    }
    let power = GateModifier::Pow {
        exponent: exponent as i32,
    };
    Ok(repeated(alloc, power, 1)?)
}

/// How many controls a modifier puts in front: 1 where no number is written.
#[tactic(auto, unfolding(qt_typing::specs::Declarations::size_at))]
fn controls_at(
    alloc: Global,
    names: &Names,
    place: Place,
    count: &Option<Expr>,
) -> Result<u32, TextRefusal>
    ensures { Gives (spec.controls_at names.now place count.now) result }
{
    match count {
        None => Ok(1),
        Some(expr) => size_at(alloc, names, place, MOST_CONTROLS, expr),
    }
}

/// One modifier. No division in the exponent of a power leaves a rest.
#[tactic(auto, unfolding(qt_typing::specs::Gates::modifier_of))]
fn modifier_of(
    alloc: Global,
    names: &Names,
    place: Place,
    modifier: &Modifier,
) -> Result<Items<GateModifier>, TextRefusal>
    ensures { Gives (spec.modifier_of names.now place modifier.now) result }
{
    match modifier {
        Modifier::Inv => Ok(repeated(alloc, GateModifier::Inv, 1)?),
        Modifier::Pow { exponent } => {
            let exponent = number_at(alloc, names, Mode::Exact, place, exponent)?;
            power_of(alloc, place, exponent)
        }
        Modifier::Ctrl { count } => {
            let count = controls_at(alloc, names, place, count)?;
            Ok(repeated(alloc, GateModifier::Ctrl, count as usize)?)
        }
        Modifier::NegCtrl { count } => {
            let count = controls_at(alloc, names, place, count)?;
            Ok(repeated(alloc, GateModifier::NegCtrl, count as usize)?)
        }
    }
}

/// The modifiers of a call, the outermost first: E8, E10 and E12 of what should be a constant whole number, E12 `range` of an exponent
/// above 1,024 in size and of more than 15 controls. OpenQASM 3.0, "Gates", quantum gate modifiers.
#[tactic(auto, unfolding(qt_typing::specs::Gates::modifiers_from))]
pub fn modifiers_from(
    alloc: Global,
    names: &Names,
    place: Place,
    mut written: &[Modifier],
) -> Result<Items<GateModifier>, TextRefusal>
    ensures { Gives (spec.modifiers_from names.now place [] written.entry.now) result }
{
    let mut modifiers = Items::new(alloc);
    while let [modifier, rest @ ..] = written {
        let more = modifier_of(alloc, names, place, modifier)?;
        modifiers.append(more)?;
        written = rest;
    }
    Ok(modifiers)
}

/// How many controls one modifier puts in front.
fn control_count(modifier: GateModifier) -> u64
    ensures { result ≡ spec.controls (modifier ∷ []) }
{
    match modifier {
        GateModifier::Ctrl | GateModifier::NegCtrl => 1,
        GateModifier::Inv | GateModifier::Pow { .. } => 0,
    }
}

/// How many controls the modifiers put in front.
pub fn controls(mut modifiers: &[GateModifier]) -> u64
    ensures value { result ≡ spec.controls modifiers.entry.now }
    ensures few { result < 2 ^ 63 }
{
    let mut count = 0;
    while let [modifier, rest @ ..] = modifiers {
        count += control_count(*modifier);
        modifiers = rest;
    }
    count
}
