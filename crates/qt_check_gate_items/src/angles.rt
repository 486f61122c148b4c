//! The angles in the body of a declared gate.

ghost use Rattle.std.specs.Prelude.{◌≡◌, ◌&&◌, not, [], map, Ok, Err};
ghost use Rattle.qt_const_rules.specs.declared.modes.Mode.TheVariants as mode;
ghost use Rattle.qt_gate_calls.specs.declared.angle.Angle.TheVariants as angle_variant;
ghost use Rattle.qt_names.specs.Scopes.{found, or_unknown};
ghost use Rattle.qt_tree.specs.declared.refusal.TextRefusal.TheVariants as refusal;
ghost use Rattle.qt_typing.specs.Checked.{Gives, and_then};
ghost use Rattle.qt_typing.specs.Environment.{constant_at, type_at};
ghost use Rattle.qt_typing.specs.Expressions.{builtin_at, typed_of};
ghost use Rattle.qt_typing.specs.Gates.{constant_units};
ghost use Rattle.qt_typing.specs.GateItems as spec;
ghost use Rattle.qt_typing.specs.Sorts as sorts;
ghost use Rattle.qt_check_gate_items.specs.Layers.{layer_of, part};
ghost use Rattle.qt_check_gate_items.specs.Reckons.{Reckons, as_reckoned};

use crate::builtins::builtin_at;
use crate::reckoned::{Reckoned, angular};
use crate::rules::{
    before_reckoned, between_reckoned, cast_parameter, parameter_angle, parameter_number,
};
use qt_check_expressions::constants::{constant_at, type_at};
use qt_check_expressions::sorts::{is_fixed, sort_at};
use qt_check_gate_calls::arguments::constant_units;
use qt_check_operands::expression::typed;
use qt_const::modes::Mode;
use qt_const_rules::sorts::Sort;
use qt_gate_calls::angle::Angle;
use qt_phase::phase::Phase;
use qt_tree::expression::{Expr, Index, Scalar};
use qt_tree::label::Label;
use qt_tree::place::Place;
use qt_tree::refusal::TextRefusal;
use qt_typing::names::Names;
use sqlite_items::{Boxed, Items};
use std::alloc::Global;

/// Whether an expression is constant and no phase, so that it may stand beside a parameter.
fn stands_beside(names: &Names, expr: &Expr) -> bool
    ensures { result ≡ (sorts.is_fixed names.now expr.now && not (spec.is_phase (sorts.sort_at names.now expr.now))) }
{
    is_fixed(names, expr) && !is_phase(sort_at(names, expr))
}

/// Whether the sort is that of phases.
fn is_phase(sort: Sort) -> bool
    ensures { result ≡ spec.is_phase sort }
{
    match sort {
        Sort::Phase => true,
        _ => false,
    }
}

/// What stands beside a parameter is typed, and reckoned exactly.
fn constant_part(
    alloc: Global,
    names: &Names,
    place: Place,
    whole: &Expr,
) -> Result<Reckoned, TextRefusal>
    ensures { Reckons (spec.constant_part names.now place whole.now) result }
{
    typed(alloc, names, Mode::Exact, place, whole)?;
    let constant = constant_at(alloc, names, Mode::Exact, place, whole)?;
    Ok(Reckoned::Constant { constant })
}

/// A name, which has to be that of a parameter.
fn name_reckoned(
    alloc: Global,
    names: &Names,
    place: Place,
    name: &Label,
    brackets: &[Items<Index>],
) -> Result<Reckoned, TextRefusal>
    ensures { Reckons
        (and_then (or_unknown name.now place (found names.now.scopes name.now))
        (λ it. spec.parameter_angle place name.now (spec.no_brackets brackets.now) (spec.parameter_number it.what it)))
        result }
{
    let it = names.scopes.find(name.text(), place)?;
    parameter_angle(alloc, place, name, brackets, parameter_number(it))
}

/// A part of an angle, reckoned in a body at that place.
#[cycle(reckoned)]
#[tactic(auto, using(crate::proofs::Views::reckoned_is))]
fn reckoned_of(
    alloc: Global,
    names: &Names,
    place: Place,
    expr: &Expr,
) -> Result<Reckoned, TextRefusal>
    ensures { Reckons (spec.reckoned_of names.now place expr.now) result }
{
    if stands_beside(names, expr) {
        constant_part(alloc, names, place, expr)
    } else {
        angle_form(alloc, names, place, expr)
    }
}

/// A part of an angle that rests on a parameter, or is a phase, by its form.
#[cycle(reckoned)]
#[tactic(auto, using(crate::proofs::Views::no_brackets_again))]
fn angle_form(
    alloc: Global,
    names: &Names,
    place: Place,
    expr: &Expr,
) -> Result<Reckoned, TextRefusal>
    ensures { Reckons (spec.angle_form names.now place (layer_of names.now place expr.now)) result }
{
    match expr {
        Expr::Pi => Ok(angular(alloc, Angle::Units { units: Phase::pi() })?),
        Expr::Tau => Ok(angular(
            alloc,
            Angle::Units {
                units: Phase::tau(),
            },
        )?),
        Expr::Parenthesized { inner } => reckoned_of(alloc, names, place, inner.get()),
        Expr::Name { name, brackets } => {
            name_reckoned(alloc, names, place, name, brackets.as_slice())
        }
        Expr::Call { name, arguments } => { call_reckoned(alloc, names, place, name, arguments) }
        Expr::Cast { to, operand } => cast_reckoned(alloc, names, place, to, operand.get()),
        Expr::Unary { operator, operand } => {
            let of = reckoned_of(alloc, names, place, operand.get())?;
            before_reckoned(alloc, place, *operator, of)
        }
        Expr::Binary {
            operator,
            left,
            right,
        } => {
            let left = reckoned_of(alloc, names, place, left.get())?;
            let right = reckoned_of(alloc, names, place, right.get())?;
            between_reckoned(alloc, place, *operator, left, right)
        }
        _ => Err(TextRefusal::E10(place)),
    }
}

/// The refusal of the call of a function of the language.
#[cycle(reckoned)]
fn call_reckoned(
    alloc: Global,
    names: &Names,
    place: Place,
    name: &Label,
    arguments: &Items<Expr>,
) -> Result<Reckoned, TextRefusal>
    ensures { Reckons
        (and_then (builtin_at place name.now (found names.now.scopes name.now))
        (λ builtin. and_then (spec.all_reckoned (map (part names.now place) arguments.now)) (λ done. Err (refusal.E10 place))))
        result }
{
    builtin_at(alloc, place, name, names.scopes.known(name.text()))?;
    all_reckoned(alloc, names, place, arguments.as_slice())?;
    Err(TextRefusal::E10(place))
}

/// That each argument is reckoned.
#[cycle(reckoned)]
fn all_reckoned(
    alloc: Global,
    names: &Names,
    place: Place,
    arguments: &[Expr],
) -> Result<(), TextRefusal>
    ensures { Gives (spec.all_reckoned (map (part names.now place) arguments.now)) result }
{
    match arguments {
        [] => Ok(()),
        [first, rest @ ..] => {
            reckoned_of(alloc, names, place, first)?;
            all_reckoned(alloc, names, place, rest)
        }
    }
}

/// The refusal of a cast.
#[cycle(reckoned)]
fn cast_reckoned(
    alloc: Global,
    names: &Names,
    place: Place,
    to: &Scalar,
    operand: &Expr,
) -> Result<Reckoned, TextRefusal>
    ensures { Reckons
        (and_then (type_at names.now mode.Exact place to.now)
        (λ kind. and_then (spec.reckoned_of names.now place operand.now) (λ of. spec.cast_parameter place kind)))
        result }
{
    let kind = type_at(alloc, names, Mode::Exact, place, to)?;
    reckoned_of(alloc, names, place, operand)?;
    cast_parameter(place, kind)
}

/// An angle of parameters: E10 of a constant.
fn parameters_angle(place: Place, of: Reckoned) -> Result<Boxed<Angle>, TextRefusal>
    ensures { Gives (spec.parameters_angle place (as_reckoned of)) result }
{
    match of {
        Reckoned::Angular { angle } => Ok(angle),
        Reckoned::Constant { .. } => Err(TextRefusal::E10(place)),
    }
}

/// An argument that is constant as a whole, which is typed and then reckoned.
fn constant_angle(
    alloc: Global,
    names: &Names,
    place: Place,
    expr: &Expr,
) -> Result<Boxed<Angle>, TextRefusal>
    ensures { Gives
        (and_then (typed_of names.now mode.Plain place expr.now) (λ x.
        and_then (constant_at names.now mode.Plain place expr.now) (λ c.
        and_then (constant_units place c) (λ p. Ok (angle_variant.Units p)))))
        result }
{
    typed(alloc, names, Mode::Plain, place, expr)?;
    let constant = constant_at(alloc, names, Mode::Plain, place, expr)?;
    let units = constant_units(place, constant)?;
    Ok(Boxed::new(alloc, Angle::Units { units })?)
}

/// An argument in a body: constant as a whole, or an angle of parameters, in which what stands beside a parameter is constant and reckoned
/// exactly.
#[tactic(auto, unfolding(qt_typing::specs::GateItems::body_angle))]
fn body_angle(
    alloc: Global,
    names: &Names,
    place: Place,
    expr: &Expr,
) -> Result<Boxed<Angle>, TextRefusal>
    ensures { Gives (spec.body_angle names.now place expr.now) result }
{
    if is_fixed(names, expr) {
        return constant_angle(alloc, names, place, expr);
    }
    let of = reckoned_of(alloc, names, place, expr)?;
    parameters_angle(place, of)
}

/// The arguments of a call in a body, in order: E8 of a name that is no parameter's, E10 where types don't fit, E12 of what isn't constant,
/// exact or in range. OpenQASM 3.0, "Gates", hierarchically defined unitary gates.
#[tactic(auto, unfolding(qt_typing::specs::GateItems::angles_from))]
pub fn angles_from(
    alloc: Global,
    names: &Names,
    place: Place,
    mut arguments: &[Expr],
) -> Result<Items<Angle>, TextRefusal>
    ensures { Gives (spec.angles_from names.now place [] arguments.entry.now) result }
{
    let mut angles = Items::new(alloc);
    while let [argument, rest @ ..] = arguments {
        let angle = body_angle(alloc, names, place, argument)?;
        angles.push(angle.into_inner())?;
        arguments = rest;
    }
    Ok(angles)
}
