//! Constants.

ghost use Rattle.std.specs.Prelude.{◌≡◌, IsTrue};
ghost use Rattle.qt_value.specs.Types.{has_size};
ghost use Rattle.qt_value.specs.declared.constant.ConstValue.TheVariants as constant;
ghost use Rattle.qt_typing.specs.Checked.{Gives, Makes, answer_at};
ghost use Rattle.qt_const.specs.Constants.{cast_to};
ghost use Rattle.qt_typing.specs.Declarations.{constant_as, constant_named, constant_of, constant_valued, declare_constant};

use crate::names::{declare, declare_in_both};
use crate::sizes::typed_name;
use qt_check_expressions::constants::constant_at;
use qt_check_rules::conversions::rescales;
use qt_const::casts;
use qt_const::modes::Mode;
use qt_const_rules::consts::Known;
use qt_names::named::{Named, Places, What};
use qt_tree::expression::{Expr, Scalar};
use qt_tree::lengths::Lengths;
use qt_tree::place::Place;
use qt_tree::refusal::TextRefusal;
use qt_typing::names::Names;
use qt_typing::state::State;
use qt_value::constant::ConstValue;
use qt_value::types::ValueType;
use qt_value::value::Value;
use std::alloc::Global;

/// A constant by a cast that is written.
fn cast_at(place: Place, to: ValueType, constant: ConstValue) -> Result<ConstValue, TextRefusal>
    requires { IsTrue (has_size to) }
    ensures { Gives (answer_at place (cast_to to constant)) result }
{
    match casts::cast_to(to, constant) {
        Ok(value) => Ok(value),
        Err(fault) => Err(fault.at(place)),
    }
}

/// A value as one of a type, without a cast that is written: E10 where an angle would become one of another width.
#[tactic(auto, unfolding(qt_typing::specs::Declarations::constant_as))]
fn value_as(place: Place, to: ValueType, value: Value) -> Result<ConstValue, TextRefusal>
    requires { IsTrue (has_size to) }
    ensures { Gives (constant_as place to (constant.Value value)) result }
{
    if rescales(value.kind(), to) {
        return Err(TextRefusal::E10(place));
    }
    cast_at(place, to, ConstValue::Value(value))
}

/// A constant as one of a type, without a cast that is written.
#[tactic(auto, unfolding(qt_typing::specs::Declarations::constant_as))]
pub fn constant_as(
    place: Place,
    to: ValueType,
    constant: ConstValue,
) -> Result<ConstValue, TextRefusal>
    requires { IsTrue (has_size to) }
    ensures { Gives (constant_as place to constant) result }
{
    match constant {
        ConstValue::Value(value) => value_as(place, to, value),
        ConstValue::Phase(phase) => cast_at(place, to, ConstValue::Phase(phase)),
    }
}

/// The value of a constant of a type.
#[tactic(auto, unfolding(qt_typing::specs::Declarations::constant_valued))]
pub fn constant_valued(
    alloc: Global,
    names: &Names,
    place: Place,
    kind: ValueType,
    expr: &Expr,
) -> Result<ConstValue, TextRefusal>
    requires { IsTrue (has_size kind) }
    ensures { Gives (constant_valued place kind expr.now names.now) result }
{
    let constant = constant_at(alloc, names, Mode::Plain, place, expr)?;
    constant_as(place, kind, constant)
}

/// What the name of a constant stands for.
fn constant_named(alloc: Global, kind: ValueType) -> Named
    ensures { result ≡ constant_named kind }
{
    Named {
        what: What::Constant,
        of: Some(kind),
        lengths: Lengths::from_vec(Vec::new(alloc)),
        places: Places::Nowhere,
    }
}

/// Declares a constant. The bodies of subroutines and gates see a global one.
#[tactic(auto, using(crate::proofs::Global::declared_in_both, crate::proofs::Global::declared_alone))]
pub fn declare_constant(
    alloc: Global,
    state: &mut State,
    place: Place,
    name: &str,
    kind: ValueType,
    value: ConstValue,
) -> Result<(), TextRefusal>
    ensures { Makes (declare_constant place name.now kind value state.old) result state.new }
{
    let (named, known) = (constant_named(alloc, kind), Known::Constant(value));
    if state.names.scopes.is_outermost() {
        declare_in_both(alloc, state, place, name, named, known)
    } else {
        declare(state, place, name, named, known)
    }
}

/// `const int n = 2;`: the type, then whether the name is new, then the value.
#[tactic(auto, unfolding(qt_typing::specs::Declarations::constant_of))]
pub fn constant_of(
    alloc: Global,
    state: &mut State,
    place: Place,
    scalar: &Scalar,
    name: &str,
    expr: &Expr,
) -> Result<(), TextRefusal>
    ensures { Makes (constant_of place scalar.now name.now expr.now state.old) result state.new }
{
    let kind = typed_name(alloc, &state.names, place, scalar, name)?;
    let value = constant_valued(alloc, &state.names, place, kind, expr)?;
    declare_constant(alloc, state, place, name, kind, value)
}
