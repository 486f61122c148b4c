//! Right sides.

ghost use Rattle.std.specs.Prelude.{◌≡◌, IfOk};
ghost use Rattle.std.specs.Option.{option_copied};
ghost use Rattle.qt_tree.specs.declared.expression.Expr.{out-Expr};
ghost use Rattle.qt_typing.specs.Checked.{Gives, Makes, and_then};
ghost use Rattle.qt_typing.specs.Calls as spec;
ghost use Rattle.qt_check_calls.specs.Forms.{form_of};

use crate::calls::{calling, subroutine_number};
use qt_check_expressions::convert::{converts, is_same};
use qt_check_operands::expression::value_at;
use qt_check_qubits::operands::operand_qubits;
use qt_check_qubits::qubits::outcomes_fit;
use qt_names::named::Named;
use qt_outside::faults::OutOfMemory;
use qt_tree::expression::Expr;
use qt_tree::label::Label;
use qt_tree::place::Place;
use qt_tree::refusal::TextRefusal;
use qt_tree::statement::{Operand, Right};
use qt_typed::statement::TypedRight;
use qt_typing::names::Names;
use qt_typing::state::{Called, State};
use qt_typing::way::Way;
use qt_value::types::ValueType;
use sqlite_items::Boxed;
use std::alloc::Global;

/// What a right side is: a measurement, a subroutine's call, or an expression.
#[derive(Clone, Copy)]
pub enum RightForm<'a> {
    /// The outcomes of these qubits.
    Measured { qubits: &'a Operand },
    /// A subroutine by its name, and what it is given.
    Calls { name: &'a Label, given: &'a [Expr] },
    /// The value of an expression.
    Plain { expr: &'a Expr },
}

/// Whether a name is one of a subroutine.
fn is_subroutine(it: Option<&Named>) -> bool
    ensures { result ≡ spec.is_subroutine (option_copied it.entry) }
{
    match it {
        Some(it) => subroutine_number(it).is_some(),
        None => false,
    }
}

/// What an expression is as a right side.
fn expr_right<'a>(names: &Names, expr: &'a Expr) -> RightForm<'a>
    ensures { form_of result ≡ spec.expr_right names.now expr.now (out-Expr expr.now) }
{
    match expr {
        Expr::Call { name, arguments } if is_subroutine(names.scopes.known(name.text())) => {
            RightForm::Calls {
                name,
                given: arguments.as_slice(),
            }
        }
        _ => RightForm::Plain { expr },
    }
}

/// What a right side is.
#[tactic(auto, unfolding(qt_typing::specs::Calls::right_form))]
pub fn right_form<'a>(names: &Names, right: &'a Right) -> RightForm<'a>
    ensures { form_of result ≡ spec.right_form names.now right.now }
{
    match right {
        Right::Measure { qubits } => RightForm::Measured { qubits },
        Right::Value { value } => expr_right(names, value),
    }
}

/// Whether a result of one type is taken as a value of another.
#[tactic(auto, unfolding(qt_typing::specs::Calls::fits_type))]
pub fn fits_type(from: ValueType, to: ValueType) -> bool
    ensures { result ≡ spec.fits_type from to }
{
    is_same(from, to) || converts(Way::Unwritten, from, to)
}

/// The type of a call's result: E10 where the subroutine has none.
#[tactic(auto, unfolding(qt_typing::specs::Calls::result_at))]
pub fn result_at(place: Place, called: &Called) -> Result<ValueType, TextRefusal>
    ensures { Gives (spec.result_at place called.now) result }
{
    match called.result {
        Some(kind) => Ok(kind),
        None => Err(TextRefusal::E10(place)),
    }
}

/// A right side in a box.
fn boxed(alloc: Global, right: TypedRight) -> Result<Boxed<TypedRight>, OutOfMemory>
    ensures { IfOk result (λ form. form ≡ right) }
{
    Ok(Boxed::new(alloc, right)?)
}

/// The result of a call as a value of a type: E10 where no conversion fits.
#[tactic(auto, unfolding(qt_typing::specs::Calls::call_as))]
pub fn call_as(
    alloc: Global,
    place: Place,
    to: ValueType,
    called: Called,
    from: ValueType,
) -> Result<Boxed<TypedRight>, TextRefusal>
    ensures { Gives (spec.call_as place to called from) result }
{
    if !fits_type(from, to) {
        return Err(TextRefusal::E10(place));
    }
    let Called { call, .. } = called;
    Ok(boxed(
        alloc,
        TypedRight::Call {
            call,
            result: from,
            to,
        },
    )?)
}

/// The outcomes of qubits as a value of a type: E14 where it has another number of bits.
#[tactic(auto, unfolding(qt_typing::specs::Calls::measured))]
pub fn measured(
    alloc: Global,
    names: &Names,
    place: Place,
    to: ValueType,
    operand: &Operand,
) -> Result<Boxed<TypedRight>, TextRefusal>
    ensures { Gives (spec.measured place to operand.now names.now) result }
{
    let of = operand_qubits(alloc, names, place, operand)?;
    outcomes_fit(place, to.width(), of.get())?;
    let qubits = of.into_inner();
    Ok(boxed(alloc, TypedRight::Measure { qubits })?)
}

/// An expression as a value of a type.
#[tactic(auto, unfolding(qt_typing::specs::Calls::plain))]
pub fn plain(
    alloc: Global,
    names: &Names,
    place: Place,
    to: ValueType,
    expr: &Expr,
) -> Result<Boxed<TypedRight>, TextRefusal>
    ensures { Gives (spec.plain place to expr.now names.now) result }
{
    let value = value_at(alloc, names, place, to, expr)?.into_inner();
    Ok(boxed(alloc, TypedRight::Value { value })?)
}

/// A call with its result as a value of a type.
fn result_as(
    alloc: Global,
    place: Place,
    to: ValueType,
    called: Called,
) -> Result<Boxed<TypedRight>, TextRefusal>
    ensures { Gives (and_then (spec.result_at place called) (spec.call_as place to called)) result }
{
    let from = result_at(place, &called)?;
    call_as(alloc, place, to, called, from)
}

/// A subroutine's result as a value of a type.
fn result_of_call(
    alloc: Global,
    state: &mut State,
    place: Place,
    to: ValueType,
    name: &Label,
    given: &[Expr],
) -> Result<Boxed<TypedRight>, TextRefusal>
    ensures { Makes (spec.right_of place to (spec.Calls name.now given.now) state.old) result state.new }
{
    let called = calling(alloc, state, place, name, given)?;
    result_as(alloc, place, to, called)
}

/// What a right side is, as a value of a type.
pub fn right_of(
    alloc: Global,
    state: &mut State,
    place: Place,
    to: ValueType,
    form: RightForm<'_>,
) -> Result<Boxed<TypedRight>, TextRefusal>
    ensures { Makes (spec.right_of place to (form_of form.entry) state.old) result state.new }
{
    match form {
        RightForm::Measured { qubits } => measured(alloc, &state.names, place, to, qubits),
        RightForm::Calls { name, given } => result_of_call(alloc, state, place, to, name, given),
        RightForm::Plain { expr } => plain(alloc, &state.names, place, to, expr),
    }
}

/// A right side as a value of a type.
#[tactic(auto, unfolding(qt_typing::specs::Calls::right_at))]
pub fn right_at(
    alloc: Global,
    state: &mut State,
    place: Place,
    to: ValueType,
    right: &Right,
) -> Result<Boxed<TypedRight>, TextRefusal>
    ensures { Makes (spec.right_at place to right.now state.old) result state.new }
{
    let form = right_form(&state.names, right);
    right_of(alloc, state, place, to, form)
}

/// A right side that may be left out.
#[tactic(auto, unfolding(qt_typing::specs::Calls::optional_right))]
pub fn optional_right(
    alloc: Global,
    state: &mut State,
    place: Place,
    to: ValueType,
    right: Option<&Right>,
) -> Result<Option<Boxed<TypedRight>>, TextRefusal>
    ensures { Makes (spec.optional_right place to (option_copied right.entry) state.old) result state.new }
{
    match right {
        Some(right) => Ok(Some(right_at(alloc, state, place, to, right)?)),
        None => Ok(None),
    }
}
