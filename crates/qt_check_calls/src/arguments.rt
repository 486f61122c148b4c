//! What a subroutine is given.

ghost use Rattle.std.specs.Prelude.{◌≡◌, Ok, Some, None, MatchOption, length};
ghost use Rattle.std.specs.Option.{option_copied};
ghost use Rattle.qt_tree.specs.declared.expression.Expr.{out-Expr};
ghost use Rattle.qt_tree.specs.declared.refusal.Cause.TheVariants as cause;
ghost use Rattle.qt_tree.specs.declared.refusal.TextRefusal.TheVariants as refusal;
ghost use Rattle.qt_typed.specs.declared.program.TypedParameter.TheVariants as parameter;
ghost use Rattle.qt_typing.specs.Checked.{Gives, and_then, told, unless};
ghost use Rattle.qt_typing.specs.Qubits.{repeats};
ghost use Rattle.qt_typing.specs.Calls as spec;
ghost use Rattle.qt_check_calls.specs.Forms.{given_of, GivesGiven};
ghost use Rattle.qt_check_declarations.specs.Changing.{Becomes};

use qt_check_operands::expression::value_at;
use qt_check_qubits::operands::qubits_at;
use qt_check_qubits::repeats::repeats;
use qt_tree::expression::{Expr, Index};
use qt_tree::label::Label;
use qt_tree::place::Place;
use qt_tree::refusal::{Cause, TextRefusal};
use qt_typed::call::{TypedQubit, TypedQubits};
use qt_typed::expression::TypedExpr;
use qt_typed::program::TypedParameter;
use qt_typing::names::Names;
use qt_value::types::ValueType;
use sqlite_items::{Boxed, Items};
use std::alloc::Global;

/// What a call is given so far: its values, and its qubits.
#[derive(Drop)]
pub struct Given {
    pub values: Items<TypedExpr>,
    pub qubits: Items<TypedQubits>,
}

/// The name and the index that may stand for a qubit: one index at most.
fn as_operand(expr: &Expr) -> Option<(&Label, Option<&Index>)>
    ensures { MatchOption result
        (spec.as_operand (out-Expr expr.now) ≡ None)
        (λ it. spec.as_operand (out-Expr expr.now) ≡ Some (record { name = it.0.now; index = option_copied it.1 })) }
{
    match expr {
        Expr::Name { name, brackets } => match brackets.as_slice() {
            [] => Some((name, None)),
            [indexes] => match indexes.as_slice() {
                [index] => Some((name, Some(index))),
                _ => None,
            },
            _ => None,
        },
        _ => None,
    }
}

/// The qubits that an argument names: E10 where it is no name with one index at most.
#[tactic(auto, unfolding(qt_typing::specs::Calls::argument_qubits))]
pub fn argument_qubits(
    alloc: Global,
    names: &Names,
    place: Place,
    expr: &Expr,
) -> Result<Boxed<TypedQubits>, TextRefusal>
    ensures { Gives (spec.argument_qubits names.now place expr.now) result }
{
    match as_operand(expr) {
        Some((name, index)) => qubits_at(alloc, names, place, name, index),
        None => Err(TextRefusal::E10(place)),
    }
}

/// That a single qubit stands where one is wanted: E10 of a register.
#[tactic(auto, unfolding(qt_typing::specs::Calls::single_fits))]
fn single_fits(place: Place, of: &TypedQubits) -> Result<(), TextRefusal>
    ensures { Gives (spec.single_fits place of.now) result }
{
    match of {
        TypedQubits::Single { .. } => Ok(()),
        TypedQubits::Register { .. } => Err(TextRefusal::E10(place)),
    }
}

/// That a register of a size stands where one is wanted: E11 `register` of a qubit that is known in the run alone, E10 of others.
#[tactic(auto, unfolding(qt_typing::specs::Calls::register_fits))]
fn register_fits(place: Place, size: u32, of: &TypedQubits) -> Result<(), TextRefusal>
    ensures { Gives (spec.register_fits place size of.now) result }
{
    match of {
        TypedQubits::Register { qubits } if qubits.size() == u64::from(size) => Ok(()),
        TypedQubits::Single {
            qubit: TypedQubit::Indexed { .. },
        } => Err(TextRefusal::E11(place, Cause::Register)),
        _ => Err(TextRefusal::E10(place)),
    }
}

/// Adds a value.
#[tactic(auto, unfolding(qt_typing::specs::Calls::argument))]
fn value_argument(
    alloc: Global,
    names: &Names,
    place: Place,
    done: &mut Given,
    kind: ValueType,
    slot: u32,
    expr: &Expr,
) -> Result<(), TextRefusal>
    ensures { Becomes (spec.argument names.now place (given_of done.old) (parameter.Value kind slot) expr.now) result (given_of done.new) }
{
    let form = value_at(alloc, names, place, kind, expr)?;
    Ok(done.values.push(form.into_inner())?)
}

/// Adds qubits that are found: E11 `qubit` where one of them, or their name as a single qubit, stands in the call already.
fn qubits_added(place: Place, done: &mut Given, of: Boxed<TypedQubits>) -> Result<(), TextRefusal>
    ensures { Becomes
        (and_then (unless (repeats done.old.qubits of) (refusal.E11 place cause.Qubit)) (λ _. Ok (spec.with_qubits (given_of done.old) of)))
        result (given_of done.new) }
{
    if repeats(done.qubits.as_slice(), of.get()) {
        return Err(TextRefusal::E11(place, Cause::Qubit));
    }
    Ok(done.qubits.push(of.into_inner())?)
}

/// Adds a single qubit.
#[tactic(auto, unfolding(qt_typing::specs::Calls::argument))]
fn qubit_argument(
    alloc: Global,
    names: &Names,
    place: Place,
    done: &mut Given,
    slot: u32,
    expr: &Expr,
) -> Result<(), TextRefusal>
    ensures { Becomes (spec.argument names.now place (given_of done.old) (parameter.Qubit slot) expr.now) result (given_of done.new) }
{
    let of = argument_qubits(alloc, names, place, expr)?;
    single_fits(place, of.get())?;
    qubits_added(place, done, of)
}

/// Adds a register of a size.
#[tactic(auto, unfolding(qt_typing::specs::Calls::argument))]
fn register_argument(
    alloc: Global,
    names: &Names,
    place: Place,
    done: &mut Given,
    slot: u32,
    size: u32,
    expr: &Expr,
) -> Result<(), TextRefusal>
    ensures { Becomes
        (spec.argument names.now place (given_of done.old) (parameter.Register slot size) expr.now) result (given_of done.new) }
{
    let of = argument_qubits(alloc, names, place, expr)?;
    register_fits(place, size, of.get())?;
    qubits_added(place, done, of)
}

/// Adds an argument for a parameter: what a value is refused for, E8 and E10 of what is no qubit or no register of that size, E11
/// `register` where its qubits aren't known before the run, E11 `qubit` where one stands in the call already. OpenQASM 3.0, "Subroutines".
pub fn argument(
    alloc: Global,
    names: &Names,
    place: Place,
    done: &mut Given,
    parameter: TypedParameter,
    expr: &Expr,
) -> Result<(), TextRefusal>
    ensures { Becomes (spec.argument names.now place (given_of done.old) parameter expr.now) result (given_of done.new) }
{
    match parameter {
        TypedParameter::Value { kind, slot } => {
            value_argument(alloc, names, place, done, kind, slot, expr)
        }
        TypedParameter::Qubit { slot } => qubit_argument(alloc, names, place, done, slot, expr),
        TypedParameter::Register { slot, size } => {
            register_argument(alloc, names, place, done, slot, size, expr)
        }
    }
}

/// Adds an argument for each parameter, as long as there are both.
#[tactic(auto, unfolding(qt_typing::specs::Calls::arguments_from))]
fn arguments_from(
    alloc: Global,
    names: &Names,
    place: Place,
    done: &mut Given,
    mut parameters: &[TypedParameter],
    mut given: &[Expr],
) -> Result<(), TextRefusal>
    ensures { Becomes
        (spec.arguments_from names.now place (given_of done.old) parameters.entry.now given.entry.now) result (given_of done.new) }
{
    while let [parameter, others @ ..] = parameters {
        let [expr, rest @ ..] = given else {
            return Ok(());
        };
        argument(alloc, names, place, done, *parameter, expr)?;
        parameters = others;
        given = rest;
    }
    Ok(())
}

/// The refusal of another number of arguments than is wanted.
fn arity(place: Place, parameters: &[TypedParameter], given: &[Expr]) -> TextRefusal
    ensures { result ≡ refusal.E14 place (told (length parameters.now)) (told (length given.now)) }
{
    let wanted = u32::try_from(parameters.len()).unwrap_or(u32::MAX);
    let found = u32::try_from(given.len()).unwrap_or(u32::MAX);
    TextRefusal::E14(place, wanted, found)
}

/// What a subroutine of these parameters is given: E14 of another number of arguments, and then what the first argument is refused for that
/// doesn't fit.
#[tactic(auto, unfolding(qt_typing::specs::Calls::arguments))]
pub fn arguments(
    alloc: Global,
    names: &Names,
    place: Place,
    parameters: &[TypedParameter],
    given: &[Expr],
) -> Result<Given, TextRefusal>
    ensures { GivesGiven (spec.arguments names.now place parameters.now given.now) result }
{
    if parameters.len() != given.len() {
        return Err(arity(place, parameters, given));
    }
    let mut done = Given {
        values: Items::new(alloc),
        qubits: Items::new(alloc),
    };
    arguments_from(alloc, names, place, &mut done, parameters, given)?;
    Ok(done)
}
