//! Statements without a body.

ghost use Rattle.std.specs.Prelude.{◌≡◌};
ghost use Rattle.qt_typed.specs.declared.statement.TypedAction.TheVariants as action;
ghost use Rattle.qt_typing.specs.Checked.{Makes};
ghost use Rattle.qt_typing.specs.Declarations as declarations;
ghost use Rattle.qt_typing.specs.Environment.{pure, seen};
ghost use Rattle.qt_typing.specs.Statements as spec;

use crate::parts::simple;
use qt_check_assignments::assignments::assignment;
use qt_check_assignments::calls::{call_statement, returned};
use qt_check_assignments::declarations::declaration_of;
use qt_check_assignments::updates::update;
use qt_check_declarations::constants::constant_of;
use qt_check_declarations::registers::bit_register;
use qt_check_gate_calls::calls::gate_call;
use qt_check_statements::aliases::alias_of;
use qt_check_statements::instructions::{barrier, measure, reset};
use qt_tree::expression::{CompoundOperator, Expr, Scalar};
use qt_tree::label::Label;
use qt_tree::refusal::{Cause, TextRefusal};
use qt_tree::statement::{GateCall, Operand, Right, Target};
use qt_typed::statement::{Spot, TypedAction, TypedStatement};
use qt_typing::state::{Around, State};
use sqlite_items::Boxed;
use std::alloc::Global;

/// A statement that is typed: none where it does nothing when it runs.
pub type TypedForm = Result<Option<Boxed<TypedStatement>>, TextRefusal>;

/// `int[8] n = 2;`
pub(crate) fn declaration(
    alloc: Global,
    state: &mut State,
    at: Spot,
    scalar: &Scalar,
    name: &Label,
    value: &Option<Right>,
) -> TypedForm
    ensures { Makes (spec.simple at (declarations.declaration_of at.place scalar.now name.now value.now) state.old) result state.new }
{
    let action = declaration_of(alloc, state, at.place, scalar, name.text(), value.as_ref())?;
    Ok(simple(alloc, at, action)?)
}

/// `creg c[2];`
pub(crate) fn bits(
    alloc: Global,
    state: &mut State,
    at: Spot,
    name: &Label,
    size: &Option<Expr>,
) -> TypedForm
    ensures { Makes (spec.simple at (declarations.bit_register at.place name.now size.now) state.old) result state.new }
{
    let action = bit_register(alloc, state, at.place, name.text(), size.as_ref())?;
    Ok(simple(alloc, at, action)?)
}

/// `const int n = 2;`
pub(crate) fn constant(
    alloc: Global,
    state: &mut State,
    at: Spot,
    scalar: &Scalar,
    name: &Label,
    value: &Expr,
) -> TypedForm
    ensures { Makes (spec.silent (declarations.constant_of at.place scalar.now name.now value.now) state.old) result state.new }
{
    constant_of(alloc, state, at.place, scalar, name.text(), value)?;
    Ok(None)
}

/// `let a = q[0:1] ++ r;`
pub(crate) fn alias(
    alloc: Global,
    state: &mut State,
    at: Spot,
    name: &Label,
    parts: &[Operand],
) -> TypedForm
    ensures { Makes (spec.silent (declarations.alias_of at.place name.now parts.now) state.old) result state.new }
{
    alias_of(alloc, state, at.place, name.text(), parts)?;
    Ok(None)
}

/// `c = measure q;`
pub(crate) fn assigned(
    alloc: Global,
    state: &mut State,
    at: Spot,
    target: &Target,
    value: &Right,
) -> TypedForm
    ensures { Makes (spec.simple at (spec.assignment at.place target.now value.now) state.old) result state.new }
{
    let action = assignment(alloc, state, at.place, target, value)?;
    Ok(simple(alloc, at, action)?)
}

/// `n += 2;`
pub(crate) fn updated(
    alloc: Global,
    state: &State,
    at: Spot,
    target: &Target,
    operator: CompoundOperator,
    value: &Expr,
) -> TypedForm
    ensures { Makes (spec.simple at (seen (spec.update at.place target.now operator value.now)) state.now) result state.now }
{
    let action = update(alloc, &state.names, at.place, target, operator, value)?;
    Ok(simple(alloc, at, action)?)
}

/// `measure q -> c;`
pub(crate) fn measured(
    alloc: Global,
    state: &State,
    at: Spot,
    qubits: &Operand,
    target: &Option<Target>,
) -> TypedForm
    ensures { Makes (spec.simple at (seen (spec.measure at.place qubits.now target.now)) state.now) result state.now }
{
    let action = measure(alloc, &state.names, at.place, qubits, target.as_ref())?;
    Ok(simple(alloc, at, action)?)
}

/// `reset q;`
pub(crate) fn put_back(alloc: Global, state: &State, at: Spot, qubits: &Operand) -> TypedForm
    ensures { Makes (spec.simple at (seen (spec.reset at.place qubits.now)) state.now) result state.now }
{
    let action = reset(alloc, &state.names, at.place, qubits)?;
    Ok(simple(alloc, at, action)?)
}

/// `barrier q;`
pub(crate) fn held(alloc: Global, state: &State, at: Spot, qubits: &[Operand]) -> TypedForm
    ensures { Makes (spec.simple at (seen (spec.barrier at.place qubits.now)) state.now) result state.now }
{
    let action = barrier(alloc, &state.names, at.place, qubits)?;
    Ok(simple(alloc, at, action)?)
}

/// `ctrl @ x q[0], q[1];`
#[tactic(auto, unfolding(qt_typing::specs::Statements::gate_statement))]
pub(crate) fn gate(alloc: Global, state: &State, at: Spot, call: &GateCall) -> TypedForm
    ensures { Makes (spec.simple at (spec.gate_statement at.place call.now) state.now) result state.now }
{
    let action = gate_call(
        alloc,
        at.place,
        state.included,
        &state.all_gates,
        call,
        &state.names,
    )?;
    Ok(simple(alloc, at, action)?)
}

/// `f(q, 2);`
pub(crate) fn called(
    alloc: Global,
    state: &mut State,
    at: Spot,
    name: &Label,
    arguments: &[Expr],
) -> TypedForm
    ensures { Makes (spec.simple at (spec.call_statement at.place name.now arguments.now) state.old) result state.new }
{
    let action = call_statement(alloc, state, at.place, name, arguments)?;
    Ok(simple(alloc, at, action)?)
}

/// `return n;`
pub(crate) fn returning(
    alloc: Global,
    state: &mut State,
    at: Spot,
    around: Around,
    value: &Option<Right>,
) -> TypedForm
    ensures { Makes (spec.simple at (spec.return at.place around.returns value.now) state.old) result state.new }
{
    let action = returned(alloc, state, at.place, around.returns, value.as_ref())?;
    Ok(simple(alloc, at, action)?)
}

/// `break;`: E11 `loop` outside of loops.
#[tactic(auto, unfolding(qt_typing::specs::Statements::jump))]
pub(crate) fn breaking(alloc: Global, state: &State, at: Spot, around: Around) -> TypedForm
    ensures { Makes (spec.simple at (seen (λ names. spec.jump at.place around action.Break)) state.now) result state.now }
{
    if !around.in_loop {
        return Err(TextRefusal::E11(at.place, Cause::Loop));
    }
    Ok(simple(alloc, at, TypedAction::Break)?)
}

/// `continue;`: E11 `loop` outside of loops.
#[tactic(auto, unfolding(qt_typing::specs::Statements::jump))]
pub(crate) fn continuing(alloc: Global, state: &State, at: Spot, around: Around) -> TypedForm
    ensures { Makes (spec.simple at (seen (λ names. spec.jump at.place around action.Continue)) state.now) result state.now }
{
    if !around.in_loop {
        return Err(TextRefusal::E11(at.place, Cause::Loop));
    }
    Ok(simple(alloc, at, TypedAction::Continue)?)
}

/// `end;`
pub(crate) fn ending(alloc: Global, state: &State, at: Spot) -> TypedForm
    ensures { Makes (spec.simple at (pure action.End) state.now) result state.now }
{
    Ok(simple(alloc, at, TypedAction::End)?)
}
