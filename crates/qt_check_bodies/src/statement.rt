//! Statements, and the bodies of statements.

ghost use Rattle.std.specs.Prelude.{◌≡◌, map};
ghost use Rattle.qt_typing.specs.Checked.{Makes};
ghost use Rattle.qt_typing.specs.Statements as spec;
ghost use Rattle.qt_check_bodies.specs.Bodies.{optional_readings};

use crate::forms::{
    TypedForm, alias, assigned, bits, breaking, called, constant, continuing, declaration, ending,
    gate, held, measured, put_back, returning, updated,
};
use crate::parts::{
    add, branch, closed, for_over, in_loop, looped, no_body, take_kept, while_over,
};
use qt_check_declarations::state::{enter, span_from};
use qt_check_declarations::variables::declare_variable;
use qt_check_loops::loops::{condition_at, for_values};
use qt_check_tokens::statement::spot_of;
use qt_tree::expression::{Expr, Scalar};
use qt_tree::label::Label;
use qt_tree::lengths::Lengths;
use qt_tree::place::Place;
use qt_tree::refusal::TextRefusal;
use qt_tree::statement::{Sequence, Statement, StatementForm};
use qt_typed::expression::TypedExpr;
use qt_typed::statement::{Spot, TypedSequence, TypedStatement};
use qt_typing::state::{Around, Body, State};
use qt_value::types::ValueType;
use sqlite_items::{Boxed, Items};
use std::alloc::Global;

/// A statement as a typed one, with what it changes for later statements, or its first refusal.
#[cycle(statement)]
#[tactic(auto, using(crate::proofs::FormViews::statement_is))]
pub fn statement_typed(
    alloc: Global,
    state: &mut State,
    around: Around,
    statement: &Statement,
) -> TypedForm
    ensures { Makes (spec.statement_typing statement.now around state.old) result state.new }
{
    form_typed(alloc, state, around, statement.place, &statement.form)
}

/// A form of a statement.
#[cycle(statement)]
#[tactic(auto, using(crate::proofs::FormViews::forms))]
fn form_typed(
    alloc: Global,
    state: &mut State,
    around: Around,
    place: Place,
    form: &StatementForm,
) -> TypedForm
    ensures { Makes (spec.form_typing form.now place around state.old) result state.new }
{
    let at = spot_of(place, form)?;
    match form {
        StatementForm::Declaration {
            scalar,
            name,
            value,
        } => declaration(alloc, state, at, scalar, name, value),
        StatementForm::BitRegister { name, size } => bits(alloc, state, at, name, size),
        StatementForm::Constant {
            scalar,
            name,
            value,
        } => constant(alloc, state, at, scalar, name, value),
        StatementForm::Alias { name, parts } => alias(alloc, state, at, name, parts.as_slice()),
        StatementForm::Assignment { target, value } => assigned(alloc, state, at, target, value),
        StatementForm::CompoundAssignment {
            target,
            operator,
            value,
        } => updated(alloc, state, at, target, *operator, value),
        StatementForm::Measure { qubits, target } => measured(alloc, state, at, qubits, target),
        StatementForm::Reset { qubits } => put_back(alloc, state, at, qubits),
        StatementForm::Barrier { qubits } => held(alloc, state, at, qubits.as_slice()),
        StatementForm::Gate { call } => gate(alloc, state, at, call),
        StatementForm::Call { name, arguments } => {
            called(alloc, state, at, name, arguments.as_slice())
        }
        StatementForm::If {
            condition,
            body,
            otherwise,
        } => branching(
            alloc,
            state,
            at,
            around,
            condition,
            body.as_slice(),
            otherwise,
        ),
        StatementForm::While { condition, body } => {
            while_loop(alloc, state, at, around, condition, body.as_slice())
        }
        StatementForm::For {
            scalar,
            name,
            values,
            body,
        } => for_loop(
            alloc,
            state,
            at,
            around,
            scalar,
            name,
            values,
            body.as_slice(),
        ),
        StatementForm::Break => breaking(alloc, state, at, around),
        StatementForm::Continue => continuing(alloc, state, at, around),
        StatementForm::Return { value } => returning(alloc, state, at, around, value),
        StatementForm::End => ending(alloc, state, at),
    }
}

/// One statement after the other.
#[cycle(statement)]
#[tactic(auto, using(crate::proofs::Each::turns))]
fn each(
    alloc: Global,
    state: &mut State,
    around: Around,
    body: &[Statement],
) -> Result<Items<TypedStatement>, TextRefusal>
    ensures { Makes (spec.each around (map spec.statement_typing body.now) state.old) result state.new }
{
    let mut done = Items::new(alloc);
    let mut left = body;
    'statements: while let [first, rest @ ..] = left {
        let typed = statement_typed(alloc, state, around, first)?;
        add(&mut done, typed)?;
        left = rest;
    }
    Ok(done)
}

/// The statements of a scope that is open: its slots begin at the first, and so many entries were known before.
#[cycle(statement)]
#[tactic(auto, unfolding(qt_typing::specs::Statements::inside))]
pub fn inside(
    alloc: Global,
    state: &mut State,
    around: Around,
    body: &[Statement],
    first: u32,
    known: usize,
) -> Result<Body, TextRefusal>
    ensures { Makes (spec.inside around (map spec.statement_typing body.now) first known state.old) result state.new }
{
    let statements = each(alloc, state, around, body)?;
    Ok(closed(state, first, known, statements))
}

/// A body, which is a scope of its own.
#[cycle(statement)]
#[tactic(auto, unfolding(qt_typing::specs::Statements::scoped))]
fn scoped(
    alloc: Global,
    state: &mut State,
    around: Around,
    body: &[Statement],
) -> Result<Body, TextRefusal>
    ensures { Makes (spec.scoped around (map spec.statement_typing body.now) state.old) result state.new }
{
    let (first, known) = (state.slots, state.names.consts.len());
    enter(state)?;
    inside(alloc, state, around, body, first, known)
}

/// The body behind `else`, where there is one.
#[cycle(statement)]
#[tactic(auto, unfolding(qt_typing::specs::Statements::optional_body))]
fn optional_body(
    alloc: Global,
    state: &mut State,
    around: Around,
    otherwise: &Option<Items<Statement>>,
) -> Result<Body, TextRefusal>
    ensures { Makes (spec.optional_body around (optional_readings otherwise.now) state.old) result state.new }
{
    match otherwise {
        None => Ok(no_body(alloc, state)),
        Some(body) => scoped(alloc, state, around, body.as_slice()),
    }
}

/// The branches of an `if`.
#[cycle(statement)]
#[tactic(auto, unfolding(qt_typing::specs::Statements::branches, qt_typing::specs::Statements::both_branches))]
fn branches(
    alloc: Global,
    state: &mut State,
    at: Spot,
    around: Around,
    body: &[Statement],
    otherwise: &Option<Items<Statement>>,
    condition: Boxed<TypedExpr>,
) -> TypedForm
    ensures { Makes (spec.branches at around (map spec.statement_typing body.now) (optional_readings otherwise.now) condition state.old)
        result state.new }
{
    let first = scoped(alloc, state, around, body)?;
    let second = optional_body(alloc, state, around, otherwise)?;
    Ok(branch(alloc, at, condition, first, second)?)
}

/// `if (n == 1) { .. } else { .. }`
#[cycle(statement)]
#[tactic(auto, unfolding(qt_typing::specs::Statements::branching))]
fn branching(
    alloc: Global,
    state: &mut State,
    at: Spot,
    around: Around,
    condition: &Expr,
    body: &[Statement],
    otherwise: &Option<Items<Statement>>,
) -> TypedForm
    ensures { Makes (spec.branching at around condition.now (map spec.statement_typing body.now) (optional_readings otherwise.now) state.old)
        result state.new }
{
    let test = condition_at(alloc, &state.names, at.place, condition)?;
    branches(alloc, state, at, around, body, otherwise, test)
}

/// A `while`, behind its condition: the loop itself has no slots.
#[cycle(statement)]
#[tactic(auto, unfolding(qt_typing::specs::Statements::while_body))]
fn while_body(
    alloc: Global,
    state: &mut State,
    at: Spot,
    around: Around,
    body: &[Statement],
    condition: Boxed<TypedExpr>,
) -> TypedForm
    ensures { Makes (spec.while_body at around (map spec.statement_typing body.now) condition state.old) result state.new }
{
    let first = state.slots;
    let inner = scoped(alloc, state, in_loop(around), body)?;
    let over = while_over(alloc, condition)?;
    Ok(looped(alloc, at, over, span_from(first, first), inner)?)
}

/// `while (n < 2) { .. }`
#[cycle(statement)]
#[tactic(auto, unfolding(qt_typing::specs::Statements::while_loop))]
fn while_loop(
    alloc: Global,
    state: &mut State,
    at: Spot,
    around: Around,
    condition: &Expr,
    body: &[Statement],
) -> TypedForm
    ensures { Makes (spec.while_loop at around condition.now (map spec.statement_typing body.now) state.old) result state.new }
{
    let test = condition_at(alloc, &state.names, at.place, condition)?;
    while_body(alloc, state, at, around, body, test)
}

/// A `for` in the scope of its body, which has its variable: the variable has the loop's first slot.
#[cycle(statement)]
#[tactic(auto, unfolding(qt_typing::specs::Statements::for_inside))]
fn for_inside(
    alloc: Global,
    state: &mut State,
    at: Spot,
    around: Around,
    name: &Label,
    kind: ValueType,
    values: Boxed<TypedSequence>,
    body: &[Statement],
    first: u32,
    known: usize,
) -> TypedForm
    ensures { Makes (spec.for_inside at around name.now kind values (map spec.statement_typing body.now) first known state.old)
        result state.new }
{
    let behind = state.slots;
    let lengths = Lengths::from_vec(Vec::new(alloc));
    declare_variable(alloc, state, at.place, name.text(), kind, lengths, first)?;
    let inner = inside(alloc, state, in_loop(around), body, behind, known)?;
    let over = for_over(alloc, kind, values)?;
    Ok(looped(alloc, at, over, span_from(first, behind), inner)?)
}

/// A `for`, behind its values: it takes a slot for its variable, and those that it keeps.
#[cycle(statement)]
#[tactic(auto, unfolding(qt_typing::specs::Statements::for_body))]
fn for_body(
    alloc: Global,
    state: &mut State,
    at: Spot,
    around: Around,
    name: &Label,
    kind: ValueType,
    body: &[Statement],
    values: Boxed<TypedSequence>,
) -> TypedForm
    ensures { Makes (spec.for_body at around name.now kind (map spec.statement_typing body.now) values state.old) result state.new }
{
    let known = state.names.consts.len();
    let first = take_kept(state, values.get());
    enter(state)?;
    for_inside(
        alloc, state, at, around, name, kind, values, body, first, known,
    )
}

/// `for int i in [0:2] { .. }`
#[cycle(statement)]
#[tactic(auto, unfolding(qt_typing::specs::Statements::for_loop))]
fn for_loop(
    alloc: Global,
    state: &mut State,
    at: Spot,
    around: Around,
    scalar: &Scalar,
    name: &Label,
    values: &Sequence,
    body: &[Statement],
) -> TypedForm
    ensures { Makes (spec.for_loop at around scalar.now name.now values.now (map spec.statement_typing body.now) state.old)
        result state.new }
{
    let (kind, over) = for_values(alloc, &state.names, at.place, scalar, values)?;
    for_body(alloc, state, at, around, name, kind, body, over)
}
