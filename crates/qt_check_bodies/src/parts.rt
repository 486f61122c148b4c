//! What statements are put together of.

ghost use Rattle.std.specs.Prelude.{◌≡◌, ◌+◌, Ok, Some, IfOk, OnOk};
ghost use Rattle.qt_typed.specs.declared.statement.TypedLoop.TheVariants as loop_form;
ghost use Rattle.qt_typed.specs.declared.statement.TypedStatement.TheVariants as form;
ghost use Rattle.qt_typing.specs.Environment.{take_slots};
ghost use Rattle.qt_typing.specs.Statements as spec;

use qt_check_declarations::state::{leave, span_from, take_slots};
use qt_check_loops::sequences::kept;
use qt_outside::faults::OutOfMemory;
use qt_typed::call::Span;
use qt_typed::expression::TypedExpr;
use qt_typed::statement::{Spot, TypedAction, TypedLoop, TypedSequence, TypedStatement};
use qt_typing::state::{Around, Body, State};
use qt_value::types::ValueType;
use sqlite_items::{Boxed, Items};
use std::alloc::Global;

/// A statement that does something when it runs.
pub fn simple(
    alloc: Global,
    at: Spot,
    action: TypedAction,
) -> Result<Option<Boxed<TypedStatement>>, OutOfMemory>
    ensures { IfOk result (λ typed. typed ≡ Some (form.Simple at action)) }
{
    Ok(Some(Boxed::new(alloc, TypedStatement::Simple { at, action })?))
}

/// A branch between two bodies.
pub(crate) fn branch(
    alloc: Global,
    at: Spot,
    condition: Boxed<TypedExpr>,
    first: Body,
    second: Body,
) -> Result<Option<Boxed<TypedStatement>>, OutOfMemory>
    ensures { IfOk result (λ typed. typed ≡
        Some (form.If at condition first.statements first.slots second.statements second.slots)) }
{
    let Body {
        statements: body,
        slots: body_slots,
    } = first;
    let Body {
        statements: otherwise,
        slots: otherwise_slots,
    } = second;
    Ok(Some(Boxed::new(
        alloc,
        TypedStatement::If {
            at,
            condition: condition.into_inner(),
            body,
            body_slots,
            otherwise,
            otherwise_slots,
        },
    )?))
}

/// A loop while a condition holds.
pub(crate) fn while_over(
    alloc: Global,
    condition: Boxed<TypedExpr>,
) -> Result<Boxed<TypedLoop>, OutOfMemory>
    ensures { IfOk result (λ over. over ≡ loop_form.While condition) }
{
    let condition = condition.into_inner();
    Ok(Boxed::new(alloc, TypedLoop::While { condition })?)
}

/// A loop over values.
pub(crate) fn for_over(
    alloc: Global,
    kind: ValueType,
    values: Boxed<TypedSequence>,
) -> Result<Boxed<TypedLoop>, OutOfMemory>
    ensures { IfOk result (λ over. over ≡ loop_form.For kind values) }
{
    let values = values.into_inner();
    Ok(Boxed::new(alloc, TypedLoop::For { kind, values })?)
}

/// A loop over a body.
pub(crate) fn looped(
    alloc: Global,
    at: Spot,
    over: Boxed<TypedLoop>,
    loop_slots: Span,
    inner: Body,
) -> Result<Option<Boxed<TypedStatement>>, OutOfMemory>
    ensures { IfOk result (λ typed. typed ≡ Some (form.Loop at over loop_slots inner.statements inner.slots)) }
{
    let Body {
        statements: body,
        slots: body_slots,
    } = inner;
    Ok(Some(Boxed::new(
        alloc,
        TypedStatement::Loop {
            at,
            over: over.into_inner(),
            loop_slots,
            body,
            body_slots,
        },
    )?))
}

/// Adds a statement to those before it, where it does something when it runs.
#[tactic(auto, unfolding(qt_typing::specs::Statements::added))]
pub fn add(
    done: &mut Items<TypedStatement>,
    typed: Option<Boxed<TypedStatement>>,
) -> Result<(), OutOfMemory>
    ensures { OnOk result (done.new ≡ spec.added done.old typed) }
{
    if let Some(statement) = typed {
        done.push(statement.into_inner())?;
    }
    Ok(())
}

/// The end of a scope in which so many entries were known before.
#[tactic(auto, unfolding(qt_typing::specs::Statements::closed))]
pub(crate) fn closed(
    state: &mut State,
    first: u32,
    known: usize,
    statements: Items<TypedStatement>,
) -> Body
    ensures { spec.closed first known statements state.old ≡ Ok (result, state.new) }
{
    leave(state, known);
    Body {
        statements,
        slots: span_from(first, state.slots),
    }
}

/// What stands around the body of a loop.
#[tactic(auto, unfolding(qt_typing::specs::Statements::in_loop))]
pub(crate) fn in_loop(around: Around) -> Around
    ensures { result ≡ spec.in_loop around }
{
    Around {
        in_loop: true,
        returns: around.returns,
    }
}

/// Takes a slot for the variable of a loop, and those that the loop keeps; answers the first.
#[tactic(auto, using(crate::proofs::Slots::so_many), unfolding(qt_typing::specs::Environment::take_slots))]
pub(crate) fn take_kept(state: &mut State, values: &TypedSequence) -> u32
    ensures { take_slots (1 + spec.kept values.now) state.old ≡ Ok (result, state.new) }
{
    let kept = u32::try_from(kept(values)).unwrap_or(u32::MAX);
    take_slots(state, kept.saturating_add(1))
}

/// No body: it has no slots.
pub(crate) fn no_body(alloc: Global, state: &State) -> Body
    ensures { spec.no_body state.now ≡ Ok (result, state.now) }
{
    Body {
        statements: Items::new(alloc),
        slots: span_from(state.slots, state.slots),
    }
}
