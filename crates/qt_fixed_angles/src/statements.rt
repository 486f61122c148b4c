//! The angles of statements with their bodies.

ghost use Rattle.std.specs.Prelude.{◌≡◌, IfOk};
ghost use Rattle.std.specs.Option.{option_or};
ghost use Rattle.qt_fixed_angles.specs.Angles as spec;
ghost use Rattle.qt_fixed_angles.specs.Reached.{angle_in};

use crate::calls::{broadcast_angle, use_angle};
use crate::wrong::WrongAngle;
use qt_outside::faults::OutOfMemory;
use qt_typed::statement::{TypedAction, TypedRight, TypedStatement};
use std::alloc::Global;

/// The angle of the subroutine with that number, and none where the list has none.
#[tactic(auto, using(crate::proofs::Lists::angle_found))]
fn angle_at(known: &[Option<WrongAngle>], subroutine: u32) -> Option<WrongAngle>
    ensures { result ≡ angle_in known.now subroutine }
{
    known.get(subroutine as usize).copied().unwrap_or(None)
}

/// The angle of a right side: that of the subroutine that it calls.
fn right_angle(known: &[Option<WrongAngle>], right: &TypedRight) -> Option<WrongAngle>
    ensures { result ≡ spec.right_angle (angle_in known.now) right.now }
{
    match right {
        TypedRight::Value { .. } | TypedRight::Measure { .. } => None,
        TypedRight::Call { call, .. } => angle_at(known, call.subroutine),
    }
}

/// The angle of a right side, where there is one.
fn optional_angle(known: &[Option<WrongAngle>], right: &Option<TypedRight>) -> Option<WrongAngle>
    ensures { result ≡ spec.optional_angle (angle_in known.now) right.now }
{
    match right {
        None => None,
        Some(value) => right_angle(known, value),
    }
}

/// The first wrong angle of an action: of its gate call, or of the subroutine that it calls.
fn action_angle(
    alloc: Global,
    known: &[Option<WrongAngle>],
    action: &TypedAction,
) -> Result<Option<WrongAngle>, OutOfMemory>
    ensures { IfOk result (λ angle. angle ≡ spec.action_angle (angle_in known.now) action.now) }
{
    match action {
        TypedAction::Declare { value, .. } | TypedAction::Return { value } => {
            Ok(optional_angle(known, value))
        }
        TypedAction::Assign { value, .. } => Ok(right_angle(known, value)),
        TypedAction::Gate { call } => use_angle(alloc, call.place, &call.used),
        TypedAction::Broadcast { call } => broadcast_angle(alloc, call),
        TypedAction::Call { call } => Ok(angle_at(known, call.subroutine)),
        _ => Ok(None),
    }
}

/// The first wrong angle of a statement with its bodies.
#[cycle(statement)]
fn statement_angle(
    alloc: Global,
    known: &[Option<WrongAngle>],
    statement: &TypedStatement,
) -> Result<Option<WrongAngle>, OutOfMemory>
    ensures { IfOk result (λ angle. angle ≡ spec.angle (angle_in known.now) statement.now) }
{
    match statement {
        TypedStatement::Simple { action, .. } => action_angle(alloc, known, action),
        TypedStatement::If {
            body,
            otherwise,
            ..
        } => branch_angle(alloc, known, body.as_slice(), otherwise.as_slice()),
        TypedStatement::Loop { body, .. } => list_angle(alloc, known, body.as_slice()),
    }
}

/// The first wrong angle of both bodies of a branch.
#[cycle(statement)]
fn branch_angle(
    alloc: Global,
    known: &[Option<WrongAngle>],
    body: &[TypedStatement],
    otherwise: &[TypedStatement],
) -> Result<Option<WrongAngle>, OutOfMemory>
    ensures { IfOk result (λ angle. angle ≡ option_or (spec.list_angle (angle_in known.now) body.now)
        (spec.list_angle (angle_in known.now) otherwise.now)) }
{
    match list_angle(alloc, known, body)? {
        Some(angle) => Ok(Some(angle)),
        None => list_angle(alloc, known, otherwise),
    }
}

/// The first wrong angle of statements one after the other, where those of the subroutines that they call are known.
#[cycle(statement)]
pub fn list_angle(
    alloc: Global,
    known: &[Option<WrongAngle>],
    statements: &[TypedStatement],
) -> Result<Option<WrongAngle>, OutOfMemory>
    ensures { IfOk result (λ angle. angle ≡ spec.list_angle (angle_in known.now) statements.now) }
{
    let mut left = statements;
    'statements: while let [first, rest @ ..] = left {
        if let Some(angle) = statement_angle(alloc, known, first)? {
            return Ok(Some(angle));
        }
        left = rest;
    }
    Ok(None)
}
