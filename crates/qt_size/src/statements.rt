//! The sizes of statements with their bodies.

ghost use Rattle.std.specs.Prelude.{◌≡◌, ◌+◌};
ghost use Rattle.qt_gate_calls.specs.Stopped.{stopped};
ghost use Rattle.qt_typed.specs.Size as spec;
ghost use Rattle.qt_size.specs.Known.{sizes_in};

use crate::actions::action_size;
use qt_typed::statement::TypedStatement;

/// A statement with its bodies: its tokens, and what it counts beside them.
#[cycle(statement)]
#[tactic(auto, using(crate::proofs::Sizes::stops_behind))]
fn statement_size(known: &[u32], statement: &TypedStatement) -> u32
    ensures { result ≡ stopped (spec.size (sizes_in known.now) statement.now) }
{
    match statement {
        TypedStatement::Simple { at, action } => at
            .tokens
            .saturating_add(action_size(known, action)),
        TypedStatement::If {
            at,
            body,
            otherwise,
            ..
        } => branch_size(known, at.tokens, body.as_slice(), otherwise.as_slice()),
        TypedStatement::Loop { at, body, .. } => loop_size(known, at.tokens, body.as_slice()),
    }
}

/// The tokens of a branch, and both its bodies.
#[cycle(statement)]
#[tactic(auto, using(crate::proofs::Sizes::sums_stop, crate::proofs::Sizes::stops_behind))]
fn branch_size(
    known: &[u32],
    tokens: u32,
    body: &[TypedStatement],
    otherwise: &[TypedStatement],
) -> u32
    ensures { let of = spec.list_size (sizes_in known.now) in result ≡ stopped (tokens + (of body.now + of otherwise.now)) }
{
    let bodies = list_size(known, body).saturating_add(list_size(known, otherwise));
    tokens.saturating_add(bodies)
}

/// The tokens of a loop, and its body.
#[cycle(statement)]
#[tactic(auto, using(crate::proofs::Sizes::stops_behind))]
fn loop_size(known: &[u32], tokens: u32, body: &[TypedStatement]) -> u32
    ensures { result ≡ stopped (tokens + spec.list_size (sizes_in known.now) body.now) }
{
    tokens.saturating_add(list_size(known, body))
}

/// Statements one after the other, where the sizes of the subroutines that they call are known.
#[cycle(statement)]
#[tactic(auto, using(crate::proofs::Sizes::one_counted))]
pub fn list_size(known: &[u32], statements: &[TypedStatement]) -> u32
    ensures { result ≡ stopped (spec.list_size (sizes_in known.now) statements.now) }
{
    let mut size = 0u32;
    let mut left = statements;
    'statements: while let [first, rest @ ..] = left {
        size = size.saturating_add(statement_size(known, first));
        left = rest;
    }
    size
}
