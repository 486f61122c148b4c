//! Jumps, and what stands around them: OpenQASM 3.0, "Classical instructions", looping and branching, and "Subroutines".

ghost use Rattle.std.specs.Prelude.{◌≡◌, not};
ghost use Rattle.qt_tree.specs.declared.refusal.Cause.TheVariants as cause;
ghost use Rattle.qt_tree.specs.declared.refusal.TextRefusal.TheVariants as refusal;
ghost use Rattle.qt_typed.specs.declared.statement.TypedAction.TheVariants as action;
ghost use Rattle.qt_typing.specs.Checked.{Gives, unless};
ghost use Rattle.qt_typing.specs.Statements.{jump};
ghost use Rattle.qt_typing.specs.Subroutines.{around_body, returns_of};

use qt_tree::place::Place;
use qt_tree::refusal::{Cause, TextRefusal};
use qt_typed::statement::TypedAction;
use qt_typing::state::{Around, Returns};
use qt_value::types::ValueType;

/// That a jump stands in a loop: else E11 `loop`.
fn inside_loop(place: Place, around: Around) -> Result<(), TextRefusal>
    ensures { Gives (unless (not around.in_loop) (refusal.E11 place cause.Loop)) result }
{
    if !around.in_loop {
        return Err(TextRefusal::E11(place, Cause::Loop));
    }
    Ok(())
}

/// `break;`, which stands in a loop: else E11 `loop`.
#[tactic(auto, unfolding(qt_typing::specs::Statements::jump))]
pub fn break_jump(place: Place, around: Around) -> Result<TypedAction, TextRefusal>
    ensures { Gives (jump place around action.Break) result }
{
    inside_loop(place, around)?;
    Ok(TypedAction::Break)
}

/// `continue;`, which stands in a loop: else E11 `loop`.
#[tactic(auto, unfolding(qt_typing::specs::Statements::jump))]
pub fn continue_jump(place: Place, around: Around) -> Result<TypedAction, TextRefusal>
    ensures { Gives (jump place around action.Continue) result }
{
    inside_loop(place, around)?;
    Ok(TypedAction::Continue)
}

/// What a `return` in the body of a subroutine may give.
pub fn returns_of(kind: Option<ValueType>) -> Returns
    ensures { result ≡ returns_of kind }
{
    match kind {
        None => Returns::Nothing,
        Some(kind) => Returns::Value { kind },
    }
}

/// What stands around the statements of the body of a subroutine: no loop, and what it may return.
#[tactic(auto, unfolding(qt_typing::specs::Subroutines::around_body))]
pub fn around_body(kind: Option<ValueType>) -> Around
    ensures { result ≡ around_body kind }
{
    Around {
        in_loop: false,
        returns: returns_of(kind),
    }
}
