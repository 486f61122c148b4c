//! Jumps: OpenQASM 3.0, "Classical instructions", looping and branching.

ghost use Rattle.std.specs.Prelude.{not};
ghost use Rattle.qt_tree.specs.declared.refusal.Cause.TheVariants as cause;
ghost use Rattle.qt_tree.specs.declared.refusal.TextRefusal.TheVariants as refusal;
ghost use Rattle.qt_typed.specs.declared.statement.TypedAction.TheVariants as action;
ghost use Rattle.qt_typing.specs.Checked.{Gives, unless};
ghost use Rattle.qt_typing.specs.Statements.{jump};

use qt_tree::place::Place;
use qt_tree::refusal::{Cause, TextRefusal};
use qt_typed::statement::TypedAction;
use qt_typing::state::Around;

/// That a jump stands in a loop: else E11 `loop`.
fn inside_loop(place: Place, around: Around) -> Result<(), TextRefusal>
    ensures { Gives (unless (not around.in_loop) (refusal.E11 place cause.Loop)) result }
{
    if !around.in_loop {
        return Err(TextRefusal::E11(place, Cause::Loop));
    }
    Ok(())
}

/// `break;`, which stands in a loop: else E11 `loop`.
#[tactic(auto, unfolding(qt_typing::specs::Statements::jump))]
pub fn break_jump(place: Place, around: Around) -> Result<TypedAction, TextRefusal>
    ensures { Gives (jump place around action.Break) result }
{
    inside_loop(place, around)?;
    Ok(TypedAction::Break)
}

/// `continue;`, which stands in a loop: else E11 `loop`.
#[tactic(auto, unfolding(qt_typing::specs::Statements::jump))]
pub fn continue_jump(place: Place, around: Around) -> Result<TypedAction, TextRefusal>
    ensures { Gives (jump place around action.Continue) result }
{
    inside_loop(place, around)?;
    Ok(TypedAction::Continue)
}
