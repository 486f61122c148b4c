//! The laws. The functions do nothing: what they promise is the law.

ghost use Rattle.qt_flat_actions.specs.Laws.{ActionsLand, StatementsLand, StraightCodeLands};

/// Wherever the code of a statement that fits stands, the run has the leaves of the meaning, or the same fault; with its Tick the statement
/// spends a unit of fuel, or the run is dry; and so do statements in turn.
pub fn statements()
    ensures actions { ActionsLand }
    ensures fuel { StatementsLand }
    ensures lists { StraightCodeLands }
{}
