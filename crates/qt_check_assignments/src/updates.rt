//! Compound assignments.

ghost use Rattle.std.specs.Prelude.{◌≡◌};
ghost use Rattle.qt_typing.specs.Checked.{Gives};
ghost use Rattle.qt_typing.specs.Statements as spec;

use qt_check_calls::right::fits_type;
use qt_check_operands::expression::typed;
use qt_check_operators::beside::right_beside;
use qt_check_targets::targets::target_at;
use qt_const::modes::Mode;
use qt_tree::expression::{CompoundOperator, Expr};
use qt_tree::place::Place;
use qt_tree::refusal::TextRefusal;
use qt_tree::statement::Target;
use qt_typed::statement::TypedAction;
use qt_typing::names::Names;
use qt_value::operators::Op;
use std::alloc::Global;

/// The operator before the `=` of a compound assignment.
#[tactic(auto, unfolding(qt_typing::specs::Statements::op_of_compound))]
fn op_of_compound(operator: CompoundOperator) -> Op
    ensures { result ≡ spec.op_of_compound operator }
{
    match operator {
        CompoundOperator::Add => Op::Add,
        CompoundOperator::Sub => Op::Sub,
        CompoundOperator::Mul => Op::Mul,
        CompoundOperator::Div => Op::Div,
        CompoundOperator::Rem => Op::Rem,
        CompoundOperator::Pow => Op::Pow,
        CompoundOperator::And => Op::And,
        CompoundOperator::Or => Op::Or,
        CompoundOperator::Xor => Op::Xor,
        CompoundOperator::Shl => Op::Shl,
        CompoundOperator::Shr => Op::Shr,
    }
}

/// `target += value;`: what the value is refused for, then the target, then E10 where no row of the operator fits or its result is no
/// value of the target's type. OpenQASM 3.0, "Classical instructions".
#[tactic(auto, unfolding(qt_typing::specs::Statements::update))]
pub fn update(
    alloc: Global,
    names: &Names,
    place: Place,
    target: &Target,
    operator: CompoundOperator,
    expr: &Expr,
) -> Result<TypedAction, TextRefusal>
    ensures { Gives (spec.update place target.now operator expr.now names.now) result }
{
    let of = typed(alloc, names, Mode::Plain, place, expr)?;
    let target = target_at(alloc, names, place, target)?;
    let (operator, kind) = (op_of_compound(operator), target.get().kind);
    let beside = right_beside(alloc, names, Mode::Plain, place, operator, kind, expr, of)?;
    if !fits_type(beside.result, kind) {
        return Err(TextRefusal::E10(place));
    }
    Ok(TypedAction::Update {
        target: target.into_inner(),
        operator,
        value: beside.form.into_inner(),
    })
}
