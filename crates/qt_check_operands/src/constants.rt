//! Constants as operands.

ghost use Rattle.std.specs.Prelude.{◌≡◌, IfOk};
ghost use Rattle.qt_typed.specs.declared.expression.TypedPhase.TheVariants as phase_form;
ghost use Rattle.qt_typing.specs.declared.operand.Operand.TheVariants as operand_form;
ghost use Rattle.qt_typing.specs.Checked.{Gives};
ghost use Rattle.qt_typing.specs.Expressions as spec;

use qt_check_expressions::constants::constant_at;
use qt_check_expressions::convert::constant;
use qt_const::modes::Mode;
use qt_outside::faults::OutOfMemory;
use qt_phase::phase::Phase;
use qt_tree::expression::Expr;
use qt_tree::place::Place;
use qt_tree::refusal::TextRefusal;
use qt_typed::expression::TypedPhase;
use qt_typing::names::Names;
use qt_typing::operand::Operand;
use qt_value::constant::ConstValue;
use sqlite_items::Boxed;
use std::alloc::Global;

/// A phase that is known.
pub(crate) fn fixed_phase(alloc: Global, phase: Phase) -> Result<Operand, OutOfMemory>
    ensures { IfOk result (λ operand. operand ≡ operand_form.Phase (phase_form.Fixed phase)) }
{
    Ok(Operand::Phase {
        form: Boxed::new(alloc, TypedPhase::Fixed { phase })?,
    })
}

/// A constant.
#[tactic(auto, unfolding(qt_typing::specs::Expressions::of_constant))]
fn of_constant(alloc: Global, of: ConstValue) -> Result<Operand, OutOfMemory>
    ensures { IfOk result (λ operand. operand ≡ spec.of_constant of) }
{
    match of {
        ConstValue::Value(value) => Ok(Operand::Value {
            kind: value.kind(),
            form: constant(alloc, value)?,
        }),
        ConstValue::Phase(phase) => fixed_phase(alloc, phase),
    }
}

/// A constant expression.
#[tactic(auto, unfolding(qt_typing::specs::Expressions::constant_operand))]
pub(crate) fn constant_operand(
    alloc: Global,
    names: &Names,
    mode: Mode,
    place: Place,
    whole: &Expr,
) -> Result<Operand, TextRefusal>
    ensures { Gives (spec.constant_operand names.now mode place whole.now) result }
{
    let constant = constant_at(alloc, names, mode, place, whole)?;
    Ok(of_constant(alloc, constant)?)
}
