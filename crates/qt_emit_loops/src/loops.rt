//! Loops: their beginnings, and whether a turn follows.

ghost use Rattle.std.specs.Prelude.{◌≡◌, IfOk};
ghost use Rattle.qt_flat_code.specs.Loops.{begin_code, begin_length, goes_on_code, goes_on_length};
ghost use Rattle.qt_flat_code.specs.Expressions.{expression_code};
ghost use Rattle.qt_flat_code.specs.Lengths.{expression_length};
ghost use Rattle.qt_emit_storing.specs.Writes.{Writes};

use crate::keeping::kept;
use crate::turns::turn_tested;
use qt_emit_expressions::expressions::expression;
use qt_instructions::instruction::Instr;
use qt_typed::expression::TypedExpr;
use qt_typed::statement::TypedLoop;
use sqlite_items::Items;
use std::alloc::AllocError;

/// The beginning of a loop: what a `for` keeps goes to the slots behind that of its variable, which is x. What is answered is where the next
/// instruction stands. OpenQASM 3.0, "Classical instructions", looping and branching.
#[tactic(auto, using(crate::proofs::LoopForms::no_beginning))]
pub fn begin(
    out: &mut Items<Instr>,
    over: &TypedLoop,
    x: u32,
    base: u32,
    at: u32,
) -> Result<u32, AllocError>
    ensures { IfOk result (Writes (begin_code over.now x base at) (begin_length over.now) at out.old out.new) }
{
    match over {
        TypedLoop::While { .. } => Ok(at),
        TypedLoop::For { values, .. } => kept(out, values, x, base, at),
    }
}

/// A condition in cell 0.
fn condition(
    out: &mut Items<Instr>,
    condition: &TypedExpr,
    base: u32,
    at: u32,
) -> Result<u32, AllocError>
    ensures { IfOk result (Writes (expression_code condition.now base 0 at) (expression_length condition.now) at out.old out.new) }
{
    let coded = expression(out, condition, base, 0, at)?;
    Ok(coded.behind)
}

/// Whether a turn follows comes to cell 0. What is answered is where the next instruction stands.
pub fn goes_on(
    out: &mut Items<Instr>,
    over: &TypedLoop,
    x: u32,
    base: u32,
    at: u32,
) -> Result<u32, AllocError>
    ensures { IfOk result (Writes (goes_on_code over.now x base at) (goes_on_length over.now) at out.old out.new) }
{
    match over {
        TypedLoop::While { condition: test } => condition(out, test, base, at),
        TypedLoop::For { values, .. } => turn_tested(out, values, x, at),
    }
}
