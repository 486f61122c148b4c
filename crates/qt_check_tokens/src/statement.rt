//! Parts and forms of statements.

ghost use Rattle.std.specs.Prelude.{◌≡◌, ◌+◌, map, IfOk, OnOk};
ghost use Rattle.qt_typing.specs.Tokens as spec;
ghost use Rattle.qt_check_tokens.specs.Spots.{form_tokens, spot};

use crate::expression::{
    add, count_brackets, count_expr, count_exprs, count_index, count_part, count_range,
    count_scalar,
};
use qt_outside::faults::OutOfMemory;
use qt_tree::place::Place;
use qt_tree::statement::{
    CalledGate, GateCall, Modifier, Operand, Right, Sequence, StatementForm, Target,
};
use qt_typed::statement::Spot;

/// Counts an operand.
fn count_operand(total: &mut u32, operand: &Operand) -> Result<(), OutOfMemory>
    ensures { OnOk result (total.new ≡ total.old + spec.operand_tokens operand.now) }
{
    add(total, 1)?;
    if let Some(index) = &operand.index {
        add(total, 2)?;
        count_index(total, index)?;
    }
    Ok(())
}

/// Counts operands with commas between.
fn count_operands(total: &mut u32, operands: &[Operand]) -> Result<(), OutOfMemory>
    ensures { OnOk result (total.new ≡ total.old + spec.separated (map spec.operand_tokens operands.now)) }
{
    match operands {
        [] => Ok(()),
        [first, rest @ ..] => {
            count_operand(total, first)?;
            count_more_operands(total, rest)
        }
    }
}

/// Counts operands with a comma before each.
fn count_more_operands(total: &mut u32, operands: &[Operand]) -> Result<(), OutOfMemory>
    ensures { OnOk result (total.new ≡ total.old + spec.more (map spec.operand_tokens operands.now)) }
{
    let mut left = operands;
    'operands: while let [first, rest @ ..] = left {
        add(total, 1)?;
        count_operand(total, first)?;
        left = rest;
    }
    Ok(())
}

/// Counts a target.
fn count_target(total: &mut u32, target: &Target) -> Result<(), OutOfMemory>
    ensures { OnOk result (total.new ≡ total.old + spec.target_tokens target.now) }
{
    add(total, 1)?;
    count_brackets(total, target.brackets.as_slice())
}

/// Counts a right side.
fn count_right(total: &mut u32, right: &Right) -> Result<(), OutOfMemory>
    ensures { OnOk result (total.new ≡ total.old + spec.right_tokens right.now) }
{
    match right {
        Right::Measure { qubits } => {
            add(total, 1)?;
            count_operand(total, qubits)
        }
        Right::Value { value } => count_expr(total, value),
    }
}

/// Counts a right side, where there is one, with so many tokens around it.
fn count_optional_right(
    total: &mut u32,
    around: u32,
    right: &Option<Right>,
) -> Result<(), OutOfMemory>
    ensures { OnOk result (total.new ≡ total.old + spec.optional_right around right.now) }
{
    if let Some(right) = right {
        add(total, around)?;
        count_right(total, right)?;
    }
    Ok(())
}

/// Counts the target of a measurement with its arrow, where there is one.
fn count_optional_target(total: &mut u32, target: &Option<Target>) -> Result<(), OutOfMemory>
    ensures { OnOk result (total.new ≡ total.old + spec.optional_target target.now) }
{
    if let Some(target) = target {
        add(total, 1)?;
        count_target(total, target)?;
    }
    Ok(())
}

/// Counts a modifier with its `@`.
fn count_modifier(total: &mut u32, modifier: &Modifier) -> Result<(), OutOfMemory>
    ensures { OnOk result (total.new ≡ total.old + spec.modifier_tokens modifier.now) }
{
    add(total, 2)?;
    match modifier {
        Modifier::Inv => Ok(()),
        Modifier::Pow { exponent } => {
            add(total, 2)?;
            count_expr(total, exponent)
        }
        Modifier::Ctrl { count } | Modifier::NegCtrl { count } => count_part(total, 2, count),
    }
}

/// Counts modifiers one after the other.
fn count_modifiers(total: &mut u32, modifiers: &[Modifier]) -> Result<(), OutOfMemory>
    ensures { OnOk result (total.new ≡ total.old + spec.in_all (map spec.modifier_tokens modifiers.now)) }
{
    let mut left = modifiers;
    'modifiers: while let [first, rest @ ..] = left {
        count_modifier(total, first)?;
        left = rest;
    }
    Ok(())
}

/// Counts what a gate call calls.
fn count_gate(total: &mut u32, gate: &CalledGate) -> Result<(), OutOfMemory>
    ensures { OnOk result (total.new ≡ total.old + spec.gate_tokens gate.now) }
{
    match gate {
        CalledGate::Named {
            arguments: None,
            ..
        } => add(total, 1),
        CalledGate::Named {
            arguments: Some(arguments),
            ..
        } => {
            add(total, 3)?;
            count_exprs(total, arguments.as_slice())
        }
        CalledGate::GlobalPhase { angle } => {
            add(total, 3)?;
            count_expr(total, angle)
        }
    }
}

/// Counts a gate call.
fn count_call(total: &mut u32, call: &GateCall) -> Result<(), OutOfMemory>
    ensures { OnOk result (total.new ≡ total.old + spec.call_tokens call.now) }
{
    count_modifiers(total, call.modifiers.as_slice())?;
    count_gate(total, &call.gate)?;
    count_operands(total, call.operands.as_slice())?;
    add(total, 1)
}

/// Counts what a `for` goes over.
fn count_sequence(total: &mut u32, values: &Sequence) -> Result<(), OutOfMemory>
    ensures { OnOk result (total.new ≡ total.old + spec.sequence_tokens values.now) }
{
    match values {
        Sequence::Range { range } => {
            add(total, 2)?;
            count_range(total, range)
        }
        Sequence::Set { members } => {
            add(total, 2)?;
            count_exprs(total, members.as_slice())
        }
        Sequence::Name { .. } => add(total, 1),
    }
}

/// Counts a statement that stores or measures.
#[tactic(auto, using(crate::proofs::FormViews::forms))]
fn count_form(total: &mut u32, form: &StatementForm) -> Result<(), OutOfMemory>
    ensures { OnOk result (total.new ≡ total.old + form_tokens form.now) }
{
    match form {
        StatementForm::Declaration { scalar, value, .. } => {
            count_scalar(total, scalar)?;
            add(total, 2)?;
            count_optional_right(total, 1, value)
        }
        StatementForm::BitRegister { size, .. } => {
            add(total, 3)?;
            count_part(total, 2, size)
        }
        StatementForm::Constant { .. } | StatementForm::Alias { .. } => Ok(()),
        StatementForm::Assignment { target, value } => {
            count_target(total, target)?;
            add(total, 2)?;
            count_right(total, value)
        }
        StatementForm::CompoundAssignment { target, value, .. } => {
            count_target(total, target)?;
            add(total, 2)?;
            count_expr(total, value)
        }
        StatementForm::Measure { qubits, target } => {
            add(total, 2)?;
            count_operand(total, qubits)?;
            count_optional_target(total, target)
        }
        StatementForm::Reset { qubits } => {
            add(total, 2)?;
            count_operand(total, qubits)
        }
        StatementForm::Barrier { qubits } => {
            add(total, 2)?;
            count_operands(total, qubits.as_slice())
        }
        StatementForm::Gate { call } => count_call(total, call),
        StatementForm::Call { arguments, .. } => {
            add(total, 4)?;
            count_exprs(total, arguments.as_slice())
        }
        StatementForm::If {
            condition,
            otherwise,
            ..
        } => {
            add(total, if otherwise.is_some() { 4 } else { 3 })?;
            count_expr(total, condition)
        }
        StatementForm::While { condition, .. } => {
            add(total, 3)?;
            count_expr(total, condition)
        }
        StatementForm::For { scalar, values, .. } => {
            add(total, 3)?;
            count_scalar(total, scalar)?;
            count_sequence(total, values)
        }
        StatementForm::Return { value } => {
            add(total, 2)?;
            count_optional_right(total, 0, value)
        }
        StatementForm::Break | StatementForm::Continue | StatementForm::End => add(total, 2),
    }
}

/// Where a statement stands, and the number of its tokens without those of its bodies.
#[tactic(auto, unfolding(crate::specs::Spots::spot))]
pub fn spot_of(place: Place, form: &StatementForm) -> Result<Spot, OutOfMemory>
    ensures { IfOk result (λ at. at ≡ spot place form.now) }
{
    let mut tokens = 0;
    count_form(&mut tokens, form)?;
    Ok(Spot { place, tokens })
}
