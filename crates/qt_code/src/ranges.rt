//! That what instructions name is in range.

ghost use Rattle.std.specs.Prelude.{◌≡◌};
ghost use Rattle.std.specs.List.{list_all};
ghost use Rattle.qt_code.specs.Ranges.{can_convert, has_angle_operation, has_conversion, has_effect, has_instruction, has_move};
ghost use Rattle.qt_code.specs.Ranges.{has_operation, has_primitive, has_reckoning, is_angle};

use qt_code_rules::sizes::Sizes;
use qt_instructions::angle::AngleOperation;
use qt_instructions::instruction::{Instr, Operand, Operation};
use qt_instructions::primitive::Primitive;
use qt_value::casts::cast;
use qt_value::operators::{op_type, unary_type};
use qt_value::types::ValueType;
use qt_value::value::Value;

/// Whether values of a type with a size can be converted to another.
#[tactic(auto, using(crate::proofs::Conversions::zero_fits))]
fn can_convert(from: ValueType, to: ValueType) -> bool
    ensures { result ≡ can_convert from to }
{
    match Value::new(from, 0) {
        Some(zero) => cast(zero, to).is_some(),
        None => false,
    }
}

fn is_angle(kind: ValueType) -> bool
    ensures { result ≡ is_angle kind }
{
    matches!(kind, ValueType::Angle(_))
}

fn has_primitive(sizes: Sizes, primitive: &Primitive) -> bool
    ensures { result ≡ has_primitive sizes primitive.now }
{
    match primitive {
        Primitive::Turn {
            ones,
            zeros,
            target,
            theta,
            phi,
            lambda,
        } => {
            sizes.has_references(ones.items())
                && sizes.has_references(zeros.items())
                && sizes.has_reference(*target)
                && sizes.has_angle(*theta)
                && sizes.has_angle(*phi)
                && sizes.has_angle(*lambda)
        }
        Primitive::Phase { ones, zeros, angle } => {
            sizes.has_references(ones.items())
                && sizes.has_references(zeros.items())
                && sizes.has_angle(*angle)
        }
    }
}

fn has_operation(sizes: Sizes, operation: Operation) -> bool
    ensures { result ≡ has_operation sizes operation }
{
    match operation {
        Operation::Unary { operator, of } => {
            sizes.has_operand(of) && unary_type(operator, of.kind).is_some()
        }
        Operation::Binary {
            operator,
            left,
            right,
        } => {
            sizes.has_operand(left)
                && sizes.has_operand(right)
                && op_type(operator, left.kind, right.kind).is_some()
        }
    }
}

fn has_conversion(sizes: Sizes, from: Operand, to: ValueType) -> bool
    ensures { result ≡ has_conversion sizes from to }
{
    sizes.has_cell(from.cell) && can_convert(from.kind, to)
}

fn has_angle_operation(sizes: Sizes, operation: AngleOperation) -> bool
    ensures { result ≡ has_angle_operation sizes operation }
{
    match operation {
        AngleOperation::Step { step } => sizes.has_step(step),
        AngleOperation::OfAngle { value } => sizes.has_operand(value) && is_angle(value.kind),
        AngleOperation::Product { angle, factor } => {
            sizes.has_argument(angle) && sizes.has_operand(factor) && factor.kind.is_whole()
        }
        AngleOperation::Quotient { angle, divisor } => {
            sizes.has_argument(angle) && sizes.has_operand(divisor) && divisor.kind.is_whole()
        }
        AngleOperation::NoRest { value } => sizes.has_operand(value) && value.kind.is_whole(),
    }
}

/// What it names is in range, if it moves values or bits of them.
fn has_move(sizes: Sizes, instruction: &Instr) -> bool
    ensures { result ≡ has_move sizes instruction.now }
{
    match instruction {
        Instr::Load { cell, .. } => sizes.has_cell(*cell),
        Instr::Get { cell, slot } => sizes.has_cell(*cell) && sizes.has_slot(*slot),
        Instr::Put { slot, cell } => sizes.has_slot(*slot) && sizes.has_cell(*cell),
        Instr::GetAt {
            cell,
            first,
            count,
            index,
        } => {
            sizes.has_cell(*cell) && sizes.has_slots(*first, *count) && sizes.has_operand(*index)
        }
        Instr::PutAt {
            first,
            count,
            index,
            cell,
        } => {
            sizes.has_slots(*first, *count) && sizes.has_operand(*index) && sizes.has_cell(*cell)
        }
        Instr::BitGet { cell, of, index } => {
            sizes.has_cell(*cell) && sizes.has_operand(*of) && sizes.has_operand(*index)
        }
        Instr::BitPut { of, index, bit } => {
            sizes.has_operand(*of) && sizes.has_operand(*index) && sizes.has_cell(*bit)
        }
        _ => true,
    }
}

/// What it names is in range, if it reckons.
fn has_reckoning(sizes: Sizes, instruction: &Instr) -> bool
    ensures { result ≡ has_reckoning sizes instruction.now }
{
    match instruction {
        Instr::Apply { cell, operation } => {
            sizes.has_cell(*cell) && has_operation(sizes, *operation)
        }
        Instr::Cast { cell, from, to } => {
            sizes.has_cell(*cell) && has_conversion(sizes, *from, *to)
        }
        Instr::Turns {
            cell,
            first,
            step,
            last,
        } => {
            sizes.has_cell(*cell)
                && sizes.has_operand(*first)
                && sizes.has_operand(*step)
                && sizes.has_operand(*last)
        }
        Instr::AngleOp { cell, operation } => {
            sizes.has_cell(*cell) && has_angle_operation(sizes, *operation)
        }
        Instr::JumpIf { condition, .. } => sizes.has_cell(*condition),
        _ => true,
    }
}

/// What it names is in range, if it is on qubits.
fn has_effect(sizes: Sizes, instruction: &Instr) -> bool
    ensures { result ≡ has_effect sizes instruction.now }
{
    match instruction {
        Instr::Qubit {
            cell,
            qubits,
            index,
        } => {
            sizes.has_cell(*cell) && sizes.has_qubits(qubits.items()) && sizes.has_operand(*index)
        }
        Instr::Distinct { qubits } => sizes.has_references(qubits.items()),
        Instr::Gate { primitive } => has_primitive(sizes, primitive),
        Instr::Measure { qubit, store } => sizes.has_reference(*qubit) && sizes.has_store(*store),
        Instr::Reset { qubit } => sizes.has_reference(*qubit),
        _ => true,
    }
}

fn has_instruction(sizes: Sizes, instruction: &Instr) -> bool
    ensures { result ≡ has_instruction sizes instruction.now }
{
    has_move(sizes, instruction)
        && has_reckoning(sizes, instruction)
        && has_effect(sizes, instruction)
}

/// What each of the instructions names is in range.
pub fn has_instructions(sizes: Sizes, code: &[Instr]) -> bool
    ensures { result ≡ list_all (has_instruction sizes) code.now }
{
    code.iter()
        .all(|instruction| has_instruction(sizes, instruction))
}
