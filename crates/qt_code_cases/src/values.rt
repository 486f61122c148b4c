use qt_code::angle::{AngleArg, AngleOperation, AngleStep};
use qt_code::instruction::{Operand, Operation};
use qt_rows::row::Row;
use qt_value::operators::{Op, UnaryOp};
use qt_value::types::ValueType;

/// `bool 1`, `bit N`, `int N`, `uint N`, `angle N`, `phase 0`
pub fn kind_in(row: &mut Row<'_>) -> ValueType {
    let name = row.word();
    let width = row.u8();
    match name {
        "bool" => ValueType::Bool,
        "bit" => ValueType::Bit(width),
        "int" => ValueType::Int(width),
        "uint" => ValueType::Uint(width),
        "angle" => ValueType::Angle(width),
        "phase" => ValueType::Phase,
        _ => {
            row.refuse();
            ValueType::Phase
        }
    }
}

/// `CELL KIND`
pub fn operand_in(row: &mut Row<'_>) -> Operand {
    let cell = row.u32();
    let kind = kind_in(row);
    Operand { cell, kind }
}

fn binary_in(name: &str, row: &mut Row<'_>) -> Op {
    match name {
        "xor" => Op::Xor,
        "less" => Op::Lt,
        "left" => Op::Shl,
        "add" => Op::Add,
        "multiply" => Op::Mul,
        "divide" => Op::Div,
        "rest" => Op::Rem,
        "turn" => Op::Rotl,
        _ => {
            row.refuse();
            Op::Or
        }
    }
}

/// `not OPERAND`, `count OPERAND`, or the name of an operator and two operands
pub fn operation_in(row: &mut Row<'_>) -> Operation {
    match row.word() {
        "not" => Operation::Unary {
            operator: UnaryOp::Not,
            of: operand_in(row),
        },
        "count" => Operation::Unary {
            operator: UnaryOp::Popcount,
            of: operand_in(row),
        },
        name => {
            let operator = binary_in(name, row);
            let left = operand_in(row);
            let right = operand_in(row);
            Operation::Binary {
                operator,
                left,
                right,
            }
        }
    }
}

/// `units UNITS`, `work CELL`
fn argument_in(row: &mut Row<'_>) -> AngleArg {
    match row.word() {
        "units" => AngleArg::Units(row.i64()),
        "work" => AngleArg::Work(row.u32()),
        _ => {
            row.refuse();
            AngleArg::Units(0)
        }
    }
}

fn step_in(name: &str, row: &mut Row<'_>) -> AngleStep {
    let of = argument_in(row);
    match name {
        "add" => AngleStep::Add(of, argument_in(row)),
        "sub" => AngleStep::Sub(of, argument_in(row)),
        "neg" => AngleStep::Neg(of),
        "times" => AngleStep::Times(of, row.i128()),
        "over" => AngleStep::Over(of, row.i128()),
        _ => {
            row.refuse();
            AngleStep::Neg(of)
        }
    }
}

/// `angle OPERAND`, `product ARGUMENT OPERAND`, `quotient ARGUMENT OPERAND`, `exact OPERAND`, or the name of a step and its fields
pub fn angle_operation_in(row: &mut Row<'_>) -> AngleOperation {
    match row.word() {
        "angle" => AngleOperation::OfAngle {
            value: operand_in(row),
        },
        "product" => {
            let angle = argument_in(row);
            AngleOperation::Product {
                angle,
                factor: operand_in(row),
            }
        }
        "quotient" => {
            let angle = argument_in(row);
            AngleOperation::Quotient {
                angle,
                divisor: operand_in(row),
            }
        }
        "exact" => AngleOperation::NoRest {
            value: operand_in(row),
        },
        name => AngleOperation::Step {
            step: step_in(name, row),
        },
    }
}
