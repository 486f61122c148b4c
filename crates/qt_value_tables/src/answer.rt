ghost use Rattle.std.specs.Prelude.{◌≤◌, ◌^◌, ◌↔◌, IsTrue, unsigned_abs};

use crate::row::{Operand, Row};
use crate::words::type_name;
use qt_value::apply::{apply, apply_unary};
use qt_value::casts::cast;
use qt_value::fault::ValueFault;
use qt_value::operators::{Op, UnaryOp, op_type, unary_type};
use qt_value::places::{place_of, range_turns};
use qt_value::types::ValueType;
use qt_value::value::Value;
use std::fmt;

/// What a call answers.
#[derive(Clone, Copy, Debug)]
pub enum Answer {
    Value(Value),
    Number(i128),
    Type(ValueType),
    /// The table has no row for the types, or the bits are no value of their type.
    Refused,
    Fault(ValueFault),
}

impl Answer {
    /// The answer to a row. None where operands of the right types are no values, or a number of a range is above 2^64 in size.
    pub fn to(row: Row) -> Option<Answer> {
        match row {
            Row::Binary(op, left, right) => binary(op, left, right),
            Row::Unary(op, of) => unary(op, of),
            Row::Number(of) => Some(number(of)),
            Row::Cast(of, to) => Some(converted(of.value()?, to)),
            Row::Type(kind) => Some(Answer::Type(kind)),
            Row::Place(index, length) => Some(place(index, length)),
            Row::Turns(first, step, last) => turns(first, step, last),
        }
    }
}

fn binary(op: Op, left: Operand, right: Operand) -> Option<Answer> {
    if op_type(op, left.kind, right.kind).is_none() {
        return Some(Answer::Refused);
    }
    let (left, right) = (left.value()?, right.value()?);
    Some(match apply(op, left, right) {
        Ok(value) => Answer::Value(value),
        Err(fault) => Answer::Fault(fault),
    })
}

fn unary(op: UnaryOp, of: Operand) -> Option<Answer> {
    if unary_type(op, of.kind).is_none() {
        return Some(Answer::Refused);
    }
    Some(Answer::Value(apply_unary(op, of.value()?)))
}

fn number(of: Operand) -> Answer {
    match of.value() {
        Some(value) => Answer::Number(value.number()),
        None => Answer::Refused,
    }
}

fn converted(value: Value, to: ValueType) -> Answer {
    match cast(value, to) {
        Some(value) => Answer::Value(value),
        None => Answer::Refused,
    }
}

fn place(index: i128, length: u32) -> Answer {
    match place_of(index, length) {
        Ok(place) => Answer::Number(i128::from(place)),
        Err(fault) => Answer::Fault(fault),
    }
}

/// Whether a number is small enough for a range.
fn is_small(number: i128) -> bool
    ensures { IsTrue result ↔ (unsigned_abs number ≤ 2 ^ 64) }
{
    number.unsigned_abs() <= 1 << 64
}

fn turns(first: i128, step: i128, last: i128) -> Option<Answer> {
    if !is_small(first) || !is_small(step) || !is_small(last) {
        return None;
    }
    Some(match range_turns(first, step, last) {
        Ok(turns) => Answer::Number(i128::from(turns)),
        Err(fault) => Answer::Fault(fault),
    })
}

impl fmt::Display for Answer {
    fn fmt<W: fmt::Write>(&self, f: &mut fmt::Formatter<W>) -> fmt::Result {
        match self {
            Answer::Value(value) => {
                let (kind, bits) = (value.kind(), value.bits());
                write!(f, "{} {} {bits}", type_name(kind), kind.width())
            }
            Answer::Type(kind) => {
                let (width, sized, whole) = (kind.width(), kind.has_size(), kind.is_whole());
                write!(f, "{width} {sized} {whole}")
            }
            Answer::Number(number) => write!(f, "{number}"),
            Answer::Refused => f.write_str("refused"),
            Answer::Fault(ValueFault::Divide) => f.write_str("divide"),
            Answer::Fault(ValueFault::Index) => f.write_str("index"),
            Answer::Fault(ValueFault::Step) => f.write_str("step"),
        }
    }
}
