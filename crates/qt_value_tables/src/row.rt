ghost use Rattle.std.specs.Prelude.{◌≡◌, IfSome};

use crate::words::{binary_operator, unary_operator, value_type};
use qt_value::operators::{Op, UnaryOp};
use qt_value::types::ValueType;
use qt_value::value::Value;
use std::str::SplitWhitespace;

/// A type with bits, which may be no value.
#[derive(Clone, Copy)]
pub struct Operand {
    pub kind: ValueType,
    pub bits: u64,
}

impl Operand {
    /// None where the type has no size, or the bits don't fit it.
    pub fn value(self) -> Option<Value>
        ensures { IfSome result (λ v. v.kind ≡ self.kind) }
    {
        Value::new(self.kind, self.bits)
    }
}

/// A call, as a row of the table tells it.
#[derive(Clone, Copy)]
pub enum Row {
    Binary(Op, Operand, Operand),
    Unary(UnaryOp, Operand),
    Number(Operand),
    Cast(Operand, ValueType),
    Type(ValueType),
    /// The index and the length.
    Place(i128, u32),
    /// The start, the step and the end.
    Turns(i128, i128, i128),
}

impl Row {
    /// The row that a line tells, or None where it tells none.
    pub fn parse(line: &str) -> Option<Row> {
        let mut words = line.split_whitespace();
        let row = row_of(words.next()?, &mut words)?;
        match words.next() {
            Some(_) => None,
            None => Some(row),
        }
    }
}

/// The row that begins with a word.
fn row_of(first: &str, words: &mut SplitWhitespace) -> Option<Row> {
    match first {
        "number" => Some(Row::Number(operand_in(words)?)),
        "cast" => Some(Row::Cast(operand_in(words)?, kind_in(words)?)),
        "type" => Some(Row::Type(kind_in(words)?)),
        "place" => place(words),
        "turns" => turns(words),
        _ => operation(first, words),
    }
}

fn place(words: &mut SplitWhitespace) -> Option<Row> {
    let index = number_in(words)?;
    let length = words.next()?.parse::<u32>().ok()?;
    Some(Row::Place(index, length))
}

fn turns(words: &mut SplitWhitespace) -> Option<Row> {
    let (first, step, last) = (number_in(words)?, number_in(words)?, number_in(words)?);
    Some(Row::Turns(first, step, last))
}

/// The row of an operator.
fn operation(operator: &str, words: &mut SplitWhitespace) -> Option<Row> {
    if let Some(op) = unary_operator(operator) {
        return Some(Row::Unary(op, operand_in(words)?));
    }
    let op = binary_operator(operator)?;
    Some(Row::Binary(op, operand_in(words)?, operand_in(words)?))
}

fn operand_in(words: &mut SplitWhitespace) -> Option<Operand> {
    let kind = kind_in(words)?;
    let bits = words.next()?.parse::<u64>().ok()?;
    Some(Operand { kind, bits })
}

fn kind_in(words: &mut SplitWhitespace) -> Option<ValueType> {
    let name = words.next()?;
    let width = words.next()?.parse::<u8>().ok()?;
    value_type(name, width)
}

fn number_in(words: &mut SplitWhitespace) -> Option<i128> {
    words.next()?.parse::<i128>().ok()
}
