//! Rows of entries of names, which stay from row to row.

use crate::phases::phase_in;
use qt_const::consts::{Consts, Known};
use qt_rows::answer::Answer;
use qt_rows::row::Row;
use qt_tree::lengths::Lengths;
use qt_type_rows::types::type_in;
use qt_value::constant::ConstValue;
use qt_value::value::Value;
use std::alloc::Global;

fn value_in(row: &mut Row<'_>) -> Known {
    match Value::new(type_in(row), row.u64()) {
        Some(value) => Known::Constant(ConstValue::Value(value)),
        None => {
            row.refuse();
            Known::Other
        }
    }
}

fn lengths_in(alloc: Global, written: &str, answer: &mut Answer) -> Lengths {
    let mut lengths = Vec::new(alloc);
    for word in written.split_whitespace() {
        if let Ok(length) = word.parse::<u32>() {
            answer.require(lengths.push(length));
        }
    }
    Lengths::from_vec(lengths)
}

/// What a row says of a name.
fn known_in(alloc: Global, row: &mut Row<'_>, answer: &mut Answer) -> Known {
    match row.word() {
        "other" => Known::Other,
        "subroutine" => Known::Subroutine,
        "hidden" => Known::Hidden,
        "phase" => Known::Constant(ConstValue::Phase(phase_in(row))),
        "value" => value_in(row),
        "lengths" => Known::Lengths(lengths_in(alloc, row.rest, answer)),
        _ => {
            row.refuse();
            Known::Other
        }
    }
}

fn write_length(consts: &Consts, answer: &mut Answer) {
    let length = consts.len();
    write!(answer, "{length}");
}

/// `known NAME KIND ..`
pub fn known(alloc: Global, row: &mut Row<'_>, consts: &mut Consts, answer: &mut Answer) {
    let name = row.word();
    let known = known_in(alloc, row, answer);
    if !row.refused {
        answer.require(consts.push(name, known));
        write_length(consts, answer);
    }
}

/// `cut LENGTH`
pub fn cut(row: &mut Row<'_>, consts: &mut Consts, answer: &mut Answer) {
    let length = row.usize();
    if !row.refused {
        consts.cut(length);
        write_length(consts, answer);
    }
}
