//! What a row says of a name: `KIND WIDTH LENGTH PLACES`.

use qt_names::named::{Named, Places, What};
use qt_registers::register::Register;
use qt_rows::answer::Answer;
use qt_rows::row::Row;
use qt_tree::lengths::Lengths;
use qt_value::types::ValueType;
use std::alloc::Global;

fn kind_in(row: &mut Row<'_>) -> What {
    match row.word() {
        "variable" => What::Variable,
        "constant" => What::Constant,
        "qubits" => What::Qubits,
        "alias" => What::Alias,
        "gate" => What::Gate,
        "subroutine" => What::Subroutine,
        "parameter" => What::Parameter,
        _ => {
            row.refuse();
            What::Variable
        }
    }
}

fn type_in(row: &mut Row<'_>) -> Option<ValueType> {
    match row.u8() {
        0 => None,
        width => Some(ValueType::Int(width)),
    }
}

fn lengths_in(alloc: Global, row: &mut Row<'_>, answer: &mut Answer) -> Lengths {
    let mut items = Vec::new(alloc);
    let length = row.u32();
    if length > 0 {
        answer.require(items.push(length));
    }
    Lengths::from_vec(items)
}

fn qubits_in(alloc: Global, row: &mut Row<'_>, answer: &mut Answer) -> Places {
    let (first, count) = (row.u32(), row.u32());
    match answer.given(Register::of_program(alloc, u64::from(first), count)) {
        Some(qubits) => Places::Qubits { qubits },
        None => Places::Nowhere,
    }
}

fn places_in(alloc: Global, row: &mut Row<'_>, answer: &mut Answer) -> Places {
    match row.word() {
        "nowhere" => Places::Nowhere,
        "number" => Places::Number { number: row.u32() },
        "qubits" => qubits_in(alloc, row, answer),
        _ => {
            row.refuse();
            Places::Nowhere
        }
    }
}

pub fn named_in(alloc: Global, row: &mut Row<'_>, answer: &mut Answer) -> Named {
    Named {
        what: kind_in(row),
        of: type_in(row),
        lengths: lengths_in(alloc, row, answer),
        places: places_in(alloc, row, answer),
    }
}
