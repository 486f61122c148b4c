//! Rows that declare names.

use qt_const::consts::Known;
use qt_names::named::{Named, Places, What};
use qt_phase::phase::Phase;
use qt_rows::answer::Answer;
use qt_rows::row::Row;
use qt_tree::lengths::Lengths;
use qt_tree::place::Place;
use qt_type_rows::types::type_in;
use qt_typing::names::Names;
use qt_value::constant::ConstValue;
use qt_value::types::ValueType;
use qt_value::value::Value;
use std::alloc::Global;

/// Where all names are declared and all expressions stand.
pub const HERE: Place = Place {
    file: 0,
    line: 3,
    column: 4,
};

/// Declares a name, of which that is known where a constant is wanted.
pub fn declare(names: &mut Names, name: &str, named: Named, known: Known, answer: &mut Answer) {
    match names.scopes.declare(name, named, HERE) {
        Ok(()) => {
            answer.require(names.consts.push(name, known));
            answer.push_str("declared");
        }
        Err(refusal) => write!(answer, "{refusal:?}"),
    }
}

/// What is known of a variable where a constant is wanted.
fn known_of(alloc: Global, lengths: &Lengths, answer: &mut Answer) -> Known {
    if lengths.items().is_empty() {
        return Known::Other;
    }
    match answer.given(lengths.copied(alloc)) {
        Some(lengths) => Known::Lengths(lengths),
        None => Known::Other,
    }
}

/// `LENGTH ..`
fn lengths_in(alloc: Global, row: &mut Row<'_>, answer: &mut Answer) -> Lengths {
    let mut items = Vec::new(alloc);
    for word in row.rest.split_whitespace() {
        match word.parse::<u32>() {
            Ok(length) => answer.require(items.push(length)),
            Err(_) => row.refused = true,
        }
    }
    Lengths::from_vec(items)
}

/// `variable NAME TYPE WIDTH SLOT LENGTH ..`
pub fn variable(alloc: Global, names: &mut Names, row: &mut Row<'_>, answer: &mut Answer) {
    let name = row.word();
    let kind = type_in(row);
    let number = row.u32();
    let lengths = lengths_in(alloc, row, answer);
    let known = known_of(alloc, &lengths, answer);
    let named = Named {
        what: What::Variable,
        of: Some(kind),
        lengths,
        places: Places::Number { number },
    };
    declare(names, name, named, known, answer);
}

/// Declares a constant.
fn keep(
    alloc: Global,
    names: &mut Names,
    name: &str,
    kind: ValueType,
    constant: ConstValue,
    answer: &mut Answer,
) {
    let named = Named {
        what: What::Constant,
        of: Some(kind),
        lengths: Lengths::from_vec(Vec::new(alloc)),
        places: Places::Nowhere,
    };
    declare(names, name, named, Known::Constant(constant), answer);
}

/// `constant NAME TYPE WIDTH BITS`
pub fn constant(alloc: Global, names: &mut Names, row: &mut Row<'_>, answer: &mut Answer) {
    let name = row.word();
    let kind = type_in(row);
    match Value::new(kind, row.u64()) {
        Some(value) => keep(alloc, names, name, kind, ConstValue::Value(value), answer),
        None => row.refuse(),
    }
}

/// `phase NAME UNITS`
pub fn phase(alloc: Global, names: &mut Names, row: &mut Row<'_>, answer: &mut Answer) {
    let name = row.word();
    match Phase::from_units(row.i64()) {
        Ok(phase) => keep(
            alloc,
            names,
            name,
            ValueType::Phase,
            ConstValue::Phase(phase),
            answer,
        ),
        Err(_) => row.refuse(),
    }
}
