//! Rows of qubits that operands name.

use crate::expressions::parsed;
use crate::names::{HERE, declare};
use qt_check_qubits::operands::{known_places, qubits_at};
use qt_check_qubits::repeats::repeats;
use qt_const::consts::Known;
use qt_names::named::{Named, Places, What};
use qt_registers::register::Register;
use qt_rows::answer::Answer;
use qt_rows::row::Row;
use qt_tree::expression::{Expr, Index};
use qt_tree::label::Label;
use qt_tree::lengths::Lengths;
use qt_typed::call::{TypedQubit, TypedQubits};
use qt_typing::names::Names;
use sqlite_items::{Boxed, Items};
use std::alloc::Global;

/// Declares qubits; a single one has the size 0.
fn declare_qubits(
    alloc: Global,
    names: &mut Names,
    name: &str,
    what: What,
    size: u32,
    places: Places,
    answer: &mut Answer,
) {
    let mut lengths = Vec::new(alloc);
    if size > 0 {
        answer.require(lengths.push(size));
    }
    let named = Named {
        what,
        of: None,
        lengths: Lengths::from_vec(lengths),
        places,
    };
    declare(names, name, named, Known::Hidden, answer);
}

/// `register NAME FIRST SIZE`; a single qubit has the size 0.
pub fn register(alloc: Global, names: &mut Names, row: &mut Row<'_>, answer: &mut Answer) {
    let (name, first, size) = (row.word(), row.u32(), row.u32());
    let register = Register::of_program(alloc, u64::from(first), size.max(1));
    if let Some(qubits) = answer.given(register) {
        let places = Places::Qubits { qubits };
        declare_qubits(alloc, names, name, What::Qubits, size, places, answer);
    }
}

/// `parameter NAME NUMBER SIZE`
pub fn parameter(alloc: Global, names: &mut Names, row: &mut Row<'_>, answer: &mut Answer) {
    let (name, number, size) = (row.word(), row.u32(), row.u32());
    if let Some(qubits) = answer.given(Register::of_parameter(alloc, number, size)) {
        let places = Places::Qubits { qubits };
        declare_qubits(alloc, names, name, What::Parameter, size, places, answer);
    }
}

/// `slot NAME SLOT`
pub fn slot(alloc: Global, names: &mut Names, row: &mut Row<'_>, answer: &mut Answer) {
    let (name, number) = (row.word(), row.u32());
    let places = Places::Number { number };
    declare_qubits(alloc, names, name, What::Parameter, 0, places, answer);
}

/// The name of an operand, and its index.
fn operand_of(expr: &Expr) -> Option<(&Label, Option<&Index>)> {
    let Expr::Name { name, brackets } = expr else {
        return None;
    };
    match brackets.as_slice() {
        [] => Some((name, None)),
        [indexes] => match indexes.as_slice() {
            [index] => Some((name, Some(index))),
            _ => None,
        },
        _ => None,
    }
}

/// The qubits of an operand that is written, or the answer that it names none.
pub fn qubits_in(
    alloc: Global,
    names: &Names,
    written: &str,
    answer: &mut Answer,
) -> Option<Boxed<TypedQubits>> {
    let expr = parsed(alloc, written, answer)?;
    let Some((name, index)) = operand_of(expr.get()) else {
        answer.push_str("no operand");
        return None;
    };
    match qubits_at(alloc, names, HERE, name, index) {
        Ok(of) => Some(of),
        Err(refusal) => {
            write!(answer, "{refusal:?}");
            None
        }
    }
}

/// A single qubit, or the number of those of a register, with the first.
fn tell_qubits(of: &TypedQubits, answer: &mut Answer) {
    match of {
        TypedQubits::Single { qubit } => match qubit {
            TypedQubit::Fixed { qubit } => write!(answer, "{qubit:?}"),
            TypedQubit::Slot { slot } => write!(answer, "slot {slot}"),
            TypedQubit::Indexed { register, .. } => {
                let size = register.size();
                write!(answer, "one of {size}");
            }
        },
        TypedQubits::Register { qubits } => {
            let (size, first) = (qubits.size(), qubits.at(0));
            write!(answer, "{size} from {first:?}");
        }
    }
}

/// `qubits OPERAND`
pub fn qubits(alloc: Global, names: &Names, row: &mut Row<'_>, answer: &mut Answer) {
    if let Some(of) = qubits_in(alloc, names, row.rest, answer) {
        tell_qubits(of.get(), answer);
    }
}

/// The size of a register and its first ten qubits.
fn tell_register(register: &Register, answer: &mut Answer) {
    let size = register.size();
    write!(answer, "{size}:");
    for place in 0..size.min(10) {
        if let Some(qubit) = register.at(place) {
            write!(answer, " {qubit:?}");
        }
    }
}

/// `places OPERAND`
pub fn places(alloc: Global, names: &Names, row: &mut Row<'_>, answer: &mut Answer) {
    let Some(of) = qubits_in(alloc, names, row.rest, answer) else {
        return;
    };
    match known_places(alloc, HERE, of) {
        Ok(register) => tell_register(&register, answer),
        Err(refusal) => write!(answer, "{refusal:?}"),
    }
}

/// Tells whether qubits stand among those before them, and adds them there.
fn tell_repeated(done: &mut Items<TypedQubits>, of: Boxed<TypedQubits>, answer: &mut Answer) {
    let told = if repeats(done.as_slice(), of.get()) {
        " again"
    } else {
        " new"
    };
    answer.push_str(told);
    answer.require(done.push(of.into_inner()));
}

/// `repeats OPERAND; ..`
pub fn repeats_row(alloc: Global, names: &Names, row: &mut Row<'_>, answer: &mut Answer) {
    let mut done = Items::new(alloc);
    answer.push_str("repeats");
    for written in row.rest.split(';') {
        if let Some(of) = qubits_in(alloc, names, written, answer) {
            tell_repeated(&mut done, of, answer);
        }
    }
}
