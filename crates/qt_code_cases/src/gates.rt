use qt_code::instruction::Store;
use qt_code::primitive::Primitive;
use qt_code::reference::{AngleRef, QubitRef, Qubits, Refs};
use qt_rows::answer::Answer;
use qt_rows::row::Row;
use std::alloc::Global;

/// `@N` for a qubit, `#N` for a work cell
fn written_reference(row: &mut Row<'_>, written: &str) -> QubitRef {
    let (cell, qubit) = (written.strip_prefix('#'), written.strip_prefix('@'));
    let mut number = Row::new(cell.or(qubit).unwrap_or(""));
    let reference = match cell {
        Some(_) => QubitRef::Work(number.u32()),
        None => QubitRef::At(number.u8()),
    };
    row.refused |= number.refused;
    reference
}

pub fn reference_in(row: &mut Row<'_>) -> QubitRef {
    let written = row.word();
    written_reference(row, written)
}

/// References up to a `,`
pub fn references_in(alloc: Global, row: &mut Row<'_>, answer: &mut Answer) -> Refs {
    let mut references = Vec::new(alloc);
    let written = row.part(',');
    for one in written.split_whitespace() {
        let reference = written_reference(row, one);
        answer.require(references.push(reference));
    }
    Refs::from_vec(references)
}

/// Numbers of qubits up to a `,`
pub fn qubits_in(alloc: Global, row: &mut Row<'_>, answer: &mut Answer) -> Qubits {
    let mut numbers = Vec::new(alloc);
    let written = row.part(',');
    for one in written.split_whitespace() {
        let mut number = Row::new(one);
        answer.require(numbers.push(number.u8()));
        row.refused |= number.refused;
    }
    Qubits::from_vec(numbers)
}

/// `eighth N`, `work CELL`, `opposite CELL`
fn angle_in(row: &mut Row<'_>) -> AngleRef {
    match row.word() {
        "eighth" => AngleRef::Eighth(row.u8()),
        "work" => AngleRef::Work(row.u32(), false),
        "opposite" => AngleRef::Work(row.u32(), true),
        _ => {
            row.refuse();
            AngleRef::Eighth(0)
        }
    }
}

/// `ONES, ZEROS, TARGET THETA PHI LAMBDA`
pub fn turn_in(alloc: Global, row: &mut Row<'_>, answer: &mut Answer) -> Primitive {
    let ones = references_in(alloc, row, answer);
    let zeros = references_in(alloc, row, answer);
    let target = reference_in(row);
    let (theta, phi, lambda) = (angle_in(row), angle_in(row), angle_in(row));
    Primitive::Turn {
        ones,
        zeros,
        target,
        theta,
        phi,
        lambda,
    }
}

/// `ONES, ZEROS, ANGLE`
pub fn phase_in(alloc: Global, row: &mut Row<'_>, answer: &mut Answer) -> Primitive {
    let ones = references_in(alloc, row, answer);
    let zeros = references_in(alloc, row, answer);
    let angle = angle_in(row);
    Primitive::Phase { ones, zeros, angle }
}

/// `nowhere`, `bit SLOT PLACE`, `at SLOT CELL`
pub fn store_in(row: &mut Row<'_>) -> Store {
    match row.word() {
        "nowhere" => Store::Nowhere,
        "bit" => Store::Bit {
            slot: row.u32(),
            place: row.u8(),
        },
        "at" => Store::BitAt {
            slot: row.u32(),
            cell: row.u32(),
        },
        _ => {
            row.refuse();
            Store::Nowhere
        }
    }
}
