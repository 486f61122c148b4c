//! Rows of registers.

ghost use Rattle.std.specs.Prelude.{◌≡◌, ◌+◌, ◌-◌, ◌*◌, ◌<◌, length, IsTrue};

use crate::shown::show;
use qt_registers::register::Register;
use qt_rows::answer::Answer;
use qt_rows::row::Row;
use std::alloc::Global;

/// `program FIRST COUNT` or `parameter NUMBER SIZE`
fn part_in(alloc: Global, row: &mut Row<'_>, answer: &mut Answer) -> Option<Register> {
    let origin = row.word();
    let (number, count) = (row.u32(), row.u32());
    match origin {
        "program" => answer.given(Register::of_program(alloc, u64::from(number), count)),
        "parameter" => answer.given(Register::of_parameter(alloc, number, count)),
        _ => {
            row.refuse();
            None
        }
    }
}

/// Adds a part that a row writes.
fn append_part(alloc: Global, row: &mut Row<'_>, register: &mut Register, answer: &mut Answer) {
    if let Some(part) = part_in(alloc, row, answer) {
        answer.require(register.append(&part));
    }
}

/// The register of the parts that are still to be read.
fn register_in(alloc: Global, row: &mut Row<'_>, answer: &mut Answer) -> Register {
    let mut register = Register::none(alloc);
    for written in row.rest.split(',') {
        let mut part = Row::new(written);
        append_part(alloc, &mut part, &mut register, answer);
        row.refused |= part.refused;
    }
    register
}

/// Shows the size of a register, its first ten qubits, and its last.
fn show_qubits(register: &Register, answer: &mut Answer) {
    let size = register.size();
    show(&size, answer);
    for place in 0..size.min(10) {
        answer.push_str(" ");
        show(&register.at(place), answer);
    }
    if size > 10 {
        answer.push_str(" .. ");
        show(&register.at(size - 1), answer);
    }
}

/// `register PARTS`
pub fn register(alloc: Global, row: &mut Row<'_>, answer: &mut Answer) {
    show_qubits(&register_in(alloc, row, answer), answer);
}

/// `copied PARTS`
pub fn copied(alloc: Global, row: &mut Row<'_>, answer: &mut Answer) {
    let register = register_in(alloc, row, answer);
    if let Some(copy) = answer.given(register.copied(alloc)) {
        show_qubits(&copy, answer);
    }
}

/// `at PLACE; PARTS`
pub fn at(alloc: Global, row: &mut Row<'_>, answer: &mut Answer) {
    let mut written = Row::new(row.part(';'));
    let place = written.u64();
    row.refused |= written.refused;
    show(&register_in(alloc, row, answer).at(place), answer);
}

/// So many places, one step apart.
#[derive(Clone, Copy)]
struct Steps {
    start: u64,
    step: u64,
    count: u64,
}

impl Steps {
    /// Whether the places go on and are in a register of that size.
    fn are_within(self, size: u64) -> bool
        ensures { IsTrue result → (0 < self.step) × (0 < self.count → self.start + (self.count - 1) * self.step < size) }
    {
        if self.step == 0 {
            return false;
        }
        if self.count == 0 {
            return true;
        }
        match (self.count - 1).checked_mul(self.step) {
            Some(way) => match self.start.checked_add(way) {
                Some(last) => last < size,
                None => false,
            },
            None => false,
        }
    }
}

/// `START STEP COUNT`
fn steps_in(row: &mut Row<'_>) -> Steps {
    Steps {
        start: row.u64(),
        step: row.u64(),
        count: row.u64(),
    }
}

/// The qubits of a register at some places, if it has these places.
fn part_at(
    alloc: Global,
    steps: Steps,
    register: &Register,
    answer: &mut Answer,
) -> Option<Register> {
    if !steps.are_within(register.size()) {
        return None;
    }
    answer.given(register.stepped(alloc, steps.start, steps.step, steps.count))
}

/// `START STEP COUNT; PARTS`. None where it has no form, or where a place isn't in the register.
fn stepped_in(alloc: Global, written: &str, answer: &mut Answer) -> Option<Register> {
    let (places, parts) = written.split_once(';')?;
    let (mut places, mut parts) = (Row::new(places), Row::new(parts));
    let steps = steps_in(&mut places);
    let register = register_in(alloc, &mut parts, answer);
    if places.refused || parts.refused {
        return None;
    }
    part_at(alloc, steps, &register, answer)
}

/// `stepped START STEP COUNT; PARTS`
pub fn stepped(alloc: Global, written: &str, answer: &mut Answer) {
    match stepped_in(alloc, written, answer) {
        Some(part) => show_qubits(&part, answer),
        None => answer.push_str("refused"),
    }
}

/// Whether a register shares a qubit with one that a row writes. None where it writes none.
fn overlap_with(alloc: Global, left: &Register, right: &str, answer: &mut Answer) -> Option<bool> {
    let right = stepped_in(alloc, right, answer)?;
    Some(left.overlaps(&right))
}

/// `START STEP COUNT; PARTS / START STEP COUNT; PARTS`: whether they share a qubit. None where one of them is none.
fn overlap_in(alloc: Global, row: &str, answer: &mut Answer) -> Option<bool> {
    let (left, right) = row.split_once('/')?;
    let left = stepped_in(alloc, left, answer)?;
    overlap_with(alloc, &left, right, answer)
}

/// `overlap START STEP COUNT; PARTS / START STEP COUNT; PARTS`
pub fn overlap(alloc: Global, row: &str, answer: &mut Answer) {
    match overlap_in(alloc, row, answer) {
        Some(shared) => show(&shared, answer),
        None => answer.push_str("refused"),
    }
}
