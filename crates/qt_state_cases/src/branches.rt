//! Rows of branches.

use crate::amplitudes::{Amplitudes, write_amplitudes};
use crate::text::number_in;
use qt_branch::branch::Branch;
use qt_rows::answer::Answer;
use qt_rows::row::Row;
use std::alloc::Global;
use std::hash::{BuildHasher, BuildHasherDefault, FoldHasher};

/// The numbers of a text with blanks between them.
fn slots_in(alloc: Global, written: &str, row: &mut Row<'_>, answer: &mut Answer) -> Vec<u64> {
    let mut slots = Vec::new(alloc);
    for word in written.split_whitespace() {
        match word.parse::<u64>() {
            Ok(value) => answer.require(slots.push(value)),
            Err(_) => row.refuse(),
        }
    }
    slots
}

/// The branch of a place and what stands behind it: `SLOTS; QUBITS LIST`.
fn branch_at(alloc: Global, at: u32, row: &mut Row<'_>, answer: &mut Answer) -> Option<Branch> {
    let written = row.part(';');
    let slots = slots_in(alloc, written, row, answer);
    match Amplitudes::read(alloc, row.rest, row, answer) {
        Some(Amplitudes { entries, .. }) => {
            answer.given(Branch::new(alloc, at, slots.as_slice(), entries.as_slice()))
        }
        None => None,
    }
}

/// `AT; SLOTS; QUBITS LIST`.
fn branch_in(alloc: Global, row: &mut Row<'_>, answer: &mut Answer) -> Option<Branch> {
    let at = number_in(row.part(';'), row);
    branch_at(alloc, at, row, answer)
}

fn write_branch(branch: &Branch, answer: &mut Answer) {
    let (words, at) = (branch.words(), branch.at());
    let slots = branch.slots();
    write!(answer, "words {words}, at {at}, slots {slots:?}, entries ");
    write_amplitudes(branch.entries(), answer);
}

/// `branch AT; SLOTS; QUBITS LIST`.
pub fn answer_branch(alloc: Global, row: &mut Row<'_>, answer: &mut Answer) {
    if let Some(branch) = branch_in(alloc, row, answer) {
        write_branch(&branch, answer);
    }
}

fn write_same(left: &Branch, right: &Branch, answer: &mut Answer) {
    let hasher: BuildHasherDefault<FoldHasher> = BuildHasherDefault::new();
    let equal = left == right;
    let alike = hasher.hash_one(left) == hasher.hash_one(right);
    write!(answer, "equal {equal}, hashed alike {alike}");
}

fn answer_pair(alloc: Global, left: &Branch, row: &mut Row<'_>, answer: &mut Answer) {
    if let Some(right) = branch_in(alloc, row, answer) {
        write_same(left, &right, answer);
    }
}

/// `same BRANCH | BRANCH`.
pub fn answer_same(alloc: Global, row: &mut Row<'_>, answer: &mut Answer) {
    let mut first = Row::new(row.part('|'));
    let left = branch_in(alloc, &mut first, answer);
    row.refused |= first.refused;
    if let Some(left) = left {
        answer_pair(alloc, &left, row, answer);
    }
}
