//! Work on whole lists of amplitudes, and what is told of it.
ghost use Rattle.std.specs.Prelude.{◌≡◌, ◌<◌, ◌≤◌};
ghost use Rattle.std.specs.List.{list_all};
ghost use Rattle.qt_ring.specs.declared.TheConstants.{QUBITS};
ghost use Rattle.qt_ring.specs.Ring.{is_nil};
ghost use Rattle.qt_vector.specs.States.{AreSmall};

use crate::gates::Gate;
use crate::row::{Row, Work};
use qt_branch::branch::Branch;
use qt_canon::canon::canon;
use qt_measure::{norm, split};
use qt_outside::faults::OutOfMemory;
use qt_ring::omega::Omega;
use qt_vector::vector::Vector;
use std::alloc::Global;
use std::hash::{FoldHasher, Hash, Hasher};

/// The state after `h` and then `t` on each qubit.
fn begun(alloc: Global, qubits: u32) -> Result<Vector, OutOfMemory>
    requires some { 0 < qubits }
    requires few { qubits ≤ QUBITS }
{
    let mut state = Vector::zero_state(alloc, qubits)?;
    Gate::H.apply_often(&mut state, qubits, qubits);
    Gate::T.apply_often(&mut state, qubits, qubits);
    Ok(state)
}

/// The last of so many copies, each of the one before.
fn copied(alloc: Global, state: &Vector, times: u32) -> Result<Vec<Omega>, OutOfMemory> {
    let mut entries = Vec::from_slice(alloc, state.entries())?;
    for _time in 0..times {
        entries = Vec::from_slice(alloc, entries.as_slice())?;
    }
    Ok(entries)
}

/// Whether all amplitudes are 0: such a list has no canonical form.
fn are_all_zero(amplitudes: &[Omega]) -> bool
    ensures { result ≡ list_all is_nil amplitudes.now }
{
    amplitudes.iter().all(|amplitude| amplitude.is_zero())
}

/// The power of two in the scale of the list, which is copied for it; 0 for a list that has no form or too large a one.
fn twos_of(alloc: Global, amplitudes: &[Omega]) -> Result<i32, OutOfMemory>
    requires { AreSmall amplitudes.now }
{
    let mut entries = Vec::from_slice(alloc, amplitudes)?;
    if are_all_zero(entries.as_slice()) {
        return Ok(0);
    }
    match canon(entries.as_mut_slice()) {
        Ok(scale) => Ok(scale.twos),
        Err(_) => Ok(0),
    }
}

/// The sum of the powers of two of the scale, over so many times.
fn canon_often(alloc: Global, state: &Vector, times: u32) -> Result<i32, OutOfMemory> {
    let mut twos = 0i32;
    for _time in 0..times {
        twos = twos.wrapping_add(twos_of(alloc, state.entries())?);
    }
    Ok(twos)
}

/// How many halves the outcomes of one of the qubits leave.
fn halves_at(alloc: Global, state: &Vector, step: u32) -> Result<u64, OutOfMemory> {
    let qubits = state.qubits();
    if qubits == 0 {
        return Ok(0);
    }
    let halves = split(alloc, state, step % qubits)?;
    Ok(u64::from(halves.zero.is_some()) + u64::from(halves.one.is_some()))
}

/// How many halves there were, over so many times.
fn split_often(alloc: Global, state: &Vector, times: u32) -> Result<u64, OutOfMemory> {
    let mut count = 0u64;
    for step in 0..times {
        count = count.wrapping_add(halves_at(alloc, state, step)?);
    }
    Ok(count)
}

/// The hash after so many times.
fn hash_often(alloc: Global, state: &Vector, times: u32) -> Result<u64, OutOfMemory> {
    let branch = Branch::new(alloc, 0, &[], state.entries())?;
    let mut hasher = FoldHasher::default();
    for _time in 0..times {
        branch.hash(&mut hasher);
    }
    Ok(hasher.finish())
}

/// `k HALVINGS, norm A B`.
fn write_state(state: &Vector, answer: &mut String) -> Result<(), OutOfMemory> {
    let (k, (a, b)) = (state.k(), norm(state.entries()));
    Ok(write!(answer, "k {k}, norm {a} {b}")?)
}

/// The answer to a row.
pub fn answer_row(alloc: Global, row: Row, answer: &mut String) -> Result<(), OutOfMemory> {
    let Row {
        work,
        qubits,
        times,
    } = row;
    let mut state = begun(alloc, qubits)?;
    match work {
        Work::Apply(gate) => {
            let done = gate.apply_often(&mut state, qubits, times);
            write!(answer, "done {done}, ")?;
            write_state(&state, answer)
        }
        Work::Copy => {
            let length = copied(alloc, &state, times)?.len();
            Ok(write!(answer, "amplitudes {length}")?)
        }
        Work::Canon => {
            let twos = canon_often(alloc, &state, times)?;
            Ok(write!(answer, "twos {twos}")?)
        }
        Work::Split => {
            let count = split_often(alloc, &state, times)?;
            Ok(write!(answer, "halves {count}")?)
        }
        Work::Hash => {
            let hash = hash_often(alloc, &state, times)?;
            Ok(write!(answer, "hash {hash}")?)
        }
    }
}
