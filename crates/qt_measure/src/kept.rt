//! What an outcome keeps of a state: whether that is nothing, how often it can be halved, and the list of it.
ghost use Rattle.std.specs.Prelude.{◌≡◌, ◌+◌, ◌<◌, ◌≤◌, ◌⊎◌, IfOk};
ghost use Rattle.qt_ring.specs.Multiples.{scaled, DividesAll};
ghost use Rattle.qt_ring.specs.Ring.{two_to};
ghost use Rattle.qt_ring.specs.State.{project, vanishes};
ghost use Rattle.qt_vector.specs.States.{AreSmall};

use crate::bits::bit;
use crate::twos::{halved, twos};
use qt_outside::faults::OutOfMemory;
use qt_ring::omega::Omega;
use qt_vector::vector::Vector;
use std::alloc::Global;

const ZERO: Omega = Omega {
    c0: 0,
    c1: 0,
    c2: 0,
    c3: 0,
};

/// Whether all entries that the outcome keeps are 0.
pub fn leaves_nothing(state: &Vector, qubit: u32, outcome: bool) -> bool
    requires { qubit < state.now.qubits }
    ensures { result ≡ vanishes (project qubit outcome state.now) }
{
    let entries = state.entries();
    for index in 0..entries.len() {
        if bit(index, qubit) == outcome && !entries[index].is_zero() {
            return false;
        }
    }
    true
}

/// How often all entries that the outcome keeps can be halved, at most as often as they are to be.
pub fn common_twos(state: &Vector, qubit: u32, outcome: bool) -> u32
    requires { qubit < state.now.qubits }
    ensures few { result ≤ state.now.halvings }
    ensures whole { DividesAll (two_to result) (project qubit outcome state.now).entries }
    ensures greatest { (result ≡ state.now.halvings) ⊎ (¬ DividesAll (two_to (result + 1)) (project qubit outcome state.now).entries) }
{
    let entries = state.entries();
    let mut by = state.k();
    for index in 0..entries.len() {
        if by == 0 {
            return 0;
        }
        if bit(index, qubit) == outcome {
            by = twos(entries[index], by);
        }
    }
    by
}

/// The entries that the outcome keeps, halved so many times; the others are 0.
pub fn kept_halved(
    alloc: Global,
    state: &Vector,
    qubit: u32,
    outcome: bool,
    by: u32,
) -> Result<Vec<Omega>, OutOfMemory>
    requires qubit_in { qubit < state.now.qubits }
    requires whole { DividesAll (two_to by) (project qubit outcome state.now).entries }
    ensures value { IfOk result (λ v. scaled (two_to by) v.items ≡ (project qubit outcome state.now).entries) }
    ensures small { IfOk result (λ v. AreSmall v.items) }
{
    let entries = state.entries();
    let mut kept = Vec::with_capacity(alloc, entries.len())?;
    for index in 0..entries.len() {
        let is_kept = bit(index, qubit) == outcome;
        kept.push(if is_kept {
            halved(entries[index], by)
        } else {
            ZERO
        })?;
    }
    Ok(kept)
}
