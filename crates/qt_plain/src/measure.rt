ghost use Rattle.std.specs.Prelude.{◌≡◌, ◌^◌, ◌<◌, ◌≤◌, length, IfOk, pos, ◌≤ℤ◌};
ghost use Rattle.std.specs.List.{list_all};
ghost use Rattle.qt_ring.specs.Ring.{is_nil};
ghost use Rattle.qt_ring.specs.State.{project, total_a, total_b};

use crate::gates::bit;
use qt_ring::omega::Omega;
use std::alloc::{AllocError, Global};

pub const ZERO: Omega = Omega {
    c0: 0,
    c1: 0,
    c2: 0,
    c3: 0,
};

/// The entries whose bit of the qubit is the outcome; the others are 0.
pub fn projected(
    alloc: Global,
    entries: &[Omega],
    qubits: u32,
    qubit: u32,
    outcome: bool,
) -> Result<Vec<Omega>, AllocError>
    requires few { qubits ≤ 4 }
    requires full { length entries.now ≡ 2 ^ qubits }
    requires qubit_in { qubit < qubits }
    ensures { IfOk result (λ v. v.items ≡ (project qubit outcome (record { qubits = qubits; entries = entries.now; halvings = 0 })).entries) }
{
    let mut kept = Vec::new(alloc);
    for index in 0..entries.len() {
        let is_kept = bit(index, qubit) == outcome;
        kept.push(if is_kept { entries[index] } else { ZERO })?;
    }
    Ok(kept)
}

/// Whether all entries are 0.
pub fn all_zero(entries: &[Omega]) -> bool
    ensures { result ≡ list_all is_nil entries.now }
{
    entries.iter().all(|entry| entry.is_zero())
}

/// The sum of |entry|², as `(A, B)` for `A + B√2`.
pub fn total(entries: &[Omega]) -> (i128, i128)
    requires { total_a entries.now ≤ℤ pos (4 ^ 32) }
    ensures first { result.0 ≡ total_a entries.now }
    ensures second { result.1 ≡ total_b entries.now }
{
    let mut first = 0;
    let mut second = 0;
    for entry in entries {
        let parts = entry.norm_parts();
        first += parts.0;
        second += parts.1;
    }
    (first, second)
}
