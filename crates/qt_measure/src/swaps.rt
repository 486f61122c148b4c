ghost use Rattle.std.specs.Prelude.{◌≡◌, ◌^◌, ◌<◌, ◌≤◌, length};
ghost use Rattle.qt_ring.specs.declared.TheConstants.{QUBITS};
ghost use Rattle.qt_ring.specs.State.{flip};

use crate::bits::bit;
use qt_ring::omega::Omega;
use qt_vector::vector::Vector;

/// Moves each entry to the basis state with the qubit's bit turned.
pub fn flip(state: &mut Vector, qubit: u32)
    requires { qubit < state.old.qubits }
    ensures { state.new ≡ flip qubit state.old }
{
    let qubits = state.qubits;
    swap_twins(state.entries.as_mut_slice(), qubits, qubit);
}

/// Swaps each entry whose basis state has the qubit in 0 with that of the state with the qubit in 1.
fn swap_twins(entries: &mut [Omega], qubits: u32, qubit: u32)
    requires few { qubits ≤ QUBITS }
    requires full { length entries.old ≡ 2 ^ qubits }
    requires qubit_in { qubit < qubits }
    ensures { entries.new ≡ (flip qubit (record { qubits = qubits; entries = entries.old; halvings = 0 })).entries }
{
    let step = 1usize << qubit;
    for index in 0..entries.len() {
        if !bit(index, qubit) {
            entries.swap(index, index + step);
        }
    }
}
