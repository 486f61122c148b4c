//! State vectors: the amplitudes of a program's qubits over one power of two, the least.
//!
//! The model of a [`vector::Vector`] is a state of `qt_ring`: entries in Z[ω] with a shared number of halvings. Its invariant
//! `IsVector` says that it has at most `QUBITS` qubits and all their entries, that no coefficient is above `LARGEST` in size,
//! that there are at most `HALVINGS` halvings, and that these are the least: there are none, or some coefficient is odd.
//! `zero_state` is the state with all qubits in 0, and `from_entries` takes amplitudes as they stand; the readers `qubits`, `k` and
//! `entries` give its parts, each with the invariant. `laws` says that each state has exactly one reduced state.
//!
//! The fields are open to the crates that change a vector in place, the gates and the measurements, which prove the invariant
//! again wherever they are done with it. They are the callers, and the branches of a run.
#![tactic(auto)]

pub mod laws;
pub mod vector;

/// The most halvings that the amplitudes of a state may have.
pub const HALVINGS: u32 = 127;
