//! Branches: where a run stands after one list of outcomes.
//!
//! The model of a [`branch::Branch`] is its three `Parts`: the place in the program, the values of the classical slots and the
//! amplitudes of all basis states of the qubits, over one factor that is kept elsewhere. Its invariant `IsBranch` says that the
//! amplitudes are those of at most `QUBITS` qubits and that no coefficient is above `LARGEST` in size. `new` copies the parts and `from_parts` takes them over, the
//! readers `at`, `slots` and `entries` give them back, and `words` tells how much room a branch takes.
//!
//! Two branches are equal exactly where their three parts are, and equal ones hash alike (`laws`), so that a branch can be the key of
//! a map: runs that have come to the same branch go on as one. Layers of a run are the callers.
#![tactic(auto)]

mod amplitudes;
pub mod branch;
pub mod laws;
mod slots;
