//! State vectors of at most 4 qubits, changed gate by gate as full matrices say it: the slow and plain way, whose contracts
//! are the definitions.
//!
//! The model of a [`vector::StateVector`] is a state of `qt_ring`: entries in Z[ω] with a shared count of halvings, never
//! scaled and never reduced. Each call answers exactly the state of the definition: `hadamard`, `x`, `t` and `controlled_x`
//! the full product of the gate's matrix, `projected` what is left after an outcome, and `mass` its probability. No call is
//! ever refused but for want of memory: gates are unitary, so that after at most 32 halvings no entry is larger than 2^32.
//! What the mass of a state is, and its laws, stand in `qt_mass`. The run of programs is the caller.
#![tactic(auto)]

mod gates;
mod measure;
pub mod vector;
