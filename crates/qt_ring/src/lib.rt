//! Exact complex numbers: the ring Z[ω], ω = e^{iπ/4}, in which every amplitude lies up to halvings.
//!
//! The model of an [`omega::Omega`] is its four whole coefficients. Each method's contract says what number it answers, by the
//! ring's own words `plus`, `minus`, `times` and `conj` of `specs/Ring.antt`, or that the ring has no such number; all but
//! `is_zero` ask for coefficients of at most 2^54 in size, so that no sum and no product leaves its type. A product has
//! coefficients of 128 bits, a [`wide::Wide`]. `laws` has the laws of the ring, for the crates that reason about it.
//!
//! The definitions of basis states, full matrices and states stand in `specs/` too, for the crates above: the plain state
//! vector and the meaning of programs. `proofs/` has their laws: the ring, norms, how a gate on chosen qubits acts, entries
//! by their numbers, the sum of norms, and what the four gates do to each entry.
#![tactic(auto)]

pub mod laws;
pub mod omega;
pub mod wide;

/// The most qubits that a state may have.
pub const QUBITS: u32 = 16;

/// The largest size of a coefficient of an amplitude, `2^54`.
pub const LARGEST: i64 = 1 << 54;
