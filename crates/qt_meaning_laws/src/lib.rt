//! Laws of the meaning of programs, for those who build on it.
//!
//! The meaning is the list of leaves of `qt_meaning`, and [`laws`] has what a reader expects of it: fuel that suffices stays enough;
//! a factor of the state, or any map that goes with gates, projections and flips, goes through programs; the matrices of gate calls are
//! unitary; and the masses of the leaves of a well formed program are together 1. `specs/` states what `qt_meaning` doesn't state itself.
//!
//! There is one induction over statements, in `proofs/Runs.antt`, `proofs/Trees.antt` and `proofs/Programs.antt`: a property of runs that
//! goes with what statements are made of holds of each program. Each law is such a property, so a new form of statement costs one line
//! there. `proofs/Matrices.antt` and `proofs/Unitary.antt` have the matrices, and `proofs/Named.antt` which qubits are named.
#![tactic(auto)]

pub mod laws;
