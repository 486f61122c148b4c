//! Primitives of flat code, resolved against work cells: which operator on which qubits of a state a gate is in the run.
//!
//! [`resolve::resolve`] answers the primitive of `qt_kernel` that a primitive of flat code names where the cells hold what they hold, or the
//! fault: a reference that is to no qubit, two qubits that are one, an angle that is no multiple of π/4, in this order. Its contract is in
//! the words of the meaning of flat code (`primitive_by`), and says that the primitive's product with each state is that of the matrix
//! that is meant, whatever the order of the controls (clause `acts`).
//!
//! `proofs/Acting.antt` has that: controls as a list and as masks hold of the same basis states. The run of a branch to its next choice is
//! the caller.
#![tactic(auto)]

mod eighths;
pub mod resolve;
