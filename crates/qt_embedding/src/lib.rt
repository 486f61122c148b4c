//! Operators under controls on chosen qubits of a state, entry by entry. There is no code here: definitions, and what is proved of them.
//!
//! `specs/Controls.antt` puts an operator under controls that ask for 1 or for 0, and says which controls two masks name.
//! `specs/Entries.antt` says what such an operator on one qubit, or on none, leaves at each index of a list of amplitudes: a row of
//! its matrix times the amplitudes of a pair where the masks hold, and else the amplitude as it was.
//!
//! `proofs/Products.antt` says that these are the entries of the full product of the embedded matrix
//! (`one_qubit_multiplies`, `no_qubit_multiplies`). `proofs/Twins.antt` has the pairs of indexes that differ in one bit, and how far
//! a loop over them has come (`Reached`). The crates that change state vectors in place build on both.
#![tactic(auto)]
