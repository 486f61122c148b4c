//! Laws of the typing of programs: what it gives fits the frame that it is for, and is well formed.
//!
//! `specs/Fits.antt` says when the names in scope fit a frame, and when what an expression is typed as does; `specs/Seen.antt` when what a
//! statement sees of qubits, gates and subroutines is sound; `specs/Laws.antt` states the laws. In `proofs/` each file follows a file of
//! the typing: `Holding.antt` says what holds of what a judgement gives, and goes from left to right as judgements do, so each lemma has
//! the form of the definition that it is about; `Keeping.antt` says the same of judgements that change what is seen.
#![tactic(auto)]

pub mod laws;
