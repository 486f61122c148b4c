//! Laws of gate calls in programs, for those who build on them.
//!
//! The meaning multiplies the state by the one matrix of a call (`qt_meaning`). [`laws`] has that the call's primitives one after another do
//! the same, and so do those of its expansion after a run of the steps. `specs/Applying.antt` says how primitives are applied one after
//! another, and `specs/Laws.antt` states the laws.
#![tactic(auto)]

pub mod laws;
