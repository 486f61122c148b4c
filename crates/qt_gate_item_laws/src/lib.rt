//! Laws of the check of declared gates; no code.
//!
//! [`laws::kept`] says that a gate that is judged leaves all as it was: its parameters and qubits stand in a scope of their own, which is
//! gone behind it.
#![tactic(auto)]

pub mod laws;
