//! What a program comes to before it runs: its numbers of qubits and slots and its size, or the first reason why it is refused.
//!
//! `specs/Summary.antt` has the definition, from the typing on: the size is tested (E17), and then the fixed angles (E13).
//! [`typed::typed_summary`] makes these steps of a typed program, and [`line::summary_line`] writes the numbers.
//!
//! No program calls them yet.
#![tactic(auto)]

pub mod line;
pub mod summary;
pub mod typed;
