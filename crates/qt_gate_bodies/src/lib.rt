//! The bodies of the standard gates without parameters, and what the bodies of all standard gates are made of.
//!
//! [`bodies`] has a function for each form of body, [`calls`] for the calls in them, [`angles`] for the angles of those, and [`lists`] for
//! short lists. Contracts say that each is what has its name in `qt_gate_calls/specs/Standard.antt`. `qt_gates` puts the bodies into the
//! table of gates.
#![tactic(auto)]

pub mod angles;
pub mod bodies;
pub mod calls;
pub mod lists;
