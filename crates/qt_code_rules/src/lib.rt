//! Tests that the rules of valid flat code are made of.
//!
//! [`counts`] says how many there may be of what code has, [`jumps`] how code ends and where its jumps may go, [`sizes::Sizes`] which
//! slots, work cells and qubits there are, and [`references`] which references count as tested. Each test is the definition of its name
//! in `specs/`.
//!
//! `qt_code` puts them together: code is built exactly of parts that pass them all.
#![tactic(auto)]

pub mod counts;
pub mod jumps;
pub mod references;
pub mod sizes;
