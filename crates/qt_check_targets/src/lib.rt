//! The check of what is assigned to, and of what takes the outcomes of a measurement.
//!
//! Each function here is one definition of `qt_typing`, of the same name: it answers what that finds, or its refusal, or want of memory.
//! [`targets::target_at`] is the target of an assignment, [`targets::measured_target`] that of a measurement of some qubits.
//!
//! The check of statements calls it.
#![tactic(auto)]

pub mod targets;
