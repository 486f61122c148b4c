//! The check of statements without a body.
//!
//! Each function here is one definition of `qt_typing`, of the same name: it answers what that finds, or its refusal, or want of memory.
//! [`instructions::measure`], [`instructions::reset`] and [`instructions::barrier`] are the built-in quantum instructions, and
//! [`instructions::assign_outcomes`] is an assignment of outcomes. [`aliases::alias_of`] declares an alias of qubits, and [`jumps`] has `break`
//! and `continue`.
//!
//! The check of bodies and programs calls it.
#![tactic(auto)]

pub mod aliases;
pub mod instructions;
pub mod jumps;
