//! The check of declarations: which names, slots and qubits a declaration takes, or its first reason for refusal.
//!
//! Each function here is one definition of `qt_typing`, of the same name: it answers what that finds, or its refusal, or want of memory.
//! [`state`] takes slots and qubits and opens and closes scopes, [`names`] adds names to scopes; [`sizes`] reckons sizes and types;
//! [`variables`], [`constants`] and [`registers`] declare what their names say.
//!
//! The check of statements calls it.
#![tactic(auto)]

pub mod constants;
pub mod names;
pub mod registers;
pub mod sizes;
pub mod state;
pub mod variables;
