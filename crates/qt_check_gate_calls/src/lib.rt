//! The check of gate calls: what a gate call means, or its first reason for refusal.
//!
//! Each function here is one definition of `qt_typing`, of the same name: it answers what that finds, or its refusal, or want of memory.
//! [`modifiers`] reckons the modifiers of a call, [`gates`] finds what is called, and how many parameters and qubits it has;
//! [`arguments`] types the arguments as phases, [`operands`] finds the qubits, and whether one stands twice. [`calls::gate_call`] is the
//! whole.
//!
//! The check of statements and of declared gates calls it.
#![tactic(auto)]

pub mod arguments;
pub mod calls;
pub mod gates;
pub mod modifiers;
pub mod operands;
