//! The check of declared gates: their names, angles and bodies, or the first reason for refusal.
//!
//! Each function here is one definition of `qt_typing`, of the same name: it answers what that finds, or its refusal, or want of memory.
//! [`angles`] reckons the arguments of calls in a body as angles of the gate's parameters, [`operators`] counts the operators in them, and
//! [`bodies`] checks the calls. [`items::check_gate`] judges a gate and answers its body; [`items::gate_item`] declares it too, and says what
//! the names that the program sees become.
//!
//! `specs/Layers.antt` is an angle by its outermost form, over what its parts are reckoned to. The check of programs calls this crate.
#![tactic(auto)]

pub mod angles;
pub mod bodies;
mod builtins;
pub mod items;
mod names;
pub mod operators;
mod reckoned;
mod rules;
