//! The check of statements: what a statement means as a typed one, and what it changes, or its first reason for refusal.
//!
//! Each function here is one definition of `qt_typing`, of the same name: it answers what that finds, or its refusal, or want of memory.
//! [`forms`] has the statements without a body, one function a form; [`statement`] the recursion over bodies.
//!
//! The check of subroutines and of whole programs calls it.
#![tactic(auto)]

pub mod forms;
pub mod parts;
pub mod statement;
