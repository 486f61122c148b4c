//! The check of statements that store a value or call a subroutine: declarations of variables, assignments, calls and `return`.
//!
//! Each function here is one definition of `qt_typing`, of the same name: it answers what that finds, or its refusal, or want of memory.
//! [`declarations::declaration_of`] declares a variable, [`assignments::assignment`] stores a right side, [`updates::update`] is a compound
//! assignment, and [`calls::call_statement`] and [`calls::returned`] are a call and the end of a subroutine.
//!
//! The check of statements calls it.
#![tactic(auto)]

pub mod assignments;
pub mod calls;
pub mod declarations;
pub mod updates;
