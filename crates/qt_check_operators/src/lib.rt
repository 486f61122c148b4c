//! The check of operators between operands that are typed.
//!
//! Each function here is one definition of `qt_typing`, of the same name: it answers what that finds, or its refusal, or want of memory.
//! [`operators::combined`] is an operator between two operands, [`operators::both_true`] is `&&` and `||`, [`operators::before_operand`]
//! an operator before its operand, and [`beside::right_beside`] the right operand of a compound assignment.
//!
//! The check of expressions and statements calls it.
#![tactic(auto)]

pub mod beside;
mod forms;
pub mod operators;
mod phases;
