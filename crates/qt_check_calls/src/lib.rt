//! The check of calls of subroutines, and of right sides.
//!
//! Each function here is one definition of `qt_typing`, of the same name: it answers what that finds, or its refusal, or want of memory.
//! [`arguments::arguments`] are the values and the qubits that a subroutine is given, [`calls::calling`] is its call with the frame that it
//! takes, and [`right::right_at`] is a right side as a value of a type.
//!
//! The check of statements calls it.
#![tactic(auto)]

pub mod arguments;
pub mod calls;
pub mod right;
