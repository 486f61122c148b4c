//! The check of what loops go over, and of conditions.
//!
//! Each function here is one definition of `qt_typing`, of the same name: it answers what that finds, or its refusal, or want of memory.
//! [`sequences::values_of`] are the values of a range, of a set, or of what a name stands for; [`ranges`] and [`names`] have the parts of
//! it. [`loops::for_values`] is the type of a loop's variable with its values, [`loops::condition_at`] the condition of an `if` or a `while`.
//!
//! The check of statements calls it.
#![tactic(auto)]

pub mod loops;
pub mod names;
pub mod ranges;
pub mod sequences;
