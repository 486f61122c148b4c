//! The check of what an expression's operators and indexes stand on.
//!
//! Each function here is one definition of `qt_typing`, of the same name: it answers what that finds, or its refusal, or want of memory.
//! [`constants`] reckons what has to be constant, [`convert`] makes a value one of a type, [`sorts`] tells
//! which expressions are phases and angles, and which are constant as a whole.
//!
//! The check of operators, indexes and expressions calls it.
#![tactic(auto)]

pub mod constants;
pub mod convert;
pub mod sorts;
