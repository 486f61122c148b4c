//! How many tokens stand in a statement without its bodies, as the size of a program counts them.
//!
//! Each function here counts what one definition of `qt_typing` says, `specs/Tokens.antt` there, up to 4,294,967,295; beyond that it answers
//! want of memory. [`expression`] has expressions, types and indexes, [`statement`] the parts and forms of statements,
//! [`declaration`] the declarations of the whole program.
//!
//! The check of statements calls it.
#![tactic(auto)]

pub mod declaration;
pub mod expression;
pub mod statement;
