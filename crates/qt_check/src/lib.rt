//! The check of programs: what a program means as a typed tree, or the first reason why it means nothing, named and placed.
//!
//! [`check::check`] is the whole: its definition is `typing_of` of `qt_typing`, and each function here is one definition there, of the same
//! name. [`subroutines`] types definitions of subroutines, each in a frame of its own; [`interface`] declares inputs and outputs;
//! [`items`] goes over the items of a program, and [`program`] begins and ends it.
#![tactic(auto)]

pub mod check;
pub mod interface;
pub mod items;
pub mod program;
pub mod subroutines;
