//! Rules of the check of programs that stand on no other part of it, and so are tried by wrong bodies here.
//!
//! Each function is one definition of `qt_typing`, of the same name: it answers what that finds, or its refusal, or want of memory.
//! [`conversions::converts`] tells which types become which; [`names`] has what a name without a value is refused for, and what it calls;
//! [`counts`] compares numbers and tells them; [`operands`] holds registers of a broadcast to one size; [`jumps`] has `break` and `continue`
//! and what stands around the body of a subroutine.
//!
//! All crates of the check call it.
#![tactic(auto)]

pub mod conversions;
pub mod counts;
pub mod jumps;
pub mod names;
pub mod operands;
