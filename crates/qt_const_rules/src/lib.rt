//! What decides a constant on one operator, one name or one angle.
//!
//! [`consts::Consts`] is what is known of names: contracts see it as a list of entries, of which the last of a name counts, and a map beside
//! the list finds that one, so each call takes about as long for many names as for few.
//! [`modes::right_mode`] says how the right side of `&&` and `||` is reckoned, and [`modes::mode_in`] and [`modes::way_of`] how the
//! operands of an operator are, by their sorts, which [`sorts`] finds. [`rests::is_inexact`] is a division that leaves a rest where
//! none may be left. [`angles::angle_of`] is a phase as an angle. What has no constant has a [`fault::ConstFault`].
//! `specs/Modes.antt`, `specs/Sorts.antt` and `specs/Rests.antt` are these rules as tables.
//!
//! `qt_const` applies them to the tree of an expression. Only a new entry takes memory.
#![tactic(auto)]

pub mod angles;
pub mod builtins;
pub mod constant;
pub mod consts;
pub mod fault;
mod latest;
pub mod modes;
pub mod rests;
pub mod sorts;
