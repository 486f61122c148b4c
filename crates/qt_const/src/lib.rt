//! The values of constant expressions, exactly.
//!
//! A [`qt_value::constant::ConstValue`] is a classical value, or a phase, which is an exact angle that is no value.
//! [`consts::Consts`] says what is known of names: contracts see it as a list of entries, of which the last of a name counts.
//! [`value::const_value`] gives the value of an expression, or the first refusal from left to right: a name that isn't in scope, a
//! type that doesn't fit, a division by 0, or what isn't constant, exact or in range. [`value::scalar_type`] is a type as it is written,
//! [`casts::cast_to`] a constant as one of another type, [`whole_number`] its whole number, and [`angles::angle_of`] a phase as an angle.
//! `specs/Value.antt` is the meaning of an expression by cases on its tree. What decides on one operator, one name or one angle stands
//! in `qt_const_rules`.
//!
//! The typing of a program calls it for sizes, constants, indexes, exponents and the angles of gates.
#![tactic(auto)]

pub mod casts;
mod constant;
pub mod indexes;
mod names;
pub mod operators;
mod parts;
mod sorts;
pub mod value;

pub use qt_const_rules::constant::whole_number;
pub use qt_const_rules::{angles, consts, fault, modes};
