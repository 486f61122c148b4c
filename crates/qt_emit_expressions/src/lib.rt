//! Writing the flat code of expressions.
//!
//! [`expressions::expression`] puts the code of an expression behind the instructions so far: it is exactly that of the definition in
//! `qt_flat_code`, and where memory is wanted nothing is said of the list. It answers where the next instruction stands and the type of the
//! value. [`places::place`] does the same for the place of an array's element, and [`bits::copied`] for bits that go from one value to
//! another; [`lengths::length`] counts the instructions of an expression for the jumps ahead. Numbers of cells and of instructions that
//! have more than 32 bits are more than memory holds.
//!
//! No program calls them yet.
#![tactic(auto)]

pub mod bits;
pub mod coded;
pub mod expressions;
pub mod lengths;
pub mod numbers;
pub mod places;
