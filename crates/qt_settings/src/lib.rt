//! The values that settings give to the inputs of a program.
//!
//! [`written::bits_written`] reads a value of a type as it is written, [`fit::inputs_fit`] finds the value of each input, or the first reason
//! for refusal. Each function is one definition of `qt_typing::specs::Inputs`, of the same name.
#![tactic(auto)]

mod digits;
pub mod fit;
pub mod written;
