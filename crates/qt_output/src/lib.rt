//! Output values: what a program leaves in its output variables at the end of one path.
//!
//! The model of an [`Output`] is its list of numbers, one for each output variable. Equality is that of the lists, and the order is
//! theirs, number by number with the shorter list first, so that an output can be the key of a map.
//! The run of a program gives one to each leaf, adds masses by it, and the report prints it.
#![tactic(auto)]

pub mod values;

pub use values::Output;
