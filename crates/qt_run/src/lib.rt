//! The meaning of programs of the first form, and the plain run that computes it.
//!
//! A program's meaning is its tree of outcomes: each measurement goes on with the outcomes that can come, and each leaf has
//! the values of the classical slots and a state, never scaled, whose squared norm is the probability of the leaf. The
//! distribution gives to each output value the sum over its leaves, as an exact number `(a + b√2) / 2^k`.
//!
//! [`run`] answers exactly that distribution, in ascending order of the output values, and its probabilities are together 1.
//! It follows every leaf, with a copy of the state at each outcome, and fails only for want of memory. `laws` says that any
//! distribution of a program has the total 1, and that there is one distribution. The host calls `run` on the program it read.
#![tactic(auto)]

pub mod laws;
mod point;
mod simulation;
mod slots;
mod tally;

pub use simulation::run;
