//! Measurements of state vectors: what the outcomes of a qubit leave, a qubit turned over, and the norm.
//!
//! All three are said by the definitions of `qt_ring`. `split` answers what each of the two outcomes of a qubit leaves: the
//! projection on it over its least power of two, not scaled to length 1, or none exactly where the projection vanishes. `flip`
//! moves each entry to the basis state with the qubit's bit turned, in place: a reset is the half of outcome 0 and the flipped half
//! of outcome 1. `norm` is the sum of |entry|², as `(A, B)` for `A + B√2`. Only `split` takes memory.
//!
//! The runs of programs are the callers: at a measurement, at a reset, and at the end of a path for its probability.
#![tactic(auto)]

mod bits;
mod kept;
mod outcomes;
mod sums;
mod swaps;
mod twos;

pub use outcomes::{Halves, split};
pub use sums::norm;
pub use swaps::flip;
