//! The mass of a state: the sum of |amplitude|² as an exact real number, which is the probability that the state carries.
//!
//! The definition stands in `specs/Mass.antt`, over the states of `qt_ring` and the real numbers `(a + b√2) / 2^k` of `qt_root2`.
//! There is no code here but the laws, for the crates that run programs and for those that reason about runs: gates keep the mass,
//! the outcomes of a measurement share it, it is 0 at the zero vector alone, and 1 at the state of all zeros.
#![tactic(auto)]

pub mod laws;
