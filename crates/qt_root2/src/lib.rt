//! Exact real numbers of the form `(a + b√2) / 2^k`, for the probabilities of a program's outcomes.
//!
//! A `Weight` belongs to a branch of the run and a `Mass` to an outcome: both are numerators over `2^96` whose number and conjugate
//! are not below 0.
//! `Weight::scaled` multiplies by a product of powers of 2, of `ε² = 3 + 2√2` and of `2 − √2`, and `Weight::mass` by the squared norm
//! of a state. Both give the exact product, or a fault exactly where it is not whole or is too large.
//! `Weight::plus` and `Mass::plus` add, and `Mass::reduced` gives the one fraction with the least power of two, so that equal
//! numbers are equal records.
//!
//! The run of a program calls the weights, and the report of its outcomes the masses. `laws` says that sums and products of such
//! numbers are such numbers again, and `proofs/Reals.antt` has the laws of the sums.
#![tactic(auto)]

pub mod laws;
pub mod mass;
mod numerator;
pub mod scale;
mod scaling;
pub mod weight;
