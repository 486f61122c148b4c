//! The canonical form of a list of amplitudes, in place: what is left when all common divisors are taken out.
//!
//! A state matters only up to a factor, and by their forms branches of a run are found to be in one state. [`canon::canon`] brings a list
//! to its form `u` and answers the `Scale` that stands for `|p|²`, where the list was `p·u`: its contract is `IsCanonical` of
//! `qt_canon_laws`. Where a coefficient of the form is above `LARGEST` it answers `NumberFault`, and the list is as it was. No memory is
//! taken.
//!
//! [`search`] finds the greatest divisor 2^t, with √2 and 1 − ω or not, and [`divisor`] has the quotients by it. A [`plan::Plan`] is the
//! divisor with the power of ε and the power of ω by which each quotient is multiplied; both are found on the first entry other than 0. All
//! results are computed and tested before any is written.
#![tactic(auto)]

pub mod canon;
mod divisor;
mod plan;
mod search;
