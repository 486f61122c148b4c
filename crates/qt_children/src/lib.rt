//! What a choice leaves of a branch: for each outcome that can come, a branch in canonical form with its weight and fuel.
//!
//! A [`start::Start`] is a branch with the weight that it has and the fuel that is left. [`child::child`] makes one of what an outcome leaves of
//! the state: the canonical form of the amplitudes, and the weight times |p|² over 2^(2k), where p was taken out of amplitudes over 2^k. It
//! is refused exactly where the form has a coefficient above `LARGEST`, or the weight isn't whole over 2^96 or has an `a` of 2^100 or more
//! (`IsChild`, `HasNoChild` of `specs/Children.antt`).
//!
//! The run of a branch to its next choice is the caller.
#![tactic(auto)]

pub mod child;
pub mod start;
