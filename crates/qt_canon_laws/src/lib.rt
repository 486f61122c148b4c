//! The canonical form of a list of amplitudes, by which states that differ by a factor alone are found to be one.
//!
//! Out of a list that isn't all 0 common divisors are taken one after the other: the greatest power of 2, then √2 and then 1 − ω where
//! they divide all entries, then the one power of the unit ε = 1 + √2 that brings |x|² of the first entry other than 0 into a window,
//! and last the power of ω that makes the coefficients of that entry greatest. What is left is the form, and `|p|²` of the product p of
//! all that was taken out is a `Scale` of `qt_root2`.
//!
//! There is no code here. `specs/Canonical.antt` has the definition, and `laws` says that each list other than 0 has one canonical form
//! and one way to it, that the list is p times the form, and that lists which differ by ω, 1 − ω, 1 + √2 or 2 have one form. `qt_canon`
//! computes it; who merges branches of a run by their forms relies on the laws.
#![tactic(auto)]

pub mod laws;
