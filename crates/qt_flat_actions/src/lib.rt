//! Laws of the flat code of statements without bodies: it does what the statement means, with the unit of fuel that it spends first.
//!
//! `specs/Fits.antt` says which statements these are, and where they fit. Calls of subroutines, jumps, the end of the program and measurements
//! into bits of a target have no law here.
#![tactic(auto)]

pub mod laws;
