//! Laws of the flat code of gate calls: it means what the call means.
//!
//! `specs/Landing.antt` says what it is for code to do what the meaning does, whatever follows it; `specs/Fits.antt` which gate calls fit where
//! they stand.
#![tactic(auto)]

pub mod laws;
