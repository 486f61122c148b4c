//! Laws of the flat code of expressions: it means what the expression means.
//!
//! `specs/Lands.antt` says what it is for code to land: from its first instruction on, whatever the work cells hold, the run comes to the
//! instruction behind it with the value in one work cell, or ends in the fault that the meaning has.
#![tactic(auto)]

pub mod laws;
