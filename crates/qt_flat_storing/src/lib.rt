//! Laws of the flat code that stores values: it stores what the meaning of the statement stores.
//!
//! `specs/Stores.antt` says what it is for code to store: from its first instruction on, whatever the work cells hold, the run comes to the
//! instruction behind it with the slots that the meaning says, or ends in the fault that the meaning has, and then nothing was stored.
//! `specs/Fits.antt` says which targets fit.
#![tactic(auto)]

pub mod laws;
