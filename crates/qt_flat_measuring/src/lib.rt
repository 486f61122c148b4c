//! Laws of the flat code of measurements and resets: it has the leaves of the meaning, with the same choices in the same order.
#![tactic(auto)]

pub mod laws;
