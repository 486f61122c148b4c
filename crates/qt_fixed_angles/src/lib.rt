//! The first fixed angle of a typed program that is no multiple of π/4.
//!
//! [`program::first_wrong_angle`] answers it exactly: statements in the order in which they stand, the body of a subroutine in place of each
//! call, a call on registers as a call for each place. Each subroutine that is put in is gone through once, over those before it, so a call
//! isn't followed into a body; [`reached`] finds which they are, since one that is put in nowhere isn't tested. `specs/Angles.antt` has the
//! definition, [`statements`] the recursion over bodies, and [`calls`] the expansion of one gate call.
//!
//! The check of a whole program calls it (`qt_summary`).
#![tactic(auto)]

pub mod calls;
pub mod program;
pub mod reached;
pub mod statements;
pub mod wrong;
