//! Whole numbers on so many bits, up to 64: residues, two's complement, products, quotients, powers, shifts and rotations.
//!
//! Each call is the definition of its name in `specs/Residues.antt` or `specs/BitPlaces.antt`, and its result fits the width.
//! [`numbers`] works on numbers, which it takes modulo `2^width`; [`places`] works on bits by their places, the lowest first.
//! A type plays no part here, no call takes memory, and none can fail: where an operator has no result its caller asks first.
//!
//! The operators and conversions of `qt_value` call it.
#![tactic(auto)]

pub mod numbers;
pub mod places;
