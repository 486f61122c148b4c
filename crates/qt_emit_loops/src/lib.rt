//! Writing the flat code of what loops go over.
//!
//! [`loops::begin`] puts the code of a loop's beginning behind the instructions so far, and [`loops::goes_on`] that of the test whether a turn
//! follows: each is exactly that of the definition in `qt_flat_code`, and where memory is wanted nothing is said of the list. They answer where
//! the next instruction stands. What a turn begins with has no code here yet.
//!
//! No program calls them yet.
#![tactic(auto)]

pub mod counts;
pub mod keeping;
pub mod loops;
pub mod turns;
