//! Writing the flat code of values that go to variables.
//!
//! [`targets::target`] puts the code by which a value in a cell goes to a target behind the instructions so far: it is exactly that of the
//! definition in `qt_flat_code`, and where memory is wanted nothing is said of the list. It answers where the next instruction stands. Its
//! parts are where the target is, its value, and the store. [`bits::target_bits`] says which bits of a variable a target is, [`variables`]
//! has the variables' values and places, and [`slots`] what goes to several slots.
//!
//! No program calls them yet.
#![tactic(auto)]

pub mod bits;
pub mod slots;
pub mod steps;
pub mod targets;
pub mod variables;
