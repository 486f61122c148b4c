//! The check of indexes that are typed, and of ranges.
//!
//! Each function here is one definition of `qt_typing`, of the same name: it answers what that finds, or its refusal, or want of memory.
//! [`single::placed_index`] is an index that is typed, [`ranges::range_places`] the places of a range, and [`bits::bit_at`] and
//! [`bits::slice_at`] go from a value to bits of it.
//!
//! The check of expressions calls it, which types the indexes themselves; so does the check of qubits.
#![tactic(auto)]

pub mod bits;
pub mod ranges;
pub mod single;
