//! Flat code: instructions in one list, jumps between them, work cells beside the slots; which code is valid, and what it means.
//!
//! [`parts::Parts`] are the instructions of a program with their places, how many qubits, slots and work cells they use, the slots at
//! the beginning, and which slots are told at the end; they are those of `qt_instructions`. [`code::Code`] is parts that are valid:
//! `Code::build` takes parts over exactly where the nine rules of `specs/Validity.antt` hold, and hands them back where one doesn't. The
//! tests of the rules stand in `qt_code_rules`, and in `ranges`, `different`, `tested` and `layout`.
//!
//! `specs/Tail.antt` says what follows from an instruction, as a run of the same form as that of a statement: a list of leaves, in order.
//! It has a value for all code and from every start. [`laws`] says that Ticks and jumps of valid code do what they are for.
//!
//! The program doesn't call it yet. Flat code is to be made of the typed tree, and a run is to go over it.
#![tactic(auto)]

pub mod code;
mod different;
pub mod laws;
mod layout;
mod ranges;
mod tested;
mod validity;

pub use qt_instructions::{angle, instruction, parts, primitive, reference};
