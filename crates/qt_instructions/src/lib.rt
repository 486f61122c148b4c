//! The instructions of flat code, and the parts that code is made of, as plain data.
//!
//! [`parts::Parts`] are the instructions of a program ([`instruction::Instr`]) with their places, how many qubits, slots and work cells
//! they use, the slots at the beginning, and which slots are told at the end. References to qubits and angles, primitives and arithmetic
//! of phases are in [`reference`], [`primitive`] and [`angle`]. Parts are compared by `==`, part by part.
//!
//! `qt_code` says which parts are valid code, and hands these modules on.
#![tactic(auto)]

pub mod angle;
pub mod instruction;
pub mod parts;
pub mod primitive;
pub mod reference;
