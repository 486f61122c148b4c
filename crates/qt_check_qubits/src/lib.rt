//! The check of the qubits that operands name.
//!
//! Each function here is one definition of `qt_typing`, of the same name: it answers what that finds, or its refusal, or want of memory.
//! [`operands::operand_qubits`] are the qubits of an operand: those of a name, or of it at an index, a range or a set of places.
//! [`operands::known_places`] is their register, where it is known before the run. [`repeats::repeats`] says whether a qubit stands among
//! others already. [`qubits`] has the steps: the qubits of a name, and those of a register at an index or a range.
//!
//! The check of targets, declarations, statements and calls calls it.
#![tactic(auto)]

pub mod operands;
pub mod qubits;
pub mod repeats;
