//! What one instruction of flat code does to slots and work cells, and on what it stumbles.
//!
//! Each classical instruction is one write: [`write::write_of`] answers which cell or slot gets which value, or the fault, exactly as
//! `write_by` of `specs/Writes.antt` says in the words of the meaning of flat code; [`write::Write::put`] writes it. Code whose instructions
//! name only what it has writes only there (clause `within`). An instruction that does something else to a run, as a jump, a gate or a
//! choice, writes nothing here.
//!
//! [`cells`] has values in cells, [`operators`] operators, conversions, indexes and ranges on them, [`phases`] the arithmetic of phases and
//! [`qubits`] references to qubits. Nothing here takes memory. The run of a branch to its next choice is the caller.
#![tactic(auto)]

pub mod cells;
pub mod fault;
pub mod operators;
pub mod phases;
pub mod qubits;
pub mod write;
