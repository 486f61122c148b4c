//! Registers of qubits that are known before a program runs.
//!
//! A [`register::Register`] is the list of its qubits, in order, and contracts see it as that list. A [`fixed::FixedQubit`] is a qubit of
//! the program by its number, or a place of the register that a subroutine's parameter stands for. `at` is the qubit at a place, `stepped`
//! the list of the qubits at every so many places, as a slice or an alias has them, and `append` puts one register behind another.
//! `holds` says whether a qubit stands in one, and `overlaps` whether some qubit stands in two of them. `specs/Registers.antt` says
//! these in words of lists.
//!
//! A register is kept as runs of qubits with one step between them, so one of four thousand million qubits is made at once and takes no
//! more memory than one of a single qubit. `specs/Runs.antt` says what runs stand for.
//!
//! The scopes of names and the typing of a program call it.
#![tactic(auto)]

pub mod fixed;
pub mod register;
mod run;
