//! The typing of programs: what a program of the syntax tree means as a typed tree, or the first reason why it means nothing.
//!
//! `specs/Expressions.antt` types an expression by cases on its tree, one line a form: each judgement goes from left to right, and the first
//! that fails is the refusal. `specs/Qubits.antt` says which qubits an operand names, `specs/Targets.antt` what is assigned to, `specs/Calls.antt`
//! what a subroutine is given. `specs/Declarations.antt`, `specs/Statements.antt` and `specs/Subroutines.antt` add names and take slots, one
//! statement after the other, and `specs/Programs.antt` puts them together. `specs/Environment.antt` is what they see and change.
//!
//! A judgement is a function to what it finds or to a refusal, so there is exactly one answer. The types of this crate are plain data, which
//! the definitions and the check of programs share. `proofs/examples` works small programs out.
#![tactic(auto)]

pub mod indexes;
pub mod names;
pub mod operand;
pub mod state;
pub mod way;
