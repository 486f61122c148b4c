//! Items of an OpenQASM 3 program that hold no statement, from their tokens.
//!
//! Includes, inputs and outputs, and qubits ([`items`]), arrays ([`arrays`]), gates ([`gates`]), and the head of a subroutine
//! ([`parameters`]), whose body the crate above reads. Each function reads one form of the grammar, with one token of lookahead, and
//! answers what the grammar's reader of that form answers (`specs/Parser.antt`): the tree and the number of the token behind it, or
//! Syntax or Nest with the number of the token at fault. `levels` is how many levels of nesting are left below the form, and `place` where
//! the item stands in its text. Only the values of arrays call themselves. Expressions are read by `qt_expr`, gate calls by
//! `qt_simple_statements`.
#![tactic(auto)]

pub mod arrays;
pub mod gates;
pub mod items;
pub mod parameters;
