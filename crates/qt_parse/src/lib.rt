//! Programs of the OpenQASM 3 profile, from their tokens.
//!
//! [`parser::parse`] answers the only program that the tokens of a text spell within the limits, or the token that is refused and why:
//! the first that is too deep, or the stopper, by its feature where the profile leaves that out. Each other function reads one form of
//! the grammar and answers what the grammar's reader of that form answers (`specs/Parser.antt`), with one token of lookahead; only
//! [`bodies`] call themselves. Statements without a body are read by `qt_simple_statements`, items that hold no statement by `qt_items`,
//! expressions by `qt_expr`. What was read before a form is handed over while that is read (`qt_lookahead::pieces`), so that no tree
//! waits in a variable where a refusal would have to drop it: that keeps the proofs short.
#![tactic(auto)]

mod bodies;
mod definitions;
pub mod parser;
mod program;
