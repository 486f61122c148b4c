//! Expressions of the OpenQASM 3 profile, and the forms that hold them, read from the left with one token of lookahead.
//!
//! [`parse_expr::parse_expr`] reads the expression that begins at a token of a text. Its contract is the grammar's promise
//! (`specs/Answers.antt`, over the grammar crate's `specs/Promise.antt`): it answers the only tree of the longest list of tokens
//! that opens an expression, where that list is one within the limits; else the first token of it that is too deep, or the token
//! behind it. The functions of [`expression`] and [`names`] read one form each, for the parser of statements, and answer what the
//! grammar's reader of that form answers (`specs/Parser.antt`), outside of expressions and with so many levels that are left. What
//! is decided on one token stands in `qt_lookahead`.
//! Inside, the forms that hold expressions take the function that reads operators as a parameter, so that each is proved by itself
//! and only that function calls itself. What was read is handed on as it was answered where something follows it ([`handed_on`],
//! [`grown`]), so that no tree waits where a refusal would have to drop it. The proofs choose a form by the terminal that stands
//! next (`proofs/Forms.antt`), so that they open the ten strengths of operators in few places.
#![tactic(auto)]

mod binary;
pub mod expression;
pub mod grown;
pub mod handed_on;
mod index;
mod literal;
pub mod names;
pub mod parse_expr;
mod primary;
mod reader;
