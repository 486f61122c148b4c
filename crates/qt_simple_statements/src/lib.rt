//! Statements of the OpenQASM 3 profile that have no body, from their tokens.
//!
//! [`statements::form_without_body`] reads any of them: declarations of variables, bit registers, constants and aliases
//! ([`declarations`]), gate calls ([`calls`]), assignments and calls of subroutines, measurements, resets, barriers, and the statements of
//! one keyword. Beside, what other forms share with them: gate calls stand in the bodies of gates, sizes behind the names of registers,
//! and [`values`] reads what a `for` runs through. Each function reads one form of the grammar, with one token of lookahead, and answers
//! what the grammar's reader of that form answers (`specs/Parser.antt`): the tree and the number of the token behind it, or Syntax or Nest
//! with the number of the token at fault. `levels` is how many levels of nesting are left below the form. No function calls itself;
//! expressions are read by `qt_expr`. What was read before a form is handed over while that is read (`qt_lookahead::pieces`,
//! `qt_expr::handed_on`), so that no tree waits in a variable where a refusal would have to drop it: that keeps the proofs short.
#![tactic(auto)]

mod assignments;
pub mod calls;
pub mod declarations;
mod operands;
pub mod statements;
pub mod values;
