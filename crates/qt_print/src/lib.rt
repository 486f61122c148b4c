//! The canonical text of a program: what is printed of its syntax tree, byte by byte.
//!
//! [`program::print`] writes a program one statement a line, with two spaces of indent for each body and each body in braces.
//! The text is defined by the tree: `specs/Expressions.antt`, `specs/Statements.antt` and `specs/Programs.antt` give the lexemes of
//! each form in the order of the grammar, and the lines of statements; `qt_lexemes` has how each lexeme is written and between which
//! two lexemes of a line the one space stands; `specs/Text.antt` makes the text of the lines. Numbers are printed in decimal and bit
//! strings by their digits, so what was written in another way is printed in one.
//! The command that formats a text prints its tree with this crate.
#![tactic(auto)]

mod expression;
pub mod program;
mod statement;

pub use program::print;
