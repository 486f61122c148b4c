//! Trees of the syntax as texts in brackets, for the programs of cases that answer with trees.
//!
//! `(Binary Add (Whole 1) (Name a [ ]))`: a variant or struct is its name and its parts in round brackets, a list its members in
//! square brackets, and a part that isn't there is `none`. A place is the number of its text, its line and its column, with colons
//! between. Each of them is written with a space before it, behind what stands in the answer.
//!
//! `Tree` is what is written so: expressions, statements, items and programs, and their parts. `write_program` writes a whole program
//! and lets it go.
#![tactic(auto)]

mod expressions;
pub mod programs;
mod statements;
pub mod tree;
