//! Types of values as words of rows, for the programs of cases whose rows name types.
//!
//! A type is written as its name and its width in bits: `bool 1`, `bit N`, `int N`, `uint N` or `angle N`. A phase is the type of no value,
//! and isn't written.
//! `type_named` answers the type of a name and a width exactly where they are those of one, whatever sizes the language has. `type_in`
//! reads both from a row, and refuses a row that names none.
#![tactic(auto)]

pub mod types;
