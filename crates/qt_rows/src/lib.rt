//! Rows of cases and the answers to them, for programs that read rows and print one answer a line.
//!
//! Both keep their failure, so that a function of a row is straight code. `Row` is what of a row is still to be read: where a word or
//! a number is missing it is refused from then on, and gives empty words and zeros. `Answer` is what is written: where memory is
//! wanting nothing is written from then on. Each is asked once, at the end of the row. `unescaped` is the text that a row writes with
//! escapes.
#![tactic(auto)]

pub mod answer;
pub mod cases;
pub mod row;
pub mod text;
