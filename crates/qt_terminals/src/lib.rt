//! What the grammar of the OpenQASM 3 profile sees of a token: its terminal.
//!
//! A [`terminal::Terminal`] stands for each spelling and each kind of literal that the grammar or a refusal tells apart: for each
//! reserved word and each symbol, for names, for whole numbers, and so on. A [`stream::TokenStream`] is a text with its
//! tokens, which contracts see as a list of placed terminals: each with its spelling and its place, and with the number of operators
//! before it, by which long expressions are refused. `specs/Terminals.antt` says which list a text and its tokens are.
//! The stream's calls answer for every number of a token: behind the last stands the end of the text. They take no memory, and
//! they give the values of literals, whose definitions stand in `specs/Literals.antt`. The parsers read streams.
#![tactic(auto)]

pub mod laws;
mod literal;
mod spelling;
pub mod stream;
pub mod terminal;
