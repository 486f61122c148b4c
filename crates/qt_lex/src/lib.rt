//! The lexer of the OpenQASM 3 profile: the tokens of a text, exactly.
//!
//! What each kind of token is spelled by stands in `specs/Tokens.antt`, with numbers in `specs/Numbers.antt` and the tables
//! of words and symbols in `specs/Bytes.antt`; kinds and runs of bytes are those of `qt_scan`. At each place that is no blank
//! and no comment the longest token is taken.
//! [`lexer::lex`] answers the tokens that a text gives, with their spans in bytes and their places, or the place of the first
//! character where no token begins, or of the first comment or text that isn't closed. [`fault::first_fault`] answers that place
//! alone, without memory. [`laws::one_reading`] says that a text gives exactly one list of tokens, or has exactly one such place,
//! and never both. The parsers read what `lex` gives.
#![tactic(auto)]

pub mod bits;
pub mod fault;
pub mod laws;
pub mod lexer;
mod number;
pub mod spellings;
pub mod tokens;
