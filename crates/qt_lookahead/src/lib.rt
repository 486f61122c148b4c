//! What the parsers decide on one token.
//!
//! The grammar is read from the left with one token of lookahead, so that each choice of a parser is a small function of the next
//! token: [`begins`] says which forms may begin with it (FIRST), [`operator`] which operator it is, how strong that is and whether it is
//! one too many in its expression, [`one_token`] whether it is the terminal that must stand there, and [`pieces`] ends a form, or a
//! statement, by it. [`nesting`] says where a form stands, within the limits of [`qt_grammar::maximum`], and [`refusal`] how a refusal
//! is told: by the place of the token at fault and, where the profile leaves it out, by its feature.
//! The parsers above, of expressions and of programs, take no other decision, and each of these is proved by its table alone.
#![tactic(auto)]

pub mod begins;
pub mod nesting;
pub mod one_token;
pub mod operator;
pub mod pieces;
pub mod refusal;
