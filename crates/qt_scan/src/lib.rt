//! The bytes of a text by their places: kinds of bytes, runs of a kind, and the longest text of a table that stands at a place.
//!
//! Behind the end of a text stands the byte 0, which is in no token, so that a place is asked without a test of the length.
//! Each call is the definition of its name in `specs/Bytes.antt`, or says where the run that it finds ends. No call takes memory.
//!
//! The lexer calls it, which has the tables.
#![tactic(auto)]

pub mod bytes;
pub mod runs;
