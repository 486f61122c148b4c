//! From the bytes of a text to its program, or to the reason that it has none.
//!
//! [`read::read`] decides in this order: a text may be too long, not UTF-8, without tokens, or its tokens may spell no program; else
//! it is that of one program. `specs/Reading.antt` says when a text is that of a program and when it is refused for a reason, and
//! [`laws::one_outcome`] that it is exactly one of the two, and for exactly one program or one reason. [`line::refusal_line`] writes
//! the line that tells a refusal, for every refusal of texts, programs and settings (`specs/Lines.antt`).
//! The top call reads the main text by it.
#![tactic(auto)]

pub mod laws;
pub mod line;
pub mod read;
