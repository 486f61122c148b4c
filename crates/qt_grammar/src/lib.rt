//! The grammar of the OpenQASM 3 profile as data, and the theorem about reading it from the left.
//!
//! A production is a `Form` of `specs/Form.antt`, and `specs/Language.antt` has them all, each with the function that makes its
//! tree. From a form two relations are computed: which tokens spell it with which tree, and which tokens open it, that is, are a
//! viable prefix. `specs/Spelling.antt` has both, within limits: so many levels of forms with names, so many operators in an
//! expression. That levels are parentheses, brackets, braces, bodies, operands of unary operators and right sides of `**` is a law
//! over a count of these, `specs/Depth.antt`; that the strengths of operators only group is one over `specs/Operators.antt`.
//! `specs/Promise.antt` says which outcome of a reader is right: the only tree, the stopper behind the longest list that opens the
//! form, or the first token that is too deep. Nobody has to read how a form is read to believe this: the reader that looks one token
//! ahead, `specs/Reading.antt`, stands apart.
//! `proofs/` shows once for every grammar that passes a test by computing that the reader's outcome is right; [`laws`] has what
//! follows: one tree at most, one right answer, and which. There is no parser here: the parsers, in crates above, equal the reader,
//! function by function, and cite `proofs/Parsers.antt`.
#![tactic(auto)]

pub mod laws;
pub mod maximum;
pub mod refusal;
