//! The top call: all that the program does, over a shelf of texts and two sinks that are handed in.
//!
//! `host` takes the words of the command line and answers the status; what it puts to the sinks is a clause of its own for
//! each status. Where it answers 0 to `run`, the bytes are the report of exactly the distribution of the program whose text the
//! shelf holds; where it answers 0 to `format`, they are the canonical text of that program. The answer that is said of words and
//! texts is a relation of specs/Said.antt, and there is exactly one (`laws::one_answer`). [`answer::format_text`] is the mode `format`
//! without words and sinks. The program calls `host` over files and the standard streams; the cases of `qt_host_cases` over the fakes
//! of `qt_outside`.
#![tactic(auto)]

pub mod answer;
pub mod host;
pub mod laws;
pub mod refusal;
mod tell;
