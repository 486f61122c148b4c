//! The words of a command line: what they ask for, and the line that is told where that is nothing which is served.
//!
//! `request_of` finds a mode and the name of a text in two words of which the first is `run` or `format`, and nothing in all others;
//! `unserved_line` writes the line of those. The top call of `qt_host` reads its words by the one and tells them by the other.
#![tactic(auto)]

pub mod request;
pub mod unserved;
