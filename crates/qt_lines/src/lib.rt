//! The lines that the top call puts to its sinks.
//!
//! `put_lines` puts a text, each line by one put; a put that is refused leaves a part of the text, and the fault whose count rose
//! (`IsCut`). `put_line` and the functions of `tell` put the one line that tells why there is no answer, whole or in a prefix where a count
//! rose (`PutsLine`); `shelf_line` and `form_line` write two of these lines. The lines of refused texts stand in `qt_read`.
#![tactic(auto)]

pub mod cut;
pub mod line;
pub mod tell;
