//! Texts that are read and let go: whether a text is that of a program, and the canonical text of its program.
//!
//! `check` and `canonical` refuse a text exactly as `qt_read::read` does. They are here so that the trees are dropped in this crate alone:
//! the top call of `qt_host` handles texts.
#![tactic(auto)]

pub mod source;
