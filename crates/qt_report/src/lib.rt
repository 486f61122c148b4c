//! The report of a distribution: one line for each output value, and the line of the total.
//!
//! A `Distribution` is seen as its layout, a list of bit registers, and its chances, each an output
//! value with its probability; it keeps that its total is their sum. `text_report` writes it as
//! `name=digits .. (a+br)/2^k` line by line, where `r` stands for √2, and `fraction_text` writes one
//! probability. Both say every byte of what they answer, and fail only for want of memory.
//! The run of a program makes distributions; the top call prints them.
#![tactic(auto)]

pub mod distribution;
pub mod laws;
pub mod register;
pub mod report;

pub use distribution::{Chance, Distribution};
pub use register::Register;
pub use report::{fraction_text, text_report};
