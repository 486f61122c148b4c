//! The command line: what its words say, or the first reason why they are refused.
//!
//! `arguments_of` reads the words of `qtree MODE FILE [name=value ..] [--workers N] [--fuel N] [--json]`. The words are parted by `clap`,
//! whose own refusal is `W1`; then the mode (`W2`), the numbers (`W3`) and the settings (`W4`) are tested, in this order.
//! `refusal_line` writes the line of a refusal. `specs/Command.antt` has the command, `specs/Arguments.antt` what its words say.
#![tactic(auto)]

pub mod arguments;
mod command;
mod numbers;
pub mod reading;
pub mod refused;
mod settings;
