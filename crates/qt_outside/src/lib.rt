//! The traits through which the host meets the outside, and their fakes in memory.
//!
//! A `Shelf` gives texts by their names, and a `Sink` takes bytes. Each has ghost members: what a
//! shelf holds and what a sink has taken, where it tells them, and counts of what went wrong, which
//! never fall. A refusal is told by its cause: `Failed` comes only where `faults` rose in that call,
//! and a sink answers `OutOfMemory` only where `wants` rose. So a caller can say of its own answers
//! when they come, without a word on files.
//! `MemoryShelf` and `MemorySink` fail at the calls that a caller lists, count their calls and keep
//! what each had; `SureShelf` and `SureSink` never fail but for want of memory. The host calls the
//! traits; its cases bring the fakes, and the program brings real files and standard output.
#![tactic(auto)]

pub mod asked;
mod copying;
mod failing_put;
pub mod faults;
pub mod memory_shelf;
pub mod memory_sink;
mod named_text;
pub mod shelf;
pub mod sink;
pub mod sure_shelf;
pub mod sure_sink;
