//! Runs of flat code up to their next gate or stop: an end, a fault, want of fuel, or a choice.
//!
//! `specs/Stops.antt` defines the stop of a run from a point, instruction by instruction (`IsStop`). [`step::step`] does one instruction on
//! values, or says what gate or stop it is, and [`go::go`] follows the instructions of valid code until it meets one; no state is
//! touched. It ends, since a jump back goes to a Tick, which spends fuel. What `go` answers is said for every state beside the cells and
//! slots (`IsHalt`): so a gate is applied by its caller, which goes on behind it. Nothing here takes memory.
//!
//! `proofs/Turning.antt` says how a run comes over a gate, for the caller: the run of a branch to its next choice.
#![tactic(auto)]

pub mod go;
pub mod step;
