//! The report as JSON: one compact object and a line feed.
//!
//! A `Report` has a line for each output value, with its outputs as names and texts and its probability `(a+b√2)/2^k`, the sum of the
//! probabilities, and the number of states. Contracts see it as plain data. `json_report` writes it by `serde_json`, every byte of it as
//! `specs/Json.antt` says: keys stand in alphabetical order, and `a` and `b` are decimal texts, since they are wider than the numbers that most
//! readers of JSON keep exactly. The program doesn't call it yet.
#![tactic(auto)]

pub mod json;
pub mod report;

pub use json::json_report;
pub use report::{NamedText, Report, ReportLine};
