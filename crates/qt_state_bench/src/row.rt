//! Rows: which work is done, on how many qubits, and how many times.
ghost use Rattle.std.specs.Prelude.{◌≤◌, ◌<◌};
ghost use Rattle.qt_ring.specs.declared.TheConstants.{QUBITS};

use crate::gates::Gate;
use qt_ring::QUBITS;

/// What is done.
#[derive(Clone, Copy)]
pub enum Work {
    Apply(Gate),
    Copy,
    Canon,
    Split,
    Hash,
}

/// A row of the input.
#[derive(Clone, Copy)]
pub struct Row {
    pub work: Work,
    pub qubits: u32,
    pub times: u32,
    ghost some: { 0 < qubits },
    ghost few: { qubits ≤ QUBITS },
}

impl Work {
    fn named(word: &str) -> Option<Work> {
        match word {
            "h" => Some(Work::Apply(Gate::H)),
            "x" => Some(Work::Apply(Gate::X)),
            "t" => Some(Work::Apply(Gate::T)),
            "cx" => Some(Work::Apply(Gate::Cx)),
            "copy" => Some(Work::Copy),
            "canon" => Some(Work::Canon),
            "split" => Some(Work::Split),
            "hash" => Some(Work::Hash),
            _ => None,
        }
    }
}

impl Row {
    /// The row that a line is, if it is one.
    pub fn parse(line: &str) -> Option<Row> {
        let mut words = line.split_whitespace();
        let work = Work::named(words.next()?)?;
        let qubits = words.next()?.parse::<u32>().ok()?;
        let times = words.next()?.parse::<u32>().ok()?;
        if qubits == 0 || qubits > QUBITS || words.next().is_some() {
            return None;
        }
        Some(Row {
            work,
            qubits,
            times,
        })
    }
}
