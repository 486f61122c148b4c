//! The work on states as a program that can be timed: gates, copies, canonical forms, outcomes and hashing, each done so many times.
//!
//! It reads rows from the standard input, one a line, and prints the answer to each as one line. A row is a word, how many qubits the
//! state has, 1 to `QUBITS`, and how many times the work is done: `h 6 1000`. The words are
//!
//! - `h`, `x`, `t`, `cx`: the gate on each qubit in turn, `cx` with the next qubit as its control;
//! - `copy`: a copy of the amplitudes, which is what the others are held against;
//! - `canon`: a copy of the amplitudes is brought to its canonical form;
//! - `split`: what the outcomes of each qubit in turn leave;
//! - `hash`: the branch that has the amplitudes is told to a hasher, that of a map by default.
//!
//! The state begins with `h` and then `t` on each qubit, so that no amplitude is 0. An answer tells what came of the work, so that none
//! of it can be left out: how often the gate was applied, with the halvings and the norm of the last state; how many amplitudes the last
//! copy has; the sum of the powers of two of the scales; how many halves there were; the hash. Any other line is answered with `no row`.
#![tactic(auto)]

mod gates;
mod row;
mod whole;

use crate::row::Row;
use qt_outside::faults::OutOfMemory;
use std::alloc::Global;
use std::io::{self, BufWriter, Write};
use std::process::ExitCode;

/// The answer to a line, written behind what stands in `answer`.
fn answer_line(alloc: Global, line: &str, answer: &mut String) -> Result<(), OutOfMemory> {
    match Row::parse(line) {
        Some(row) => whole::answer_row(alloc, row, answer),
        None => Ok(answer.push_str("no row")?),
    }
}

fn main(rt: HostRuntime) -> io::Result<ExitCode> {
    let alloc = rt.alloc();
    let rows = io::read_to_string(alloc, rt.reader())?;
    let mut out = BufWriter::new(alloc, io::writer(&rt))?;
    for line in rows.lines() {
        let mut answer = String::new(alloc);
        if answer_line(alloc, line, &mut answer).is_err() {
            return Ok(ExitCode::FAILURE);
        }
        writeln!(out, "{answer}")?;
    }
    out.flush()?;
    Ok(ExitCode::SUCCESS)
}
