//! The table of operators and conversions as a program over `qt_value`.
//!
//! It reads rows from the standard input, one a line, and prints the answer to each as one line. A row is a call:
//! an operator and its operands, `number`, `cast`, `type`, `place` or `turns`, as in `+ int 8 127 int 8 1`,
//! `popcount bit 4 5`, `number int 8 255`, `cast int 8 255 uint 64`, `type int 65`, `place -2 2` and `turns 0 3 10`. An operand
//! is a type, its width and bits. An answer is a value of the same form, a number, `refused`, `divide`, `index` or `step`; that
//! to `type` is the width, whether it is a size of the language, and whether the type's values are whole numbers. A line that
//! is no row ends the program with status 1.
//!
//! `operator_tables.py` writes the rows and, from the tables of the language, the answers that are wanted.
#![tactic(auto)]

mod answer;
mod row;
mod words;

use crate::answer::Answer;
use crate::row::Row;
use std::io::{self, BufWriter, Write};
use std::process::ExitCode;

/// The answer to a line, or None where it is no row.
fn answered(line: &str) -> Option<Answer> {
    Answer::to(Row::parse(line)?)
}

fn main(rt: HostRuntime) -> io::Result<ExitCode> {
    let rows = io::read_to_string(rt.alloc(), rt.reader())?;
    let mut out = BufWriter::new(rt.alloc(), io::writer(&rt))?;
    for line in rows.lines() {
        let Some(answer) = answered(line) else {
            out.flush()?;
            eprintln!(rt; "not a row: {line}")?;
            return Ok(ExitCode::FAILURE);
        };
        writeln!(out, "{answer}")?;
    }
    out.flush()?;
    Ok(ExitCode::SUCCESS)
}
