use crate::answer::Answer;
use crate::row::Row;
use std::alloc::Global;
use std::io::{self, BufWriter, Read, Write};
use std::process::ExitCode;

/// What answers the rows of a program of cases.
pub trait Cases {
    /// Writes the answer to a row. A row that is refused afterwards is answered with `no row`.
    fn answer(&mut self, alloc: Global, row: &mut Row<'_>, answer: &mut Answer);
}

/// The answer to one line.
fn answer_line<C: Cases>(alloc: Global, cases: &mut C, line: &str) -> Answer {
    let mut row = Row::new(line);
    let mut answer = Answer::new(alloc);
    cases.answer(alloc, &mut row, &mut answer);
    if row.refused {
        answer.replace("no row");
    }
    answer
}

/// Answers each line that is read by one line. Where memory is wanting it ends with status 1.
pub fn answer_lines<C: Cases, R: Read + Drop, W: Write + Drop>(
    alloc: Global,
    cases: &mut C,
    reader: R,
    writer: W,
) -> io::Result<ExitCode> {
    let rows = io::read_to_string(alloc, reader)?;
    let mut out = BufWriter::new(alloc, writer)?;
    for line in rows.lines() {
        let answer = answer_line(alloc, cases, line);
        let Some(text) = answer.text() else {
            return Ok(ExitCode::FAILURE);
        };
        writeln!(out, "{text}")?;
    }
    out.flush()?;
    Ok(ExitCode::SUCCESS)
}
