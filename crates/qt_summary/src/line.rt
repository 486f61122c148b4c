//! The line that tells the numbers of a program.

ghost use Rattle.std.specs.Prelude.{◌≡◌, IfOk, string_bytes};
ghost use Rattle.qt_summary.specs.Lines as spec;

use crate::summary::Summary;
use std::alloc::{AllocError, Global};

/// The line of a program's numbers, with its line feed.
pub fn summary_line(alloc: Global, summary: Summary) -> Result<String, AllocError>
    ensures { IfOk result (λ line. string_bytes line ≡ spec.summary_line summary) }
{
    let Summary {
        qubits,
        slots,
        size,
    } = summary;
    let mut line = String::new(alloc);
    write!(line, "ok qubits {qubits} slots {slots} size {size}")?;
    line.push('\n')?;
    Ok(line)
}
