//! Rows of programs of the first form: their reading, their run and its report.

ghost use Rattle.std.specs.Prelude.{IfSome};
ghost use Rattle.qt_first.specs.Form.{IsWithinLimits};

use qt_first::program::Program;
use qt_first::read::read;
use qt_report::{Distribution, text_report};
use qt_root2::mass::Reduced;
use qt_rows::answer::Answer;
use qt_rows::text::unescaped;
use qt_run::run;
use std::alloc::Global;

/// The program whose text a row writes. Where there is none, the answer is `none`.
fn program(alloc: Global, written: &str, answer: &mut Answer) -> Option<Program>
    ensures { IfSome result IsWithinLimits }
{
    let text = answer.given(unescaped(alloc, written))?;
    match read(alloc, text.as_bytes()) {
        Ok(Some(program)) => return Some(program),
        Ok(None) => answer.push_str("none"),
        Err(_) => answer.lose(),
    }
    None
}

/// `read TEXT`: the sizes of the registers, and the statements.
pub fn answer_read(alloc: Global, text: &str, answer: &mut Answer) {
    if let Some(program) = program(alloc, text, answer) {
        let (qubits, bits) = (program.qubits, program.bits);
        let statements = program.statements.items();
        write!(answer, "{qubits} {bits} {statements:?}");
    }
}

/// The output values of the program of a text, with their chances.
fn distribution(alloc: Global, text: &str, answer: &mut Answer) -> Option<Distribution> {
    let program = program(alloc, text, answer)?;
    answer.given(run(alloc, &program))
}

/// `run TEXT`: the registers, and the output values with their chances.
pub fn answer_run(alloc: Global, text: &str, answer: &mut Answer) {
    if let Some(distribution) = distribution(alloc, text, answer) {
        tell_registers(&distribution, answer);
        tell_chances(&distribution, answer);
    }
}

fn tell_registers(distribution: &Distribution, answer: &mut Answer) {
    for register in distribution.layout() {
        let (name, width) = (register.name(), register.width());
        write!(answer, "{name}:{width}");
    }
}

fn tell_chances(distribution: &Distribution, answer: &mut Answer) {
    for chance in distribution.items() {
        let values = chance.output.values();
        let Reduced { a, b, k } = chance.of;
        write!(answer, " {values:?} {a} {b} {k}");
    }
}

/// Writes the report of the output values in quotes.
pub fn tell_report(alloc: Global, distribution: &Distribution, answer: &mut Answer) {
    if let Some(report) = answer.given(text_report(alloc, distribution)) {
        write!(answer, "{report:?}");
    }
}

/// `report TEXT`: the report of the run.
pub fn answer_report(alloc: Global, text: &str, answer: &mut Answer) {
    if let Some(distribution) = distribution(alloc, text, answer) {
        tell_report(alloc, &distribution, answer);
    }
}
