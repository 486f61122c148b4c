//! Programs that are checked.

use qt_check::check::{built, check};
use qt_outside::faults::OutOfMemory;
use qt_read::line::refusal_line;
use qt_read::read::read;
use qt_rows::answer::Answer;
use qt_tree::label::{Label, Setting};
use qt_tree::program::Program;
use qt_tree::refusal::TextRefusal;
use qt_typed::program::Typed;
use std::alloc::Global;

/// What the text of a row is called.
const NAME: &str = "p";

/// The line of a refusal without its line feed.
fn line_of(alloc: Global, refusal: &TextRefusal) -> Result<String, OutOfMemory> {
    let mut names = Vec::new(alloc);
    names.push(Label::new(alloc, NAME)?)?;
    refusal_line(alloc, names.as_slice(), refusal)
}

/// Writes a refusal. Where memory is wanting the answer is lost.
fn write_refusal(alloc: Global, refusal: &TextRefusal, answer: &mut Answer) {
    if let TextRefusal::OutOfMemory = refusal {
        return answer.lose();
    }
    if let Some(line) = answer.given(line_of(alloc, refusal)) {
        answer.push_str(line.as_str().trim_end());
    }
}

/// Writes the numbers of a typed program.
fn write_numbers(typed: &Typed, answer: &mut Answer) {
    let (qubits, slots, size) = (typed.qubits(), typed.slots(), typed.size());
    write!(answer, "ok qubits {qubits} slots {slots} size {size}");
}

/// Checks a program, and writes what is found.
fn write_checked(alloc: Global, program: &Program, settings: &[Setting], answer: &mut Answer) {
    if !built(program) {
        return answer.push_str("includes");
    }
    match check(alloc, program, settings) {
        Ok(typed) => write_numbers(&typed, answer),
        Err(refusal) => write_refusal(alloc, &refusal, answer),
    }
}

/// `check SETTINGS: TEXT`
pub fn answer_check(alloc: Global, settings: &[Setting], text: &str, answer: &mut Answer) {
    match read(alloc, NAME, 0, text.as_bytes()) {
        Ok(program) => {
            write_checked(alloc, &program, settings, answer);
            program.discard();
        }
        Err(refusal) => write_refusal(alloc, &refusal, answer),
    }
}
