//! Rows of shelves and sinks in memory.

use qt_outside::asked::Asked;
use qt_outside::faults::{FetchFault, PutFault};
use qt_outside::memory_shelf::MemoryShelf;
use qt_outside::memory_sink::MemorySink;
use qt_outside::shelf::Shelf;
use qt_outside::sink::Sink;
use qt_outside::sure_shelf::SureShelf;
use qt_outside::sure_sink::SureSink;
use qt_rows::answer::Answer;
use qt_rows::row::Row;
use std::alloc::Global;
use std::fmt::Display;

fn fault_told<F: Display + Drop>(fault: F, answer: &mut Answer) {
    write!(answer, "{fault}");
}

/// `fault fetch failed` and the like: the text of a fault.
pub fn fault(row: &mut Row<'_>, answer: &mut Answer) {
    match row.rest {
        "fetch failed" => fault_told(FetchFault::Failed, answer),
        "fetch memory" => fault_told(FetchFault::OutOfMemory, answer),
        "put failed" => fault_told(PutFault::Failed, answer),
        "put memory" => fault_told(PutFault::OutOfMemory, answer),
        _ => row.refuse(),
    }
}

/// Bytes as a text in quotes.
fn bytes_told(bytes: &[u8], answer: &mut Answer) {
    match str::from_utf8(bytes) {
        Ok(text) => write!(answer, "{text:?};"),
        Err(_) => answer.push_str("no text;"),
    }
}

/// One fetch through the bound alone, behind one byte that is there already: its answer, and what it leaves there.
fn fetched<S: Shelf>(alloc: Global, shelf: &mut S, call: &str, answer: &mut Answer) {
    let mut call = Row::new(call);
    let (name, most) = (call.word(), call.usize());
    if call.refused {
        return answer.push_str("no call;");
    }
    if let Some(mut into) = answer.given(Vec::from_slice(alloc, b">")) {
        let told = shelf.fetch(name, most, &mut into);
        write!(answer, "{told:?} ");
        bytes_told(into.as_slice(), answer);
    }
}

/// Fetches of a shelf. A call is a name and the most bytes.
fn all_fetched<S: Shelf>(alloc: Global, shelf: &mut S, calls: &str, answer: &mut Answer) {
    for call in calls.split(';') {
        fetched(alloc, shelf, call, answer);
    }
}

/// What each fetch asked for.
fn asked_told(asked: &[Asked], answer: &mut Answer) {
    for call in asked {
        let (name, most) = (call.name(), call.most());
        write!(answer, "{name} {most};");
    }
}

/// Lists the calls that are to fail.
fn failing(shelf: &mut MemoryShelf, numbers: &str, answer: &mut Answer) {
    for number in numbers.split(',') {
        if let Ok(call) = number.parse::<u32>() {
            answer.require(shelf.fail_at(call));
        }
    }
}

/// A shelf of two texts, one of which was put twice.
fn two_texts(alloc: Global, answer: &mut Answer) -> MemoryShelf {
    let mut shelf = MemoryShelf::new(alloc);
    answer.require(shelf.add_text("coin.qasm", b"bit c;\n"));
    answer.require(shelf.add_text("gates.inc", b"gate g a {}\n"));
    answer.require(shelf.add_text("coin.qasm", b"qubit q;\n"));
    shelf
}

/// `shelf NUMBERS CALLS`: fetches of a shelf of two texts that fails at these calls; then the count of calls and what each asked
/// for.
pub fn shelf(alloc: Global, row: &mut Row<'_>, answer: &mut Answer) {
    let numbers = row.word();
    let mut shelf = two_texts(alloc, answer);
    failing(&mut shelf, numbers, answer);
    all_fetched(alloc, &mut shelf, row.rest, answer);
    let count = shelf.calls();
    write!(answer, "calls {count};");
    asked_told(shelf.asked(), answer);
}

/// `sure_shelf CALLS`: fetches of a shelf of one text, which was put twice, that never fails.
pub fn sure_shelf(alloc: Global, calls: &str, answer: &mut Answer) {
    let mut shelf = SureShelf::new(alloc);
    answer.require(shelf.add_text("coin.qasm", b"bit c;\n"));
    answer.require(shelf.add_text("coin.qasm", b"qubit q;\n"));
    all_fetched(alloc, &mut shelf, calls, answer);
}

/// Two puts through the bound alone, and their answers.
fn put_lines<O: Sink>(out: &mut O, answer: &mut Answer) {
    let first = out.put(b"c=0 (1+0r)/2^1\n");
    let second = out.put(b"c=1 (1+0r)/2^1\n");
    write!(answer, "{first:?};{second:?};");
}

/// What a sink holds, the count of calls and the lengths of their pieces.
fn sink_told(out: &MemorySink, answer: &mut Answer) {
    bytes_told(out.bytes(), answer);
    let count = out.calls();
    write!(answer, "calls {count};");
    for length in out.lengths() {
        write!(answer, "{length};");
    }
}

/// `sink CALL KEPT`: two puts into a sink of which this call fails and keeps so many bytes; then its bytes, the count of calls and the
/// lengths of their pieces. Of two entries for one call the earlier counts.
pub fn sink(alloc: Global, row: &mut Row<'_>, answer: &mut Answer) {
    let (call, kept) = (row.u32(), row.u32());
    let mut out = MemorySink::new(alloc);
    answer.require(out.fail_at(call, kept));
    answer.require(out.fail_at(call, 7));
    put_lines(&mut out, answer);
    sink_told(&out, answer);
}

/// `sure_sink`: two puts into a sink that never fails, and its bytes.
pub fn sure_sink(alloc: Global, answer: &mut Answer) {
    let mut out = SureSink::new(alloc);
    put_lines(&mut out, answer);
    bytes_told(out.bytes(), answer);
}
