//! The calls of the rows, and what they did.

use crate::escapes::tell_bytes;
use crate::stage::Stage;
use qt_host::answer::format_text;
use qt_host::host::host as top_call;
use qt_host::refusal::HostRefusal;
use qt_outside::memory_shelf::MemoryShelf;
use qt_outside::memory_sink::MemorySink;
use qt_rows::answer::Answer;
use std::alloc::Global;

/// The words of a row, each owned.
fn owned(alloc: Global, words: &str, answer: &mut Answer) -> Vec<String> {
    let mut all = Vec::new(alloc);
    for word in words.split_whitespace() {
        if let Some(word) = answer.given(String::from_str(alloc, word)) {
            answer.require(all.push(word));
        }
    }
    all
}

/// How often the shelf was asked behind the first so many times, and each name and bound.
fn tell_fetches(shelf: &MemoryShelf, calls: u64, answer: &mut Answer) {
    let made = shelf.calls().saturating_sub(calls);
    write!(answer, "fetches {made}");
    for asked in shelf.asked().iter().skip(calls as usize) {
        let (name, most) = (asked.name(), asked.most());
        write!(answer, " {name} {most}");
    }
    answer.push_str("; ");
}

/// How often the sink was called, and how long each piece was.
fn tell_puts(word: &str, sink: &MemorySink, answer: &mut Answer) {
    let made = sink.calls();
    write!(answer, "{word} {made}");
    for length in sink.lengths() {
        write!(answer, " {length}");
    }
    answer.push_str("; ");
}

/// What the sink holds.
fn tell_held(word: &str, sink: &MemorySink, answer: &mut Answer) {
    write!(answer, "{word} ");
    tell_bytes(sink.bytes(), answer);
    answer.push_str(";");
}

/// `host WORD..`: the top call, over sinks that are new afterwards.
pub fn host(alloc: Global, words: &str, stage: &mut Stage, answer: &mut Answer) {
    let words = owned(alloc, words, answer);
    let calls = stage.shelf.calls();
    let status = top_call(
        alloc,
        words.as_slice(),
        &mut stage.shelf,
        &mut stage.out,
        &mut stage.err,
    );
    write!(answer, "status {status}; ");
    tell_fetches(&stage.shelf, calls, answer);
    tell_puts("puts", &stage.out, answer);
    tell_puts("lines", &stage.err, answer);
    tell_held("out", &stage.out, answer);
    tell_held(" err", &stage.err, answer);
    stage.out = MemorySink::new(alloc);
    stage.err = MemorySink::new(alloc);
}

/// Why a text has no answer.
fn tell_refusal(refusal: &HostRefusal, answer: &mut Answer) {
    match refusal {
        HostRefusal::Shelf(name) => {
            let name = name.text();
            write!(answer, "shelf {name}");
        }
        HostRefusal::Early(name) => {
            let name = name.text();
            write!(answer, "early {name}");
        }
        HostRefusal::Text(reason) => write!(answer, "{reason:?}"),
        HostRefusal::OutOfMemory => answer.push_str("memory"),
    }
}

/// `format NAME`: the canonical text, or why there is none.
pub fn format(alloc: Global, name: &str, stage: &mut Stage, answer: &mut Answer) {
    let calls = stage.shelf.calls();
    match format_text(alloc, &mut stage.shelf, name) {
        Ok(text) => tell_bytes(text.as_bytes(), answer),
        Err(refusal) => tell_refusal(&refusal, answer),
    }
    answer.push_str("; ");
    tell_fetches(&stage.shelf, calls, answer);
}
