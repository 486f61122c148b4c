//! The shelf and the sinks that the rows set up.

use crate::escapes::unescaped;
use crate::wide::wide;
use qt_outside::memory_shelf::MemoryShelf;
use qt_outside::memory_sink::MemorySink;
use qt_rows::answer::Answer;
use qt_rows::row::Row;
use std::alloc::Global;

/// The most bytes that a text is filled up to.
const MOST_FILLED: usize = 2097152;

/// A shelf, and the two sinks of the next call.
#[derive(Drop)]
pub struct Stage {
    pub shelf: MemoryShelf,
    pub out: MemorySink,
    pub err: MemorySink,
}

/// Appends line feeds up to so many bytes.
fn fill(bytes: &mut Vec<u8>, count: usize, answer: &mut Answer) {
    for _ in bytes.len()..count {
        answer.require(bytes.push(b'\n'));
    }
}

impl Stage {
    pub fn new(alloc: Global) -> Stage {
        Stage {
            shelf: MemoryShelf::new(alloc),
            out: MemorySink::new(alloc),
            err: MemorySink::new(alloc),
        }
    }

    /// `new`: a shelf without texts.
    pub fn clear(&mut self, alloc: Global, answer: &mut Answer) {
        self.shelf = MemoryShelf::new(alloc);
        answer.push_str("new");
    }

    /// `text NAME TEXT`
    pub fn put_text(&mut self, alloc: Global, row: &mut Row<'_>, answer: &mut Answer) {
        let name = row.word();
        let bytes = unescaped(alloc, row.rest, answer);
        answer.require(self.shelf.add_text(name, bytes.as_slice()));
        answer.push_str("text");
    }

    /// `filled NAME COUNT TEXT`
    pub fn put_filled(&mut self, alloc: Global, row: &mut Row<'_>, answer: &mut Answer) {
        let (name, count) = (row.word(), row.usize().min(MOST_FILLED));
        let mut bytes = unescaped(alloc, row.rest, answer);
        fill(&mut bytes, count, answer);
        answer.require(self.shelf.add_text(name, bytes.as_slice()));
        answer.push_str("filled");
    }

    /// `wide NAME TEXT`
    pub fn put_wide(&mut self, alloc: Global, row: &mut Row<'_>, answer: &mut Answer) {
        let name = row.word();
        let bytes = wide(alloc, row.rest, answer);
        answer.require(self.shelf.add_text(name, bytes.as_slice()));
        answer.push_str("wide");
    }

    /// `fetch CALL`: that fetch fails.
    pub fn fail_fetch(&mut self, row: &mut Row<'_>, answer: &mut Answer) {
        answer.require(self.shelf.fail_at(row.u32()));
        answer.push_str("fetch");
    }

    /// `out CALL KEPT`: in the next call that put of the answer fails and keeps so many bytes.
    pub fn fail_out(&mut self, row: &mut Row<'_>, answer: &mut Answer) {
        answer.require(self.out.fail_at(row.u32(), row.u32()));
        answer.push_str("out");
    }

    /// `err CALL KEPT`: in the next call that put of the fault line fails and keeps so many bytes.
    pub fn fail_err(&mut self, row: &mut Row<'_>, answer: &mut Answer) {
        answer.require(self.err.fail_at(row.u32(), row.u32()));
        answer.push_str("err");
    }
}
