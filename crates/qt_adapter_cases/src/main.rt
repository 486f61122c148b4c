//! Cases of the adapters over real files, as a program.
//!
//! It reads rows from the standard input, one a line, and prints the answer to each as one line. `fetch NAME MOST` is a fetch of a file
//! by a shelf that is new, answered with the number of bytes and the last of them; `put NAME PIECE ..` makes a file new and puts each
//! piece to a sink over it, answered with what each put did.
//!
//! `rows.py` writes the rows, the answers that are wanted, and the long file of `data/`.
#![tactic(auto)]

use qt_adapters::file_shelf::FileShelf;
use qt_adapters::writer_sink::WriterSink;
use qt_outside::faults::{FetchFault, PutFault};
use qt_outside::shelf::Shelf;
use qt_outside::sink::Sink;
use qt_rows::answer::Answer;
use qt_rows::cases::{Cases, answer_lines};
use qt_rows::row::Row;
use std::alloc::Global;
use std::process::ExitCode;
use std::rt::Files;
use std::{fs, io, str};

/// How many of the last bytes are told.
const TOLD: usize = 24;

/// The files of the folder in which the program runs.
#[derive(Drop)]
struct Folder<'a, R: Files> {
    files: &'a R,
}

/// How many bytes there are, and the last of them.
fn tell_end(bytes: &[u8], answer: &mut Answer) {
    let count = bytes.len();
    match str::from_utf8(&bytes[count.saturating_sub(TOLD)..]) {
        Ok(end) => write!(answer, "{count} {end:?}"),
        Err(_) => write!(answer, "{count}"),
    }
}

/// `fetch NAME MOST`
fn fetch<R: Files>(alloc: Global, files: &R, row: &mut Row<'_>, answer: &mut Answer) {
    let (name, most) = (row.word(), row.usize());
    let mut bytes = Vec::new(alloc);
    match FileShelf::new(alloc, files).fetch(name, most, &mut bytes) {
        Ok(()) => tell_end(bytes.as_slice(), answer),
        Err(FetchFault::Failed) => answer.push_str("failed"),
        Err(FetchFault::OutOfMemory) => answer.lose(),
    }
}

/// What a put did.
fn told(done: Result<(), PutFault>) -> &'static str {
    match done {
        Ok(()) => "put;",
        Err(PutFault::Failed) => "failed;",
        Err(PutFault::OutOfMemory) => "memory;",
    }
}

/// `put NAME PIECE ..`
fn put<R: Files>(files: &R, row: &mut Row<'_>, answer: &mut Answer) {
    let Ok(file) = fs::create(files, row.word()) else {
        answer.push_str("no file");
        return;
    };
    let mut sink = WriterSink::new(file);
    for piece in row.rest.split(' ') {
        answer.push_str(told(sink.put(piece.as_bytes())));
    }
}

impl<R: Files> Cases for Folder<'_, R> {
    fn answer(&mut self, alloc: Global, row: &mut Row<'_>, answer: &mut Answer) {
        match row.word() {
            "fetch" => fetch(alloc, self.files, row, answer),
            "put" => put(self.files, row, answer),
            _ => row.refuse(),
        }
    }
}

fn main(rt: HostRuntime) -> io::Result<ExitCode> {
    let alloc = rt.alloc();
    answer_lines(
        alloc,
        &mut Folder { files: &rt },
        rt.reader(),
        io::writer(&rt),
    )
}
