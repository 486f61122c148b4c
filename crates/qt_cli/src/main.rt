//! The program `qtree`: the top call over the files of the working folder and the standard streams.
//!
//! The two adapters stand in `qt_adapters`. They tell no content, so nothing is proved of what a file or a stream really holds;
//! each counts its faults, and a fault is answered only where its count rose.
#![tactic(auto)]

use qt_adapters::file_shelf::FileShelf;
use qt_adapters::writer_sink::WriterSink;
use qt_host::host::host;
use qt_lines::tell::tell_want;
use std::io;
use std::process::ExitCode;

/// The words behind the program's name.
fn words(rt: &HostRuntime) -> io::Result<Vec<String>> {
    let mut words = Vec::new(rt.alloc());
    for word in std::env::args(rt)?.skip(1) {
        words.push(word)?;
    }
    Ok(words)
}

fn main(rt: HostRuntime) -> ExitCode {
    let (stdout, stderr) = (rt.stdout(), rt.stderr());
    let mut shelf = FileShelf::new(rt.alloc(), &rt);
    let mut out = WriterSink::new(io::writer(&stdout));
    let mut err = WriterSink::new(io::writer(&stderr));
    let words = match words(&rt) {
        Ok(words) => words,
        Err(error) if error.kind() == io::ErrorKind::OutOfMemory => {
            return ExitCode::from(tell_want(&mut err));
        }
        // Words that aren't UTF-8 are answered as words that ask for nothing that is served.
        Err(_) => Vec::new(rt.alloc()),
    };
    ExitCode::from(host(rt.alloc(), words.as_slice(), &mut shelf, &mut out, &mut err))
}
