//! The edge towards the system: files as a shelf of texts, and a writer as a sink.
//!
//! `FileShelf` reads the files of the system by their paths and `WriterSink` puts pieces to a writer. Both count their faults, and
//! answer a fault only where its count rose. Where a writer tells what it holds, a piece that was put is what it grew by, and a piece that
//! was refused has grown it by a prefix (`Written`). A shelf of files tells no content, so nothing is proved of what a file holds. The
//! program brings the working folder and the standard streams; the cases of `qt_adapter_cases` files of their own.
#![tactic(auto)]

pub mod file_shelf;
pub mod writer_sink;
