//! Cases of the top call as a program, over the fakes of `qt_outside`.
//!
//! It reads rows from the standard input, one a line, and prints the answer to each as one line. A row is a call: `new` for a shelf
//! without texts; `text NAME TEXT`, `filled NAME COUNT TEXT` and `wide NAME TEXT` put a text on the shelf, the second with line feeds
//! behind it up to so many bytes, the third with comments between its tokens; `fetch CALL`, `out CALL KEPT` and `err CALL KEPT`
//! list a call that is to fail; `host WORD..` is the top call, and `format NAME` the canonical text alone. A call of `host` is
//! answered with the status, the fetches and puts that it made, and what the sinks hold; each has sinks of its own.
//!
//! `rows.py` writes the rows, and the answers that are wanted.
#![tactic(auto)]

mod calls;
mod escapes;
mod stage;
mod wide;

use crate::stage::Stage;
use qt_rows::answer::Answer;
use qt_rows::cases::{Cases, answer_lines};
use qt_rows::row::Row;
use std::alloc::Global;
use std::io;
use std::process::ExitCode;

impl Cases for Stage {
    fn answer(&mut self, alloc: Global, row: &mut Row<'_>, answer: &mut Answer) {
        match row.word() {
            "new" => self.clear(alloc, answer),
            "text" => self.put_text(alloc, row, answer),
            "filled" => self.put_filled(alloc, row, answer),
            "wide" => self.put_wide(alloc, row, answer),
            "fetch" => self.fail_fetch(row, answer),
            "out" => self.fail_out(row, answer),
            "err" => self.fail_err(row, answer),
            "host" => calls::host(alloc, row.rest, self, answer),
            "format" => calls::format(alloc, row.rest, self, answer),
            _ => row.refuse(),
        }
    }
}

fn main(rt: HostRuntime) -> io::Result<ExitCode> {
    let alloc = rt.alloc();
    answer_lines(alloc, &mut Stage::new(alloc), rt.reader(), io::writer(&rt))
}
