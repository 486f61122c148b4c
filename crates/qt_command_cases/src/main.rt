//! Cases of the words of the command line as a program.
//!
//! It reads rows from the standard input, one a line, and prints the answer to each as one line. A row is `words` and the words of a
//! command line, each behind one blank; or `many COUNT` and words, behind which stand so many settings, `s0=0`, `s1=1` and so on. In a word
//! `\s` is a blank, `\e` is nothing, `\n` a line feed and `\\` a `\`, so that `\e` alone is the empty word. The answer is the mode, the file,
//! the numbers of workers and of fuel, `text` or `json`, and the settings, each as `name value;`, all but their first and last four being left
//! out; or the line of the refusal.
//!
//! `command_cases.py` writes the rows, and the answers that are wanted.
#![tactic(auto)]

mod arguments;
mod escapes;
mod words;

use qt_rows::answer::Answer;
use qt_rows::cases::{Cases, answer_lines};
use qt_rows::row::Row;
use std::alloc::Global;
use std::io;
use std::process::ExitCode;

/// What answers the rows.
#[derive(Drop)]
struct CommandCases;

impl Cases for CommandCases {
    fn answer(&mut self, alloc: Global, row: &mut Row<'_>, answer: &mut Answer) {
        let count = match row.word() {
            "words" => 0,
            "many" => row.u32(),
            _ => {
                row.refuse();
                0
            }
        };
        let words = words::words_in(alloc, row.rest, count, answer);
        arguments::answer_words(alloc, words.as_slice(), answer);
    }
}

fn main(rt: HostRuntime) -> io::Result<ExitCode> {
    answer_lines(rt.alloc(), &mut CommandCases, rt.reader(), io::writer(&rt))
}
