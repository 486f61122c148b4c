//! Cases of the check of gates and of their calls as a program.
//!
//! It reads rows from the standard input, one a line, and prints the answer to each as one line. Right behind `:` stands the text of a
//! program of includes of the standard gates, declarations of qubits and constants, gates and gate calls, in which `\n`, `\r`, `\t`, `\0`
//! and `\\` are the characters that they are in Rust. A row `check: TEXT` is answered with `ok` where all is judged right, behind
//! which stands how many gates the text has, if any, and how many primitives the last one comes to; else with the line of the first refusal,
//! in which the text is called `p`. A row `gate: TEXT` asks for
//! the check of the last item, a gate, alone, behind the others: the answer is `ok P:Q:C`, its numbers of parameters, qubits and calls, and
//! how many names the program has then in all, or the line of the refusal. In the text of a row `check N PIECE: TEXT` or `gate N PIECE: TEXT`
//! each `?` stands for N pieces one behind the other, in which `#` is the number of the piece from 1 on and `$` the one before.
//! A line that is no such row is answered with `no row`.
//!
//! `gate_item_cases.py` writes the rows and the answers that are wanted.
#![tactic(auto)]

mod judging;
mod pieces;

use crate::judging::answer_text;
use crate::pieces::text_of;
use qt_rows::answer::Answer;
use qt_rows::cases::{Cases, answer_lines};
use qt_rows::row::Row;
use std::alloc::Global;
use std::io;
use std::process::ExitCode;

/// What answers the rows.
#[derive(Drop)]
struct GateItemCases;

impl Cases for GateItemCases {
    fn answer(&mut self, alloc: Global, row: &mut Row<'_>, answer: &mut Answer) {
        let mut head = Row::new(row.part(':'));
        let kind = head.word();
        let Some(text) = text_of(alloc, &mut head, row, answer) else {
            return;
        };
        match kind {
            "check" => answer_text(alloc, false, text.as_str(), row, answer),
            "gate" => answer_text(alloc, true, text.as_str(), row, answer),
            _ => row.refuse(),
        }
    }
}

fn main(rt: HostRuntime) -> io::Result<ExitCode> {
    answer_lines(rt.alloc(), &mut GateItemCases, rt.reader(), io::writer(&rt))
}
