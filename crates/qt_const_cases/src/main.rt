//! Cases of constants as a program over `qt_const`.
//!
//! It reads rows from the standard input, one a line, and prints the answer to each as one line. A row is a call:
//!
//! - `known NAME other`, `known NAME hidden`, `known NAME subroutine`, `known NAME phase UNITS`, `known NAME value TYPE WIDTH BITS` and
//!   `known NAME lengths LENGTH ..` add an entry of a name, and `cut LENGTH` keeps the first entries. The answer is the number of entries
//!   then. They stay from row to row.
//! - `value EXPRESSION` and `exponent EXPRESSION` are answered with the value or the refusal of an expression of the language, and
//!   `type CAST` with the type that a cast is written with.
//! - `angle WIDTH UNITS` is answered with a phase as an angle of that width, or its fault.
//!
//! A line that is no row is answered with `no row`.
//!
//! `constant_rows.py` has the rows and the answers that are wanted.
#![tactic(auto)]

mod entries;
mod phases;
mod values;

use qt_const::consts::Consts;
use qt_rows::answer::Answer;
use qt_rows::cases::{Cases, answer_lines};
use qt_rows::row::Row;
use std::alloc::Global;
use std::io;
use std::process::ExitCode;

/// The entries of names that stay from row to row.
#[derive(Drop)]
struct ConstCases {
    consts: Consts,
}

impl Cases for ConstCases {
    fn answer(&mut self, alloc: Global, row: &mut Row<'_>, answer: &mut Answer) {
        let consts = &mut self.consts;
        match row.word() {
            "known" => entries::known(alloc, row, consts, answer),
            "cut" => entries::cut(row, consts, answer),
            "value" => values::value(alloc, row.rest, consts, answer),
            "exponent" => values::exponent(alloc, row.rest, consts, answer),
            "type" => values::type_of_cast(alloc, row.rest, consts, answer),
            "angle" => values::angle(row, answer),
            _ => row.refuse(),
        }
    }
}

fn main(rt: HostRuntime) -> io::Result<ExitCode> {
    let alloc = rt.alloc();
    let mut cases = ConstCases {
        consts: Consts::new(alloc),
    };
    answer_lines(alloc, &mut cases, rt.reader(), io::writer(&rt))
}
