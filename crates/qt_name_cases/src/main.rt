//! Cases of scopes of names and of registers of qubits, as a program.
//!
//! It reads rows from the standard input, one a line, and prints the answer to each as one line. A row is a call.
//!
//! Rows of names. `TABLE` is `outside` or `inside`. The tables stay from row to row.
//!
//! - `new`: two new tables. `enter TABLE` and `leave TABLE` open and close a scope.
//! - `declare TABLE NAME LINE NAMED` and `global NAME LINE NAMED` declare a name in a table, or a global one, at a line.
//!   `NAMED` is `KIND WIDTH LENGTH PLACES`: a width of 0 is no type, a length of 0 is no length, and `PLACES` is `nowhere`,
//!   `number NUMBER` or `qubits FIRST COUNT`.
//! - `find TABLE NAME LINE`, `known TABLE NAME` and `declares TABLE NAME`: what the calls answer.
//! - `many TABLE COUNT`: declares `n0`, `n1` .. as variables with these numbers, and tells how many are found again with their number.
//! - `nest TABLE COUNT NAME`: opens so many scopes and declares the name in each, and closes them again; tells how many were found before
//!   each closing with their number.
//!
//! Rows of registers. A register is written as parts with a comma between them, each `program FIRST COUNT` or `parameter NUMBER SIZE`.
//!
//! - `register PARTS`, `copied PARTS` and `stepped START STEP COUNT; PARTS`: the size of the register, and its qubits: all, or the first
//!   ten and the last.
//! - `at PLACE; PARTS`: the qubit at a place.
//! - `overlap START STEP COUNT; PARTS / START STEP COUNT; PARTS`: whether some qubit stands in both registers.
//!
//! A row that breaks a condition of its call is answered with `refused`, and a line that is no row with `no row`.
//!
//! `name_cases.py` writes the rows and, by lists of its own, the answers that are wanted.
#![tactic(auto)]

mod many;
mod named;
mod names;
mod registers;
mod shown;

use qt_names::tables::Tables;
use qt_rows::answer::Answer;
use qt_rows::cases::{Cases, answer_lines};
use qt_rows::row::Row;
use std::alloc::Global;
use std::io;
use std::process::ExitCode;

/// The tables that stay from row to row.
#[derive(Drop)]
struct NameCases {
    tables: Tables,
}

/// The answer of a call on a register.
fn answer_register(alloc: Global, call: &str, row: &mut Row<'_>, answer: &mut Answer) {
    match call {
        "register" => registers::register(alloc, row, answer),
        "copied" => registers::copied(alloc, row, answer),
        "stepped" => registers::stepped(alloc, row.rest, answer),
        "overlap" => registers::overlap(alloc, row.rest, answer),
        "at" => registers::at(alloc, row, answer),
        _ => row.refuse(),
    }
}

/// The answer of a call that asks a table, or of many names, or on a register.
fn answer_table(
    alloc: Global,
    call: &str,
    tables: &mut Tables,
    row: &mut Row<'_>,
    answer: &mut Answer,
) {
    match call {
        "find" => names::find(tables, row, answer),
        "known" => names::known(tables, row, answer),
        "declares" => names::declares(tables, row, answer),
        "many" => many::many(alloc, tables, row, answer),
        "nest" => many::nest(alloc, tables, row, answer),
        _ => answer_register(alloc, call, row, answer),
    }
}

impl Cases for NameCases {
    fn answer(&mut self, alloc: Global, row: &mut Row<'_>, answer: &mut Answer) {
        let tables = &mut self.tables;
        match row.word() {
            "new" => names::new(alloc, tables, answer),
            "enter" => names::enter(tables, row, answer),
            "leave" => names::leave(tables, row, answer),
            "declare" => names::declare(alloc, tables, row, answer),
            "global" => names::global(alloc, tables, row, answer),
            call => answer_table(alloc, call, tables, row, answer),
        }
    }
}

fn main(rt: HostRuntime) -> io::Result<ExitCode> {
    let alloc = rt.alloc();
    let mut cases = NameCases {
        tables: Tables::new(alloc),
    };
    answer_lines(alloc, &mut cases, rt.reader(), io::writer(&rt))
}
