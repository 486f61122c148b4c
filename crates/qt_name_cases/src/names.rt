//! Rows of names.

use crate::named::named_in;
use crate::shown::{show, show_given};
use qt_names::scopes::Scopes;
use qt_names::tables::Tables;
use qt_rows::answer::Answer;
use qt_rows::row::Row;
use qt_tree::place::Place;
use std::alloc::Global;

/// The table that a row names. Where it names none the row is refused.
pub fn table_in<'t>(tables: &'t mut Tables, row: &mut Row<'_>) -> Option<&'t mut Scopes> {
    match row.word() {
        "outside" => Some(&mut tables.outside),
        "inside" => Some(&mut tables.inside),
        _ => {
            row.refuse();
            None
        }
    }
}

/// The beginning of a line of the main text.
fn place_in(row: &mut Row<'_>) -> Place {
    Place {
        file: 0,
        line: row.u32(),
        column: 1,
    }
}

/// `new`
pub fn new(alloc: Global, tables: &mut Tables, answer: &mut Answer) {
    *tables = Tables::new(alloc);
    answer.push_str("ok");
}

/// `enter TABLE`
pub fn enter(tables: &mut Tables, row: &mut Row<'_>, answer: &mut Answer) {
    if let Some(table) = table_in(tables, row) {
        answer.require(table.enter());
        answer.push_str("ok");
    }
}

/// `leave TABLE`
pub fn leave(tables: &mut Tables, row: &mut Row<'_>, answer: &mut Answer) {
    if let Some(table) = table_in(tables, row) {
        table.leave();
        answer.push_str("ok");
    }
}

/// `declare TABLE NAME LINE NAMED`
pub fn declare(alloc: Global, tables: &mut Tables, row: &mut Row<'_>, answer: &mut Answer) {
    let Some(table) = table_in(tables, row) else {
        return;
    };
    let (name, place) = (row.word(), place_in(row));
    let what = named_in(alloc, row, answer);
    if !row.refused {
        show_given(table.declare(name, what, place), answer);
    }
}

/// `global NAME LINE NAMED`
pub fn global(alloc: Global, tables: &mut Tables, row: &mut Row<'_>, answer: &mut Answer) {
    let (name, place) = (row.word(), place_in(row));
    let what = named_in(alloc, row, answer);
    if !row.refused {
        show_given(tables.declare(name, what, place), answer);
    }
}

/// `find TABLE NAME LINE`
pub fn find(tables: &mut Tables, row: &mut Row<'_>, answer: &mut Answer) {
    if let Some(table) = table_in(tables, row) {
        let (name, place) = (row.word(), place_in(row));
        show_given(table.find(name, place), answer);
    }
}

/// `known TABLE NAME`
pub fn known(tables: &mut Tables, row: &mut Row<'_>, answer: &mut Answer) {
    if let Some(table) = table_in(tables, row) {
        show(&table.known(row.word()), answer);
    }
}

/// `declares TABLE NAME`
pub fn declares(tables: &mut Tables, row: &mut Row<'_>, answer: &mut Answer) {
    if let Some(table) = table_in(tables, row) {
        show(&table.declares(row.word()), answer);
    }
}
