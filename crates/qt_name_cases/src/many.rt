//! Rows of many names, and of many scopes.

use crate::names::table_in;
use crate::shown::show_given;
use qt_names::named::{Named, Places, What};
use qt_names::scopes::Scopes;
use qt_names::tables::Tables;
use qt_rows::answer::Answer;
use qt_rows::row::Row;
use qt_tree::lengths::Lengths;
use qt_tree::place::Place;
use qt_tree::refusal::TextRefusal;
use std::alloc::Global;

/// The first place of the main text.
const BEGINNING: Place = Place {
    file: 0,
    line: 1,
    column: 1,
};

/// A variable in a slot.
fn variable(alloc: Global, number: u32) -> Named {
    Named {
        what: What::Variable,
        of: None,
        lengths: Lengths::from_vec(Vec::new(alloc)),
        places: Places::Number { number },
    }
}

/// Whether a name is found as the variable in a slot.
fn is_found(table: &Scopes, name: &str, slot: u32) -> bool {
    match table.known(name) {
        Some(
            Named {
                places: Places::Number { number },
                ..
            },
        ) => *number == slot,
        _ => false,
    }
}

/// Declares the names of so many variables.
fn declare_all(alloc: Global, table: &mut Scopes, count: u32) -> Result<(), TextRefusal> {
    for number in 0..count {
        let name = format!(in alloc; "n{number}")?;
        table.declare(name.as_str(), variable(alloc, number), BEGINNING)?;
    }
    Ok(())
}

/// How many of them are found.
fn count_found(alloc: Global, table: &Scopes, count: u32) -> Result<u32, TextRefusal> {
    let mut found = 0u32;
    for number in 0..count {
        let name = format!(in alloc; "n{number}")?;
        if is_found(table, name.as_str(), number) {
            found = found.saturating_add(1);
        }
    }
    Ok(found)
}

fn declare_and_count(alloc: Global, table: &mut Scopes, count: u32) -> Result<u32, TextRefusal> {
    declare_all(alloc, table, count)?;
    count_found(alloc, table, count)
}

/// `many TABLE COUNT`
pub fn many(alloc: Global, tables: &mut Tables, row: &mut Row<'_>, answer: &mut Answer) {
    if let Some(table) = table_in(tables, row) {
        show_given(declare_and_count(alloc, table, row.u32()), answer);
    }
}

/// Opens so many scopes, and declares the name in each.
fn open_all(alloc: Global, table: &mut Scopes, count: u32, name: &str) -> Result<(), TextRefusal> {
    for number in 0..count {
        table.enter()?;
        table.declare(name, variable(alloc, number), BEGINNING)?;
    }
    Ok(())
}

/// Closes so many scopes. How many of them had the name.
fn close_all(table: &mut Scopes, count: u32, name: &str) -> u32 {
    let mut found = 0u32;
    for number in (0..count).rev() {
        if is_found(table, name, number) {
            found = found.saturating_add(1);
        }
        table.leave();
    }
    found
}

fn open_and_close(
    alloc: Global,
    table: &mut Scopes,
    count: u32,
    name: &str,
) -> Result<u32, TextRefusal> {
    open_all(alloc, table, count, name)?;
    Ok(close_all(table, count, name))
}

/// `nest TABLE COUNT NAME`
pub fn nest(alloc: Global, tables: &mut Tables, row: &mut Row<'_>, answer: &mut Answer) {
    if let Some(table) = table_in(tables, row) {
        let (count, name) = (row.u32(), row.word());
        show_given(open_and_close(alloc, table, count, name), answer);
    }
}
