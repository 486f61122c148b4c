//! Numbers in rows.

use qt_rows::row::Row;

/// The number that a text is, or 0 where it is none and the row is refused.
pub fn number_in(written: &str, row: &mut Row<'_>) -> u32 {
    match written.trim().parse::<u32>() {
        Ok(number) => number,
        Err(_) => {
            row.refuse();
            0
        }
    }
}
