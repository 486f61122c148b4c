//! Phases in rows.

use qt_phase::phase::Phase;
use qt_rows::row::Row;

/// The phase of so many units.
pub fn phase_in(row: &mut Row<'_>) -> Phase {
    match Phase::from_units(row.i64()) {
        Ok(phase) => phase,
        Err(_) => {
            row.refuse();
            Phase::zero()
        }
    }
}
