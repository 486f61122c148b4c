//! Angles that the profile refuses.

use qt_tree::place::Place;

/// A fixed angle that is no multiple of π/4: the place of the gate call in the text of the program or of a subroutine, and the exact units
/// of π/2^32.
#[derive(Clone, Copy)]
pub struct WrongAngle {
    pub place: Place,
    pub units: i64,
}
