//! The angles in a gate's body.

use crate::whole::Whole;
use qt_phase::phase::Phase;
use sqlite_items::Boxed;

/// An angle in a gate's body: a phase, a parameter of the gate by its number, or an operator on such angles. Whole numbers beside a phase
/// are constant there. OpenQASM 3.0, "Gates", hierarchically defined unitary gates.
#[derive(Drop)]
pub enum Angle {
    Units {
        units: Phase,
    },
    Parameter {
        number: u32,
    },
    Sum {
        left: Boxed<Angle>,
        right: Boxed<Angle>,
    },
    Difference {
        left: Boxed<Angle>,
        right: Boxed<Angle>,
    },
    Opposite {
        angle: Boxed<Angle>,
    },
    Product {
        angle: Boxed<Angle>,
        factor: Whole,
    },
    Quotient {
        angle: Boxed<Angle>,
        divisor: Whole,
    },
}
