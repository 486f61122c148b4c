//! Primitives on references.

use crate::reference::{AngleRef, QubitRef, Refs};

/// A primitive under controls, those that are to be 1 and those that are to be 0: U on one qubit, or gphase on none. OpenQASM 3.0, "Gates",
/// built-in gates.
#[derive(Drop, PartialEq, Eq)]
pub enum Primitive {
    Turn {
        ones: Refs,
        zeros: Refs,
        target: QubitRef,
        theta: AngleRef,
        phi: AngleRef,
        lambda: AngleRef,
    },
    Phase {
        ones: Refs,
        zeros: Refs,
        angle: AngleRef,
    },
}
