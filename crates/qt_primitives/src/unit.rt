//! Primitives while their angles are still in units.

use qt_instructions::reference::QubitRef;
use qt_phase::phase::Phase;
use sqlite_items::Items;

/// An argument of a gate: a phase that is fixed, or the work cell that holds it.
#[derive(Clone, Copy)]
pub enum Argument {
    Fixed { phase: Phase },
    Cell { cell: u32 },
}

/// An angle of a primitive: a phase that is fixed, or the work cell that holds it; the flag says negated.
#[derive(Clone, Copy)]
pub enum UnitAngle {
    Fixed { phase: Phase },
    Cell { cell: u32, negated: bool },
}

/// What a primitive does under its controls: U on one qubit, or gphase on none. OpenQASM 3.0, "Gates", built-in gates.
#[derive(Clone, Copy)]
pub enum Action {
    Turn {
        target: QubitRef,
        theta: UnitAngle,
        phi: UnitAngle,
        lambda: UnitAngle,
    },
    Phase {
        angle: UnitAngle,
    },
}

/// The controls of a primitive: the qubits that are to be 1 and those that are to be 0, the outermost first.
#[derive(Drop)]
pub struct Controls {
    pub ones: Items<QubitRef>,
    pub zeros: Items<QubitRef>,
}

/// A primitive whose fixed angles are phases.
#[derive(Drop)]
pub struct UnitPrimitive {
    pub controls: Controls,
    pub action: Action,
}
