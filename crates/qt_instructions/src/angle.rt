//! Arithmetic of phases on work cells.

use crate::instruction::Operand;

/// A phase: its units of π/2^32, or the work cell that holds them.
#[derive(Clone, Copy, PartialEq, Eq)]
pub enum AngleArg {
    Units(i64),
    Work(u32),
}

/// One operator of phase arithmetic, whose whole numbers are known.
#[derive(Clone, Copy, PartialEq, Eq)]
pub enum AngleStep {
    Add(AngleArg, AngleArg),
    Sub(AngleArg, AngleArg),
    Neg(AngleArg),
    Times(AngleArg, i128),
    Over(AngleArg, i128),
}

/// What is reckoned into a work cell as a phase.
#[derive(Clone, Copy, PartialEq, Eq)]
pub enum AngleOperation {
    Step { step: AngleStep },
    /// The phase of a value of an angle type: of n bits with the number c, it is c · 2^(33 − n) units.
    OfAngle { value: Operand },
    /// A phase times a whole number of the run.
    Product { angle: AngleArg, factor: Operand },
    /// A phase over a whole number of the run.
    Quotient { angle: AngleArg, divisor: Operand },
    /// 0 where the value is 0, and a fault else: the test that a division of whole numbers inside a phase left no rest.
    NoRest { value: Operand },
}
