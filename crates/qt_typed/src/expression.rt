//! Typed expressions, phases and targets.

use qt_phase::phase::Phase;
use qt_tree::lengths::Lengths;
use qt_value::operators::{Op, UnaryOp};
use qt_value::types::ValueType;
use qt_value::value::Value;
use sqlite_items::{Boxed, Items};

/// `&&` and `||`, whose right side isn't evaluated where the left one decides.
#[derive(Clone, Copy)]
pub enum Logical {
    And,
    Or,
}

/// An expression whose value has a type. OpenQASM 3.0, "Classical instructions" and "Types and Casting".
#[derive(Drop)]
pub enum TypedExpr {
    /// A literal, or the value of a constant.
    Constant {
        value: Value,
    },
    /// The value of a scalar variable, which may be a bit register.
    Slot {
        kind: ValueType,
        slot: u32,
    },
    /// The element of an array whose first element has that slot, by one index for each dimension.
    Element {
        kind: ValueType,
        slot: u32,
        lengths: Lengths,
        indexes: Items<TypedExpr>,
    },
    /// The bit of a value at an index, place 0 the lowest.
    Bit {
        of: Boxed<TypedExpr>,
        index: Boxed<TypedExpr>,
    },
    /// So many bits of a bit register, of which place i is place `start + i · step`.
    Slice {
        of: Boxed<TypedExpr>,
        start: u8,
        step: u8,
        count: u8,
    },
    /// A conversion, written as a cast or not.
    Convert {
        to: ValueType,
        operand: Boxed<TypedExpr>,
    },
    Unary {
        operator: UnaryOp,
        operand: Boxed<TypedExpr>,
    },
    /// An operator between two values; also `rotl` and `rotr`.
    Binary {
        operator: Op,
        left: Boxed<TypedExpr>,
        right: Boxed<TypedExpr>,
    },
    /// A division of whole numbers inside a phase, which may leave no rest.
    ExactQuotient {
        left: Boxed<TypedExpr>,
        right: Boxed<TypedExpr>,
    },
    /// Both operands are bools.
    Logical {
        operator: Logical,
        left: Boxed<TypedExpr>,
        right: Boxed<TypedExpr>,
    },
}

/// A phase, as an argument of a gate. Its parts stand in the order in which they are reckoned. OpenQASM 3.0, "Types and Casting", angles.
#[derive(Drop)]
pub enum TypedPhase {
    /// Constant as a whole.
    Fixed {
        phase: Phase,
    },
    /// The phase of an angle of n bits with the number c: c · 2^(33 − n) units.
    Angle {
        operand: TypedExpr,
    },
    Neg {
        operand: Boxed<TypedPhase>,
    },
    Add {
        left: Boxed<TypedPhase>,
        right: Boxed<TypedPhase>,
    },
    Sub {
        left: Boxed<TypedPhase>,
        right: Boxed<TypedPhase>,
    },
    /// A phase times a whole number.
    Times {
        phase: Boxed<TypedPhase>,
        number: TypedExpr,
    },
    /// A whole number times a phase.
    Scaled {
        number: TypedExpr,
        phase: Boxed<TypedPhase>,
    },
    /// A phase over a whole number.
    Over {
        phase: Boxed<TypedPhase>,
        number: TypedExpr,
    },
}

/// A step from a value to bits of it.
#[derive(Drop)]
pub enum TypedStep {
    /// The bit at an index.
    At { index: TypedExpr },
    /// So many bits, of which place i is place `start + i · step`.
    Slice { start: u8, step: u8, count: u8 },
}

/// A scalar variable, or an element of an array.
#[derive(Drop)]
pub enum TypedVariable {
    Slot {
        kind: ValueType,
        slot: u32,
    },
    Element {
        kind: ValueType,
        slot: u32,
        lengths: Lengths,
        indexes: Items<TypedExpr>,
    },
}

/// What is assigned to: a variable, and the steps to the bits of it. `kind` is the type of what is stored there.
#[derive(Drop)]
pub struct TypedTarget {
    pub variable: TypedVariable,
    pub steps: Items<TypedStep>,
    pub kind: ValueType,
}
