//! Typed statements.

use crate::call::{Broadcast, Span, SubroutineCall, TypedCall, TypedQubits};
use crate::expression::{TypedExpr, TypedTarget};
use qt_tree::place::Place;
use qt_value::operators::Op;
use qt_value::types::ValueType;
use sqlite_items::Items;

/// What is stored: a value of the target's type, the outcomes of a measurement, or the result of a subroutine, which is converted from its
/// type to the type `to`.
#[derive(Drop)]
pub enum TypedRight {
    Value {
        value: TypedExpr,
    },
    Measure {
        qubits: TypedQubits,
    },
    Call {
        call: SubroutineCall,
        result: ValueType,
        to: ValueType,
    },
}

/// What a `for` goes over. It keeps its values in the slots behind its variable's. OpenQASM 3.0, "Classical instructions", for loops.
#[derive(Drop)]
pub enum TypedSequence {
    /// Keeps the next value, the step and the turns left.
    Range {
        first: TypedExpr,
        step: Option<TypedExpr>,
        last: TypedExpr,
    },
    /// Keeps the members and the position.
    Set {
        members: Items<TypedExpr>,
    },
    /// Keeps the elements of an array of one dimension and the position.
    Array {
        kind: ValueType,
        slot: u32,
        length: u32,
    },
    /// Keeps the value of a bit register and the position, which begins at the lowest place.
    Bits {
        width: u8,
        value: TypedExpr,
    },
}

/// What a loop does: its body while a condition holds, or once for each value, which its variable has in that turn.
#[derive(Drop)]
pub enum TypedLoop {
    While {
        condition: TypedExpr,
    },
    /// The variable has the first slot of the loop, and behind it stands what the loop keeps.
    For {
        kind: ValueType,
        values: TypedSequence,
    },
}

/// The place of a statement's first token, and the number of its tokens without those of its bodies.
#[derive(Clone, Copy)]
pub struct Spot {
    pub place: Place,
    pub tokens: u32,
}

/// The statements without a body that do something when they run.
#[derive(Drop)]
pub enum TypedAction {
    /// A scalar variable or a bit register, which is 0 where no value is given.
    Declare {
        kind: ValueType,
        slot: u32,
        value: Option<TypedRight>,
    },
    /// An array of so many elements in all, by its elements in ascending order of their indexes; they are 0 where no values are given.
    DeclareArray {
        kind: ValueType,
        slot: u32,
        count: u32,
        values: Option<Items<TypedExpr>>,
    },
    Assign {
        target: TypedTarget,
        value: TypedRight,
    },
    /// A compound assignment, whose result is converted to the target's type.
    Update {
        target: TypedTarget,
        operator: Op,
        value: TypedExpr,
    },
    /// A measurement; where there is no target, the outcome is dropped.
    Measure {
        qubits: TypedQubits,
        target: Option<TypedTarget>,
    },
    Reset {
        qubits: TypedQubits,
    },
    Barrier,
    Gate {
        call: TypedCall,
    },
    Broadcast {
        call: Broadcast,
    },
    Call {
        call: SubroutineCall,
    },
    Break,
    Continue,
    /// The end of a subroutine, with its result.
    Return {
        value: Option<TypedRight>,
    },
    End,
}

/// A statement: an action, a branch or a loop. A body's span has the slots that become 0 at its end, a loop's span those of its variable and
/// of what it keeps.
#[derive(Drop)]
pub enum TypedStatement {
    Simple {
        at: Spot,
        action: TypedAction,
    },
    If {
        at: Spot,
        condition: TypedExpr,
        body: Items<TypedStatement>,
        body_slots: Span,
        otherwise: Items<TypedStatement>,
        otherwise_slots: Span,
    },
    Loop {
        at: Spot,
        over: TypedLoop,
        loop_slots: Span,
        body: Items<TypedStatement>,
        body_slots: Span,
    },
}
