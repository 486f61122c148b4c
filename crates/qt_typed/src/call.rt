//! Typed qubits, gate calls and calls of subroutines.

use crate::expression::{TypedExpr, TypedPhase};
use qt_gate_calls::body::{Called, GateBodies, GateModifier};
use qt_registers::fixed::FixedQubit;
use qt_registers::register::Register;
use qt_tree::place::Place;
use sqlite_items::Items;

/// A single qubit.
#[derive(Drop)]
pub enum TypedQubit {
    /// One that is known before the run.
    Fixed {
        qubit: FixedQubit,
    },
    /// A subroutine's qubit parameter, whose number is kept in a slot.
    Slot {
        slot: u32,
    },
    /// The qubit of a register at an index of the run.
    Indexed {
        register: Register,
        index: TypedExpr,
    },
}

/// A single qubit, or the qubits of a register in order.
#[derive(Drop)]
pub enum TypedQubits {
    Single { qubit: TypedQubit },
    Register { qubits: Register },
}

/// A gate with its modifiers, the outermost first, and its arguments. OpenQASM 3.0, "Gates", applying gates.
#[derive(Drop)]
pub struct GateUse {
    pub gates: GateBodies,
    pub modifiers: Items<GateModifier>,
    pub gate: Called,
    pub arguments: Items<TypedPhase>,
}

/// One gate call on single qubits, those of the controls first. `place` is that of its statement.
#[derive(Drop)]
pub struct TypedCall {
    pub place: Place,
    pub used: GateUse,
    pub operands: Items<TypedQubit>,
}

/// A gate call on registers of one size and single qubits: one call for each place of the registers, in ascending order, in which the
/// single qubits repeat.
#[derive(Drop)]
pub struct Broadcast {
    pub place: Place,
    pub used: GateUse,
    pub operands: Items<TypedQubits>,
    pub size: u32,
}

/// So many slots, from the first on.
#[derive(Clone, Copy)]
pub struct Span {
    pub first: u32,
    pub count: u32,
}

/// A call of a subroutine by its number in the order of text. Its frame is a span of the frame that the call stands in. The values and the
/// qubits stand in the order of the parameters that take them. OpenQASM 3.0, "Subroutines".
#[derive(Drop)]
pub struct SubroutineCall {
    pub subroutine: u32,
    pub frame: Span,
    pub values: Items<TypedExpr>,
    pub qubits: Items<TypedQubits>,
}
