//! Instructions.

ghost use Rattle.std.specs.Prelude.{◌≡◌};
ghost use Rattle.std.specs.Cmp.{partial_equiv_from_equiv};
ghost use Rattle.std.specs.Cmp.Lexicographic.{lists_equiv, pointwise};
ghost use Rattle.qt_instructions.specs.contracts.instruction.InstrEq.TheImpl.Laws as instructions;
ghost use Rattle.qt_instructions.specs.contracts.instruction.InstrPartialEq.TheImpl as instruction;

use crate::angle::AngleOperation;
use crate::primitive::Primitive;
use crate::reference::{QubitRef, Qubits, Refs};
use qt_value::operators::{Op, UnaryOp};
use qt_value::types::ValueType;
use std::marker::Model;

/// A value in a work cell, with the type that it is read as: as many of the lowest bits of the cell as the type has.
#[derive(Clone, Copy, PartialEq, Eq)]
pub struct Operand {
    pub cell: u32,
    pub kind: ValueType,
}

/// An operator on values in work cells.
#[derive(Clone, Copy, PartialEq, Eq)]
pub enum Operation {
    Unary {
        operator: UnaryOp,
        of: Operand,
    },
    Binary {
        operator: Op,
        left: Operand,
        right: Operand,
    },
}

/// Where an outcome goes: nowhere, or to the bit of a slot, whose place is fixed or in a work cell.
#[derive(Clone, Copy, PartialEq, Eq)]
pub enum Store {
    Nowhere,
    Bit { slot: u32, place: u8 },
    BitAt { slot: u32, cell: u32 },
}

/// An instruction. `cell` is the work cell that it writes, where nothing else is said, and `first` and `count` are so many slots from the
/// first on.
#[derive(Drop, PartialEq, Eq)]
pub enum Instr {
    /// Spends one unit of fuel.
    Tick,
    /// A constant to a cell.
    Load {
        cell: u32,
        bits: u64,
    },
    /// A slot to a cell.
    Get {
        cell: u32,
        slot: u32,
    },
    /// A cell to a slot.
    Put {
        slot: u32,
        cell: u32,
    },
    /// One of the slots, by an index, to a cell.
    GetAt {
        cell: u32,
        first: u32,
        count: u32,
        index: Operand,
    },
    /// A cell to one of the slots, by an index.
    PutAt {
        first: u32,
        count: u32,
        index: Operand,
        cell: u32,
    },
    /// One bit of a value, by an index, to a cell.
    BitGet {
        cell: u32,
        of: Operand,
        index: Operand,
    },
    /// The lowest bit of a cell to one bit of a value, by an index; the value's other bits stay.
    BitPut {
        of: Operand,
        index: Operand,
        bit: u32,
    },
    /// The result of an operator to a cell.
    Apply {
        cell: u32,
        operation: Operation,
    },
    /// A value converted to a type.
    Cast {
        cell: u32,
        from: Operand,
        to: ValueType,
    },
    /// The number of turns of a range.
    Turns {
        cell: u32,
        first: Operand,
        step: Operand,
        last: Operand,
    },
    /// A phase.
    AngleOp {
        cell: u32,
        operation: AngleOperation,
    },
    /// The number of the qubit that an index gives among some qubits.
    Qubit {
        cell: u32,
        qubits: Qubits,
        index: Operand,
    },
    /// Tests that the references are to different qubits.
    Distinct {
        qubits: Refs,
    },
    /// Applies a primitive.
    Gate {
        primitive: Primitive,
    },
    /// A choice: both outcomes of a qubit.
    Measure {
        qubit: QubitRef,
        store: Store,
    },
    /// A choice whose outcome is forgotten: the qubit is turned where it was 1.
    Reset {
        qubit: QubitRef,
    },
    /// Goes on at the instruction with that number.
    Jump {
        to: u32,
    },
    /// Goes on there where a cell holds true.
    JumpIf {
        condition: u32,
        to: u32,
    },
    /// The end of the program.
    End,
}

impl Instr {
    ghost use Rattle.qt_instructions.specs.Targets.{stops, target_of};

    /// Nothing follows it directly: it is an end or a jump.
    pub fn stops(&self) -> bool
        ensures { result ≡ stops self.now }
    {
        matches!(self, Instr::Jump { .. } | Instr::End)
    }

    /// The number of the instruction that it jumps to, always or under a condition.
    pub fn target(&self) -> Option<u32>
        ensures { result ≡ target_of self.now }
    {
        match self {
            Instr::Jump { to } => Some(*to),
            Instr::JumpIf { to, .. } => Some(*to),
            _ => None,
        }
    }
}

/// A list of instructions.
#[derive(Drop)]
pub struct Instrs {
    instructions: Vec<Instr>,
}

impl Model for Instrs {
    ghost use Rattle.std.specs.Prelude.{List};
    ghost use Rattle.qt_instructions.specs.declared.instruction.Instr.{Instr};

    ghost Value = { List Instr };

    ghost view = { λ instrs. instrs.instructions.items };
}

impl PartialEq for Instrs {
    ghost eq = { pointwise (instruction.ghosts).eq };

    ghost laws = { partial_equiv_from_equiv (lists_equiv instructions.laws-law) };

    fn eq(&self, other: &Instrs) -> bool {
        self.instructions == other.instructions
    }
}

impl Eq for Instrs {
    ghost laws = { lists_equiv instructions.laws-law };
}

impl Instrs {
    /// Takes the list over.
    pub fn from_vec(instructions: Vec<Instr>) -> Instrs
        ensures { result ≡ instructions.items }
    {
        Instrs { instructions }
    }

    /// The instructions, in order.
    pub fn items(&self) -> &[Instr]
        ensures { result.now ≡ self.now }
    {
        self.instructions.as_slice()
    }
}
