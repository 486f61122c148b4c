//! Typed subroutines and programs.

ghost use Rattle.std.specs.Prelude.{◌≡◌};

use crate::statement::TypedStatement;
use qt_gate_calls::body::GateBodies;
use qt_tree::label::Label;
use qt_tree::lengths::Lengths;
use qt_tree::place::Place;
use qt_value::types::ValueType;
use sqlite_items::Items;

/// A parameter of a subroutine and its slot. The slot of a single qubit keeps its number; that of a register keeps 0, since its qubits are
/// known where the subroutine is put in.
#[derive(Clone, Copy)]
pub enum TypedParameter {
    Value { kind: ValueType, slot: u32 },
    Qubit { slot: u32 },
    Register { slot: u32, size: u32 },
}

/// A subroutine. Its result has the first slot of its frame, where it has one; then come its parameters and its body. `slots` is the number
/// of slots of its frame, with those of the calls in it. OpenQASM 3.0, "Subroutines".
#[derive(Drop)]
pub struct TypedSubroutine {
    pub parameters: Items<TypedParameter>,
    pub result: Option<ValueType>,
    pub body: Items<TypedStatement>,
    pub slots: u32,
}

/// A variable whose value is told at the end, with the first of its slots; `lengths` are those of an array. OpenQASM 3.0, "Input/output".
#[derive(Drop)]
pub struct TypedOutput {
    pub name: Label,
    pub kind: ValueType,
    pub slot: u32,
    pub lengths: Lengths,
}

/// The value of an input before the first statement.
#[derive(Clone, Copy)]
pub struct StartValue {
    pub slot: u32,
    pub bits: u64,
}

/// A program. `size` counts its tokens, primitives and operators; `end` is the place behind the last character of its main text.
#[derive(Drop)]
pub struct Typed {
    pub qubits: u32,
    pub slots: u32,
    pub size: u64,
    pub gates: GateBodies,
    pub subroutines: Items<TypedSubroutine>,
    pub body: Items<TypedStatement>,
    pub outputs: Items<TypedOutput>,
    pub start: Items<StartValue>,
    pub end: Place,
}

impl Typed {
    /// How many qubits it has.
    pub fn qubits(&self) -> u32
        ensures { result ≡ self.now.qubits }
    {
        self.qubits
    }

    /// How many slots it has.
    pub fn slots(&self) -> u32
        ensures { result ≡ self.now.slots }
    {
        self.slots
    }

    /// Its size.
    pub fn size(&self) -> u64
        ensures { result ≡ self.now.size }
    {
        self.size
    }
}
