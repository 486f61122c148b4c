//! What changes as statements are typed, one after the other, and what stands around them.

use crate::names::Names;
use qt_gate_calls::body::{GateBodies, GateBody};
use qt_typed::call::{Span, SubroutineCall};
use qt_typed::program::{TypedOutput, TypedSubroutine};
use qt_typed::statement::TypedStatement;
use qt_value::types::ValueType;
use sqlite_items::Items;

/// What the statements so far have left.
#[derive(Drop)]
pub struct State {
    /// What is in scope.
    pub names: Names,
    /// What the bodies of subroutines and gates see: the global constants, gates and subroutines. While such a body is typed, the names
    /// outside of it.
    pub inside: Names,
    /// The next free slot of the frame.
    pub slots: u32,
    /// How many qubits are declared.
    pub qubits: u64,
    /// The subroutines, in the order of text.
    pub subroutines: Items<TypedSubroutine>,
    /// The standard gates and the gates that are declared so far, by number.
    pub gates: Items<GateBody>,
    /// All gates of the program.
    pub all_gates: GateBodies,
    /// The inputs, in the order of text.
    pub inputs: Items<TypedOutput>,
    /// The variables that are declared as outputs.
    pub outputs: Items<TypedOutput>,
    /// The global variables, which are the outputs where none is declared.
    pub variables: Items<TypedOutput>,
    /// The tokens of the declarations that are counted and don't run: those of qubits and outputs.
    pub tokens: u64,
    /// Whether the standard gates are included.
    pub included: bool,
}

/// What a `return` may give.
#[derive(Clone, Copy)]
pub enum Returns {
    /// It stands in no subroutine.
    Nowhere,
    /// The subroutine has no result.
    Nothing,
    /// A result of that type.
    Value { kind: ValueType },
}

/// What stands around a statement.
#[derive(Clone, Copy)]
pub struct Around {
    pub in_loop: bool,
    pub returns: Returns,
}

/// The statements of a body, and its slots.
#[derive(Drop)]
pub struct Body {
    pub statements: Items<TypedStatement>,
    pub slots: Span,
}

/// A call of a subroutine, and the type of its result.
#[derive(Drop)]
pub struct Called {
    pub call: SubroutineCall,
    pub result: Option<ValueType>,
}
