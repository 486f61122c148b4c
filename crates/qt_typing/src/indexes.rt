//! What indexes lead to.

use qt_tree::lengths::Lengths;
use qt_typed::expression::TypedStep;
use qt_value::types::ValueType;
use sqlite_items::{Boxed, Items};

/// Places of a register of bits or qubits: place i of them is place `start + i · step` of it.
#[derive(Clone, Copy)]
pub struct Slice {
    pub start: u64,
    pub step: u64,
    pub count: u64,
}

/// A step to bits of a value, and the type of what is there.
#[derive(Drop)]
pub struct Bits {
    pub step: Boxed<TypedStep>,
    pub kind: ValueType,
}

/// The steps from a value to bits of it, and the type of what is there.
#[derive(Drop)]
pub struct Steps {
    pub steps: Items<TypedStep>,
    pub kind: ValueType,
}

/// Where a variable is kept: its type, the lengths of an array's dimensions, and its first slot.
#[derive(Drop)]
pub struct Storage {
    pub kind: ValueType,
    pub lengths: Lengths,
    pub slot: u32,
}
