//! What expressions came to.

use qt_value::types::ValueType;

/// Where the next instruction stands behind the code of an expression, and the type of its value.
#[derive(Clone, Copy)]
pub struct Coded {
    pub behind: u32,
    pub kind: ValueType,
}

/// Where the next instruction stands behind the code of two expressions, and the types of their values.
#[derive(Clone, Copy)]
pub struct BothCoded {
    pub behind: u32,
    pub left: ValueType,
    pub right: ValueType,
}

/// The place i of some bits is place `start + i · step` of a value.
#[derive(Clone, Copy)]
pub struct Spread {
    pub start: u8,
    pub step: u8,
}
