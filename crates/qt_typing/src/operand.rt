//! Expressions that are typed.

use qt_typed::expression::{TypedExpr, TypedPhase};
use qt_value::types::ValueType;
use sqlite_items::Boxed;

/// An expression that is typed.
#[derive(Drop)]
pub enum Operand {
    /// One whose value has a type.
    Value {
        kind: ValueType,
        form: Boxed<TypedExpr>,
    },
    /// A phase, which isn't reckoned yet.
    Phase {
        form: Boxed<TypedPhase>,
    },
}

/// What stands beside an operand, its type, and the type of the operator's result: a value, a phase as an angle, or 0.
#[derive(Drop)]
pub struct Beside {
    pub kind: ValueType,
    pub form: Boxed<TypedExpr>,
    pub result: ValueType,
}
