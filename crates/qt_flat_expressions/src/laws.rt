//! The laws. The functions do nothing: what they promise is the law.

ghost use Rattle.qt_flat_expressions.specs.Laws.{ExpressionsLand};

/// Wherever the code of an expression stands, it brings the value that the expression means to its work cell, or ends in the fault that
/// the expression means.
pub fn expressions()
    ensures { ExpressionsLand }
{}
