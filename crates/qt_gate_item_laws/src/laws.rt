//! The law of judged gates. The function does nothing: what it promises is the law.

ghost use Rattle.qt_gate_item_laws.specs.Laws.{JudgedGatesChangeNothing};

/// A gate that is judged and isn't refused leaves all names and numbers as they were.
pub fn kept()
    ensures { JudgedGatesChangeNothing }
{}
