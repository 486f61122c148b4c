//! The law of states over their least power of two. The function does nothing: what it promises is the law.
ghost use Rattle.qt_vector.specs.Laws.{SomeReduced, OneReduced};

/// Each state has exactly one reduced state.
pub fn reduced()
    ensures some { SomeReduced }
    ensures one { OneReduced }
{}
