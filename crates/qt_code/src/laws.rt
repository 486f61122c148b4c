//! Laws of what follows from an instruction of valid code, for those who build on it. The functions do nothing: what they promise is
//! the law.

ghost use Rattle.qt_instructions.specs.Equality.{EqualWhereTheyAreOne};
ghost use Rattle.qt_code.specs.Laws.{ConditionsDecide, JumpsGoOn, TicksSpend};

/// A jump is the same as what it goes to.
pub fn jumps()
    ensures { JumpsGoOn }
{}

/// A jump under a condition is the same as what it goes to, or as what stands behind it.
pub fn conditions()
    ensures { ConditionsDecide }
{}

/// A Tick spends a unit of fuel before what stands behind it.
pub fn ticks()
    ensures { TicksSpend }
{}

/// `==` says of two codes exactly whether they have the same parts.
pub fn equality()
    ensures { EqualWhereTheyAreOne }
{}
