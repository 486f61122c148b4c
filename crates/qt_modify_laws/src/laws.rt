//! The laws. The function does nothing: what it promises are the laws.
ghost use Rattle.qt_modify_laws.specs.Laws.{ExpansionsArePrimitives, ExpansionsHaveTheirCount};
ghost use Rattle.qt_modify_laws.specs.Laws.{StepsAreNeeded, FixedAnglesAreKnown, RefusalIsFirstWrong};
ghost use Rattle.qt_modify_laws.specs.Running.{RunsHold, RunsFault, RunsGivePrimitives};

/// Where the work cells hold what the steps of an expansion give, its primitives are those of the call; where each angle of them is known,
/// no step faults. What is fixed is what is known before the run, and a call is refused for the first such angle that is no multiple of
/// π/4. There are as many primitives as are counted.
pub fn expansions()
    ensures primitives { ExpansionsArePrimitives }
    ensures steps { StepsAreNeeded }
    ensures fixed { FixedAnglesAreKnown }
    ensures refusal { RefusalIsFirstWrong }
    ensures count { ExpansionsHaveTheirCount }
{}

/// The steps of an expansion, run one after another from any cells, make cells that hold what they give, in which the primitives are those
/// of the call; or the run faults, exactly where an angle of these primitives can't be reckoned: where a division leaves a rest or a bound
/// is passed.
pub fn steps()
    ensures cells { RunsHold }
    ensures faults { RunsFault }
    ensures primitives { RunsGivePrimitives }
{}
