//! The flat code of a program, as definitions. No code makes it yet.
//!
//! `specs/Lengths.antt` and `specs/Expressions.antt` say how many instructions an expression has and which, `specs/Bits.antt` and
//! `specs/Storing.antt` how values go to variables and bits of them, and `specs/Measuring.antt` what measurements and resets become. The value
//! of an expression comes to a work cell; cells behind it are used on the way, and those before it stay as they are. `specs/Phases.antt` has
//! the code of the arguments of gates, and `specs/GateCalls.antt` that of gate calls and broadcasts. `specs/Loops.antt` has what loops go over,
//! `specs/Statements.antt` all statements with their lengths, and the calls of subroutines, which are put in place. `specs/Programs.antt` has
//! the parts of a whole program, with the work cells of `specs/CellsUsed.antt`, and `specs/Flattening.antt` what flattening answers.
//!
//! `proofs/examples` works small programs out: their code, that it is valid, and that its leaves are those of the meaning;
//! `proofs/GateCallExamples.antt` a gate call with its faults, and a broadcast.
#![tactic(auto)]
