//! The meaning of programs: the definitions that everything else is measured by.
//!
//! `specs/Expressions.antt` says what an expression comes to, a value or the first fault. `specs/Points.antt` has the words of a run: from a
//! point, which is the variables, the state, the fuel and what was done so far, a run goes to the list of the leaves that it ends in, in
//! order. `specs/Measuring.antt`, `specs/Applying.antt` and `specs/Loops.antt` say what measurements, gate calls and loops do, and
//! `specs/Statements.antt` what each statement does, by cases on the typed tree. `specs/Distribution.antt` sums the leaves: to each output
//! value its probability. `specs/Laws.antt` states what a reader expects of these definitions, some of it for the programs of
//! `specs/WellFormed.antt`; `qt_meaning_laws` proves it.
//! Nothing is scaled, merged or refused for its size here: a state is a whole vector, a gate call one matrix.
//!
//! `proofs/examples` computes small programs by these definitions. The flat code and the run are proved against them.
#![tactic(auto)]
