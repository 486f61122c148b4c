//! Laws of expansions, for those who build on them.
//!
//! [`laws`] has that the primitives of an expansion are those of the call where the work cells hold what the steps give, that each step is
//! needed, that a call is refused for the first wrong angle that is known before the run. `specs/Laws.antt` states them. A run of the steps
//! makes such cells, or faults where an angle can't be reckoned: `specs/Running.antt`.
//!
//! `proofs/Tied.antt` has the angles of bodies, `proofs/Reading.antt` what references stand for, and `proofs/Expanding.antt` the calls, the
//! bodies and the gates by number. `proofs/Below.antt` and `proofs/Keeping.antt` have that each step rests on cells before its own, and
//! `proofs/Running.antt` and `proofs/Runs.antt` the runs.
#![tactic(auto)]

pub mod laws;
