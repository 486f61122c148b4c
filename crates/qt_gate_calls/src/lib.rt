//! Gate calls: their modifiers, what they call, the angles and bodies of gates; and what a call means.
//!
//! A [`body::GateBody`] is the list of its calls, each of U, `gphase` or a gate declared before it. [`body::GateBodies`] are the bodies
//! of a program, the standard gates first, which many calls share. `specs/Matrices.antt` gives the matrix of a call, on the call's own
//! qubits, and `specs/Primitives.antt` the list of primitives that it comes to; `specs/Faults.antt` says which angles a run can't apply.
//! The bodies of a program have what each gate comes to ([`counts`]), so that a call is counted by one look (`specs/Stopped.antt`).
//! An angle is known as its units or not at all (`specs/Units.antt`), so the same definitions serve a run, which knows all arguments,
//! and a check before the run, which knows the constant ones. `specs/Standard.antt` is the table of standard gates.
//!
//! The typed tree holds such calls, and the meaning of programs applies their matrices.
#![tactic(auto)]

pub mod angle;
pub mod body;
pub mod counts;
pub mod whole;
