//! Programs of the first form: a few gates and measurements on at most four qubits, in a fixed layout.
//!
//! A `Program` is two sizes of registers and a list of `Statement`s; its model is that list and those numbers. Its text
//! and its limits are defined in specs/Form.antt: `IsFirstFormText program text` says that the text is that of the program, byte
//! for byte, and that the program is within the limits.
//! `read` is exact both ways: it answers the program whose text it was given, and `None` where the text is that of no
//! program. So no text has two readings (`one_reading`), and none that is read is long (`short`).
//! The crates that run programs build on `Program`, and the host reads by `read` each text that it fetched.
#![tactic(auto)]

pub mod laws;
pub mod program;
pub mod read;
