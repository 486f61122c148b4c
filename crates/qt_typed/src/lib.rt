//! The typed tree of a program: names resolved, types and conversions written out, variables by their slots and qubits by their numbers.
//!
//! [`program::Typed`] is a whole program. A slot is counted from the beginning of its frame: that of the program, or of the subroutine. Each
//! conversion is a node of its own, each body knows the slots that become 0 at its end, each loop those that it keeps, and each call of a
//! subroutine its frame. Registers and aliases stand as the qubits that they have, whose numbers are known before the run. Statements that do
//! nothing when they run, as a constant's declaration, aren't in the tree. There are three forms of statements with bodies or without:
//! an action, a branch and a loop, so each definition by cases on statements has three lines.
//!
//! The check of a program makes this tree; its meaning and its flat code are said of it. `specs/Choices.antt` and `specs/Size.antt` count what
//! stands in it.
#![tactic(auto)]

pub mod call;
pub mod expression;
pub mod program;
pub mod statement;
