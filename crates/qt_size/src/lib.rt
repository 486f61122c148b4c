//! The size of a typed program: its tokens, the primitives of its gate calls and the operators that these put in, with the bodies of
//! subroutines in place of their calls.
//!
//! [`program::size_of`] is the definition of its name in `qt_typed`, up to 4,294,967,295. [`subroutines::subroutine_sizes`] counts each
//! subroutine once, over those before it, so that a call isn't followed into a body; [`statements`] has the recursion over bodies.
//!
//! No program calls it yet but the cases.
#![tactic(auto)]

pub mod actions;
pub mod program;
pub mod statements;
pub mod subroutines;
