//! The check of the heads of subroutines: their parameters, their results and their names.
//!
//! Each function here is one definition of `qt_typing`, of the same name: it answers what that finds, or its refusal, or want of memory.
//! [`parameters::parameters_of`] declares the parameters, each with a slot of its own; [`results::result_type_at`] is the type of the
//! result, and [`results::around_body`] what it says of the body; [`subroutines::turn_inside`] begins and ends a frame of a subroutine's
//! own, and [`subroutines::declare_subroutine`] puts the whole behind those before it.
//!
//! The check of subroutines calls it.
#![tactic(auto)]

mod numbers;
pub mod parameters;
pub mod results;
pub mod subroutines;
