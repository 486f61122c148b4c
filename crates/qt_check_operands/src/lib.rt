//! The check of whole expressions: each is typed, or refused for its first reason from left to right.
//!
//! Each function here is one definition of `qt_typing`: it answers what that finds, or its refusal, or want of memory.
//! [`expression::typed`] is the typing of an expression of the tree, [`expression::value_at`] that of one where a value of a type is
//! wanted; [`expression::reached`] and [`expression::steps_from`] go over the indexes behind a name, which are a [`left::IndexesLeft`]:
//! contracts see it as the list of those that are left. `proofs/Written.antt` shows that a part of a tree is written as it was, and
//! `proofs/PartViews.antt` has the definition at the forms of the tree.
//!
//! The check of targets, declarations and statements calls it.
#![tactic(auto)]

mod calls;
mod constants;
pub mod expression;
pub mod left;
pub mod names;
pub mod variables;
